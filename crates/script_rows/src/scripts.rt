use mc_packet::Dir;
use mc_script::{Act, ScriptWhy};
use std::alloc::AllocError;
use std::fmt::Write;

/// Appends the acts, each behind the number of its line and before a `;`.
pub fn push_acts(acts: &[(u32, Act)], out: &mut String) -> Result<(), AllocError> {
    for (line, act) in acts {
        write!(out, "{line} ")?;
        push_act(act, out)?;
        out.push(';')?;
    }
    Ok(())
}

fn push_act(act: &Act, out: &mut String) -> Result<(), AllocError> {
    match act {
        Act::Seek { t, dir } => match dir {
            Dir::Back => write!(out, "back {t}"),
            Dir::Forward => write!(out, "forward {t}"),
        },
        Act::Switch { set, at } => push_switch(set.as_slice(), *at, out),
        Act::Show => out.push_str("show"),
        Act::Demux { count } => write!(out, "demux {count}"),
        Act::DemuxTake => out.push_str("take"),
        Act::DemuxGive => out.push_str("give"),
        Act::Read { kind, count } => write!(out, "read {kind:?} {count}"),
        Act::Drain => out.push_str("drain"),
    }
}

fn push_switch(set: &[u64], at: Option<i64>, out: &mut String) -> Result<(), AllocError> {
    out.push_str("to")?;
    for track in set {
        write!(out, " {track}")?;
    }
    match at {
        None => Ok(()),
        Some(t) => write!(out, " at {t}"),
    }
}

/// Appends the line at which a script is refused, and why.
pub fn push_refusal(line: u32, why: ScriptWhy, out: &mut String) -> Result<(), AllocError> {
    let why = match why {
        ScriptWhy::Size => "size",
        ScriptWhy::Utf8 => "utf8",
        ScriptWhy::Word => "word",
        ScriptWhy::Number => "number",
    };
    write!(out, "refused {line} {why}")
}
