ghost use Rattle.std.specs.Prelude.{◌≡◌, string_bytes, IfOk, OnOk, [], ◌∷◌, ◌++◌, codes, decimal};
ghost use Rattle.mc_script.specs.Text.{joined};
ghost use Rattle.mc_script.specs.Transcript.{set_after, place_text, payload_text, fault_text, ending_text, track_end_text, failed_text, fault_line, wanting_text, line, lines_from, mark_text, set_behind, transcript};

use crate::cache_text::{
    push_drop, push_overfull, push_refused, push_seek, push_switch, push_view,
};
use mc_journal::{DemuxJournal, DemuxRecord};
use mc_packet::{Choice, Ending, Fault, NoMemory, Pos};
use mc_value::Text;
use std::alloc::Global;

fn fault_name(fault: Fault) -> &'static str
    ensures { result.now ≡ fault_text fault }
{
    match fault {
        Fault::BadId => "BadId",
        Fault::BadSize => "BadSize",
        Fault::NoSize => "NoSize",
        Fault::Overrun => "Overrun",
        Fault::TooLarge => "TooLarge",
        Fault::BadUint => "BadUint",
        Fault::NoTime => "NoTime",
        Fault::ShortBlock => "ShortBlock",
        Fault::BadLace => "BadLace",
        Fault::TimeRange => "TimeRange",
        Fault::BadGroup => "BadGroup",
    }
}

fn mark_name(sync: bool, key: bool) -> &'static str
    ensures { result.now ≡ mark_text sync key }
{
    if sync {
        "sync"
    } else if key {
        "key"
    } else {
        "inter"
    }
}

fn push_damage(text: &mut String, at: u64, name: &str) -> Result<(), NoMemory>
    ensures { OnOk result (string_bytes text.new ≡ string_bytes text.old
        ++ joined (codes "damaged " ∷ decimal at ∷ codes " " ∷ name.now ∷ codes "\n" ∷ [])) }
{
    write!(text, "damaged {at} {name}\n")
}

fn push_cut(text: &mut String, at: u64) -> Result<(), NoMemory>
    ensures { OnOk result (string_bytes text.new
        ≡ string_bytes text.old ++ joined (codes "cut " ∷ decimal at ∷ codes "\n" ∷ [])) }
{
    write!(text, "cut {at}\n")
}

fn push_ending(text: &mut String, ending: Ending) -> Result<(), NoMemory>
    ensures { OnOk result (string_bytes text.new ≡ string_bytes text.old ++ ending_text ending) }
{
    match ending {
        Ending::Clean => text.push_str("clean\n"),
        Ending::Cut(at) => push_cut(text, at),
        Ending::Damaged(at, fault) => push_damage(text, at, fault_name(fault)),
    }
}

fn push_track_end(text: &mut String, track: u64) -> Result<(), NoMemory>
    ensures { OnOk result (string_bytes text.new ≡ string_bytes text.old ++ track_end_text track) }
{
    write!(text, "end {track} ")
}

fn push_place(text: &mut String, track: u64, pos: Pos, time: i64) -> Result<(), NoMemory>
    ensures { OnOk result (string_bytes text.new
        ≡ string_bytes text.old ++ place_text track pos time) }
{
    let block = pos.block;
    let lane = pos.lane;
    write!(text, "give {track} at {block}.{lane} time {time}")
}

fn push_payload(text: &mut String, len: u64, sum: u32, mark: &str) -> Result<(), NoMemory>
    ensures { OnOk result (string_bytes text.new
        ≡ string_bytes text.old ++ payload_text len sum mark.now) }
{
    write!(text, " len {len} sum {sum} {mark}\n")
}

fn push_failed(text: &mut String, before: u64, after: u64) -> Result<(), NoMemory>
    ensures { OnOk result (string_bytes text.new
        ≡ string_bytes text.old ++ failed_text before after) }
{
    write!(text, "failed {before} {after}\n")
}

fn push_fault(text: &mut String, track: u64, before: u64, after: u64) -> Result<(), NoMemory>
    ensures { OnOk result (string_bytes text.new
        ≡ string_bytes text.old ++ fault_line track before after) }
{
    write!(text, "fault {track} {before} {after}\n")
}

fn push_wanting(text: &mut String, track: u64) -> Result<(), NoMemory>
    ensures { OnOk result (string_bytes text.new ≡ string_bytes text.old ++ wanting_text track) }
{
    write!(text, "wanting {track}\n")
}

// The selected tracks behind a record, of those before it.
fn select(set: Choice, entry: &DemuxRecord) -> Choice
    ensures { result ≡ set_after set entry.now }
{
    match *entry {
        DemuxRecord::Opened { set: chosen, .. } => chosen,
        DemuxRecord::Sought { set: chosen, .. } => chosen,
        DemuxRecord::Switched { set: chosen, .. } => chosen,
        _ => set,
    }
}

// Adds the line of a packet that was given.
fn push_gave(
    text: &mut String,
    track: u64,
    pos: Pos,
    time: i64,
    payload: (u64, u32),
    mark: &str,
) -> Result<(), NoMemory>
    ensures { OnOk result (string_bytes text.new ≡ string_bytes text.old
        ++ (place_text track pos time ++ payload_text payload.0 payload.1 mark.now)) }
{
    let (len, sum) = payload;
    push_place(text, track, pos, time)?;
    push_payload(text, len, sum, mark)
}

// Adds the line of a reader's end.
fn push_ended(text: &mut String, track: u64, ending: Ending) -> Result<(), NoMemory>
    ensures { OnOk result (string_bytes text.new
        ≡ string_bytes text.old ++ (track_end_text track ++ ending_text ending)) }
{
    push_track_end(text, track)?;
    push_ending(text, ending)
}

// Adds the line of a record; these tracks are selected before it.
fn push_line(text: &mut String, set: Choice, entry: &DemuxRecord) -> Result<(), NoMemory>
    ensures { OnOk result (string_bytes text.new ≡ string_bytes text.old ++ line set entry.now) }
{
    match *entry {
        DemuxRecord::Opened { .. } => Ok(()),
        DemuxRecord::Sought { t, dir, how, .. } => push_seek(text, t, dir, how),
        DemuxRecord::Switched { set, at, .. } => push_switch(text, set, at),
        DemuxRecord::Found { .. } => Ok(()),
        DemuxRecord::Fed { .. } => Ok(()),
        DemuxRecord::Failed { before, after, .. } => push_failed(text, before, after),
        DemuxRecord::Starved { .. } => text.push_str("starved\n"),
        DemuxRecord::Dropped { drop, .. } => push_drop(text, drop),
        DemuxRecord::Joined { .. } => text.push_str("join\n"),
        DemuxRecord::Gave {
            track,
            pos,
            time,
            len,
            sum,
            sync,
            key,
            ..
        } => push_gave(text, track, pos, time, (len, sum), mark_name(sync, key)),
        DemuxRecord::Ended { track, ending, .. } => push_ended(text, track, ending),
        DemuxRecord::Overfull {
            track,
            forward,
            max,
            ..
        } => push_overfull(text, track, forward, max),
        DemuxRecord::Faulted {
            track,
            before,
            after,
            ..
        } => push_fault(text, track, before, after),
        DemuxRecord::Wanting { track, .. } => push_wanting(text, track),
        DemuxRecord::Shown { ref view, .. } => push_view(text, set, view),
        DemuxRecord::Refused { why, .. } => push_refused(text, why),
    }
}

/// The text of some records of a demuxer's journal, before which these tracks are selected, and which
/// are selected behind them: so the text of a long journal can be made piece by piece.
pub fn records_text(
    alloc: Global,
    set: Choice,
    records: &[DemuxRecord],
) -> Result<(Text, Choice), NoMemory>
    ensures text { IfOk result (λ r. r.0 ≡ lines_from set records.now) }
    ensures set { IfOk result (λ r. r.1 ≡ set_behind set records.now) }
{
    let mut text = String::new(alloc);
    let mut selected = set;
    for entry in records {
        push_line(&mut text, selected, entry)?;
        selected = select(selected, entry);
    }
    Ok((Text::from_string(text), selected))
}

/// The text of a demuxer's journal: for each record its lines, each ended by LF, or nothing. A
/// look at the cache is told with the tracks that are selected there.
pub fn demux_text(alloc: Global, h: &DemuxJournal) -> Result<Text, NoMemory>
    ensures { IfOk result (λ s. s ≡ transcript h.now) }
{
    let set = Choice {
        video: None,
        audio: None,
        sub: None,
    };
    let (text, _) = records_text(alloc, set, h.as_slice())?;
    Ok(text)
}
