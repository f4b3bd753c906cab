use mc_journal::{DemuxRecord, Sought};
use rows_packets::push_span;
use std::alloc::AllocError;
use std::fmt::Write;

/// Appends the records behind the first so many, a word for each.
pub fn push_records(
    journal: &[DemuxRecord],
    before: usize,
    out: &mut String,
) -> Result<(), AllocError> {
    for record in journal.iter().skip(before) {
        out.push_str(", ")?;
        push_record(record, out)?;
    }
    Ok(())
}

fn push_record(record: &DemuxRecord, out: &mut String) -> Result<(), AllocError> {
    match record {
        DemuxRecord::Dropped { drop, .. } => {
            write!(out, "drop {} ", drop.track)?;
            push_span(Some((drop.from, drop.to)), out)
        }
        DemuxRecord::Sought { how, .. } => out.push_str(match how {
            Sought::Cached => "sought cached",
            Sought::Sent => "sought sent",
        }),
        record => out.push_str(name_of(record)),
    }
}

fn name_of(record: &DemuxRecord) -> &'static str {
    match record {
        DemuxRecord::Opened { .. } => "opened",
        DemuxRecord::Sought { .. } => "sought",
        DemuxRecord::Switched { .. } => "switched",
        DemuxRecord::Found { .. } => "found",
        DemuxRecord::Fed { .. } => "fed",
        DemuxRecord::Failed { .. } => "failed",
        DemuxRecord::Starved { .. } => "starved",
        DemuxRecord::Dropped { .. } => "drop",
        DemuxRecord::Joined { .. } => "join",
        DemuxRecord::Gave { .. } => "gave",
        DemuxRecord::Ended { .. } => "ended",
        DemuxRecord::Overfull { .. } => "overfull",
        DemuxRecord::Faulted { .. } => "faulted",
        DemuxRecord::Wanting { .. } => "wanting",
        DemuxRecord::Shown { .. } => "shown",
        DemuxRecord::Refused { .. } => "refused",
    }
}
