use crate::calls::{
    call_back, call_cached, call_fail, call_find, call_flags, call_forward, call_job, call_late,
    call_read, call_seek, call_select, call_show, call_work,
};
use crate::jobs::row_error;
use crate::records::push_records;
use crate::tracks::{limits, open};
use mc_demux::Demux;
use mc_packet::Packets;
use rows::{Json, RowError, Table, named, number_in};
use rows_packets::{choice_in, packets_in};
use std::alloc::Global;

/// A demuxer and the film that it reads.
#[derive(Drop)]
pub struct Held {
    /// The demuxer.
    pub demux: Demux,
    /// The film's packets, in file order.
    pub film: Packets,
}

/// The calls of a demuxer; `open` makes another.
#[derive(Drop)]
pub struct DemuxTable {
    held: Option<Held>,
}

impl DemuxTable {
    pub fn new() -> DemuxTable {
        DemuxTable { held: None }
    }
}

#[derive(Clone, Copy)]
enum Word {
    Open,
    Work,
    Find,
    Fail,
    Late,
    Job,
    Read,
    Seek,
    Select,
    Forward,
    Back,
    Flags,
    Show,
    Cached,
}

const WORDS: [(&str, Word); 14] = [
    ("open", Word::Open),
    ("work", Word::Work),
    ("find", Word::Find),
    ("fail", Word::Fail),
    ("late", Word::Late),
    ("job", Word::Job),
    ("read", Word::Read),
    ("seek", Word::Seek),
    ("select", Word::Select),
    ("forward", Word::Forward),
    ("back", Word::Back),
    ("flags", Word::Flags),
    ("show", Word::Show),
    ("cached", Word::Cached),
];

impl Table for DemuxTable {
    fn call(
        &mut self,
        alloc: Global,
        name: &str,
        arguments: &[Json<'_>],
        out: &mut String,
    ) -> Result<(), RowError> {
        match named(&WORDS, name)? {
            Word::Open => {
                self.held = Some(opened(alloc, arguments)?);
                Ok(out.push_str("opened")?)
            }
            word => match &mut self.held {
                Some(held) => answer_and_tell(alloc, held, word, arguments, out),
                None => Err(RowError::BadRow),
            },
        }
    }
}

// The limits ahead and behind, the tracks, and the film's packets.
fn opened(alloc: Global, arguments: &[Json<'_>]) -> Result<Held, RowError> {
    let [forward, back, set, packets] = arguments else {
        return Err(RowError::BadRow);
    };
    let forward = u32::try_from(number_in(forward)?)?;
    let back = u32::try_from(number_in(back)?)?;
    let limits = limits(forward, back)?;
    let film = packets_in(alloc, packets, &[16])?;
    match open(alloc, choice_in(set)?, limits).map_err(row_error)? {
        Some(demux) => Ok(Held { demux, film }),
        None => Err(RowError::BadRow),
    }
}

// The answer, and then the records that came.
fn answer_and_tell(
    alloc: Global,
    held: &mut Held,
    word: Word,
    arguments: &[Json<'_>],
    out: &mut String,
) -> Result<(), RowError> {
    let before = held.demux.journal().len();
    answer(alloc, held, word, arguments, out)?;
    Ok(push_records(held.demux.journal(), before, out)?)
}

fn answer(
    alloc: Global,
    held: &mut Held,
    word: Word,
    arguments: &[Json<'_>],
    out: &mut String,
) -> Result<(), RowError> {
    match word {
        Word::Work => call_work(alloc, held, arguments, out),
        Word::Find => call_find(&mut held.demux, arguments, out),
        Word::Fail => call_fail(&mut held.demux, arguments, out),
        Word::Late => call_late(alloc, held, arguments, out),
        Word::Job => call_job(&mut held.demux, arguments, out),
        Word::Read => call_read(&mut held.demux, arguments, out),
        Word::Seek => call_seek(&mut held.demux, arguments, out),
        Word::Select => call_select(alloc, &mut held.demux, arguments, out),
        Word::Forward => call_forward(&held.demux, arguments, out),
        Word::Back => call_back(&held.demux, arguments, out),
        Word::Flags => call_flags(&held.demux, arguments, out),
        Word::Show => call_show(&mut held.demux, arguments, out),
        Word::Cached => call_cached(&held.demux, arguments, out),
        Word::Open => Err(RowError::BadRow),
    }
}
