use crate::blocks::{
    call_block, call_block_head, call_block_track, call_frames, call_group, call_write_block,
};
use crate::tracks::{call_ebml_header, call_info, call_known, call_of_kind, call_tracks};
use rows::{Json, RowError, Table, named};
use std::alloc::Global;

/// The calls of the two crates.
#[derive(Drop)]
pub struct BlockTable;

impl Table for BlockTable {
    fn call(
        &mut self,
        alloc: Global,
        name: &str,
        arguments: &[Json<'_>],
        out: &mut String,
    ) -> Result<(), RowError> {
        answer(alloc, named(&WORDS, name)?, arguments, out)
    }
}

#[derive(Clone, Copy)]
enum Word {
    Frames,
    Block,
    Group,
    BlockTrack,
    BlockHead,
    WriteBlock,
    EbmlHeader,
    Info,
    Tracks,
    Known,
    OfKind,
}

const WORDS: [(&str, Word); 11] = [
    ("frames", Word::Frames),
    ("block", Word::Block),
    ("group", Word::Group),
    ("block_track", Word::BlockTrack),
    ("block_head", Word::BlockHead),
    ("write_block", Word::WriteBlock),
    ("ebml_header", Word::EbmlHeader),
    ("info", Word::Info),
    ("tracks", Word::Tracks),
    ("known", Word::Known),
    ("of_kind", Word::OfKind),
];

fn answer(
    alloc: Global,
    word: Word,
    arguments: &[Json<'_>],
    out: &mut String,
) -> Result<(), RowError> {
    match word {
        Word::Frames => call_frames(alloc, arguments, out),
        Word::Block => call_block(alloc, arguments, out),
        Word::Group => call_group(alloc, arguments, out),
        Word::BlockTrack => call_block_track(alloc, arguments, out),
        Word::BlockHead => call_block_head(alloc, arguments, out),
        Word::WriteBlock => call_write_block(alloc, arguments, out),
        Word::EbmlHeader => call_ebml_header(alloc, arguments, out),
        Word::Info => call_info(alloc, arguments, out),
        Word::Tracks => call_tracks(alloc, arguments, out),
        Word::Known => call_known(alloc, arguments, out),
        Word::OfKind => call_of_kind(alloc, arguments, out),
    }
}
