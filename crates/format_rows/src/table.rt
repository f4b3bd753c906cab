use crate::elements::{call_coded, call_head, call_id, call_size, call_text, call_uint};
use crate::packets::{call_choice, call_chunk, call_packet, call_starts, call_sum, call_view};
use crate::writing::{
    call_write_coded, call_write_element, call_write_head, call_write_text, call_write_uint,
};
use rows::{Json, RowError, Table, named};
use std::alloc::Global;

/// The calls of the two crates.
#[derive(Drop)]
pub struct FormatTable;

impl Table for FormatTable {
    fn call(
        &mut self,
        alloc: Global,
        name: &str,
        arguments: &[Json<'_>],
        out: &mut String,
    ) -> Result<(), RowError> {
        answer(alloc, named(&WORDS, name)?, arguments, out)
    }
}

#[derive(Clone, Copy)]
enum Word {
    Sum,
    Packet,
    Chunk,
    View,
    Choice,
    Starts,
    Id,
    Size,
    Coded,
    Head,
    Uint,
    Text,
    WriteHead,
    WriteUint,
    WriteText,
    WriteCoded,
    WriteElement,
}

const WORDS: [(&str, Word); 17] = [
    ("sum", Word::Sum),
    ("packet", Word::Packet),
    ("chunk", Word::Chunk),
    ("view", Word::View),
    ("choice", Word::Choice),
    ("starts", Word::Starts),
    ("id", Word::Id),
    ("size", Word::Size),
    ("coded", Word::Coded),
    ("head", Word::Head),
    ("uint", Word::Uint),
    ("text", Word::Text),
    ("write_head", Word::WriteHead),
    ("write_uint", Word::WriteUint),
    ("write_text", Word::WriteText),
    ("write_coded", Word::WriteCoded),
    ("write_element", Word::WriteElement),
];

fn answer(
    alloc: Global,
    word: Word,
    arguments: &[Json<'_>],
    out: &mut String,
) -> Result<(), RowError> {
    match word {
        Word::Sum => call_sum(alloc, arguments, out),
        Word::Packet => call_packet(alloc, arguments, out),
        Word::Chunk => call_chunk(alloc, arguments, out),
        Word::View => call_view(alloc, arguments, out),
        Word::Choice => call_choice(arguments, out),
        Word::Starts => call_starts(arguments, out),
        Word::Id => call_id(alloc, arguments, out),
        Word::Size => call_size(alloc, arguments, out),
        Word::Coded => call_coded(alloc, arguments, out),
        Word::Head => call_head(alloc, arguments, out),
        Word::Uint => call_uint(alloc, arguments, out),
        Word::Text => call_text(alloc, arguments, out),
        Word::WriteHead => call_write_head(alloc, arguments, out),
        Word::WriteUint => call_write_uint(alloc, arguments, out),
        Word::WriteText => call_write_text(alloc, arguments, out),
        Word::WriteCoded => call_write_coded(alloc, arguments, out),
        Word::WriteElement => call_write_element(alloc, arguments, out),
    }
}
