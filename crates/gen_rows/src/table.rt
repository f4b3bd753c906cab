use crate::pieces::call_pieces;
use crate::seeks::call_seeks;
use crate::written::{call_fails, call_octets, call_packets, call_summary};
use rows::{Json, RowError, Table, named};
use std::alloc::Global;

/// The calls of `mc_gen`.
#[derive(Drop)]
pub struct GenTable;

#[derive(Clone, Copy)]
enum Word {
    Octets,
    Packets,
    Summary,
    Fails,
    Pieces,
    Seeks,
}

const WORDS: [(&str, Word); 6] = [
    ("octets", Word::Octets),
    ("packets", Word::Packets),
    ("summary", Word::Summary),
    ("fails", Word::Fails),
    ("pieces", Word::Pieces),
    ("seeks", Word::Seeks),
];

impl Table for GenTable {
    fn call(
        &mut self,
        alloc: Global,
        name: &str,
        arguments: &[Json<'_>],
        out: &mut String,
    ) -> Result<(), RowError> {
        match named(&WORDS, name)? {
            Word::Octets => call_octets(alloc, arguments, out),
            Word::Packets => call_packets(alloc, arguments, out),
            Word::Summary => call_summary(alloc, arguments, out),
            Word::Fails => call_fails(alloc, arguments, out),
            Word::Pieces => call_pieces(alloc, arguments, out),
            Word::Seeks => call_seeks(alloc, arguments, out),
        }
    }
}
