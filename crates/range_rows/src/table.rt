use crate::calls::{
    call_add_track, call_bounds, call_cut, call_join, call_len, call_new, call_put, call_reach,
    call_reserve, call_retrack, call_serves, call_touches, call_weight_from, call_whole,
};
use mc_range::Range;
use rows::{Json, RowError, Table, named};
use std::alloc::Global;

/// The calls of a range; `new` makes another, and `other` the one that it is joined with.
#[derive(Drop)]
pub struct RangeTable {
    range: Option<Range>,
    other: Option<Range>,
}

impl RangeTable {
    pub fn new() -> RangeTable {
        RangeTable {
            range: None,
            other: None,
        }
    }
}

#[derive(Clone, Copy)]
enum Word {
    New,
    Other,
    Touches,
    Join,
    Whole,
    Put,
    Reach,
    Len,
    Reserve,
    Serves,
    Bounds,
    WeightFrom,
    Cut,
    Retrack,
    AddTrack,
}

const WORDS: [(&str, Word); 15] = [
    ("new", Word::New),
    ("other", Word::Other),
    ("touches", Word::Touches),
    ("join", Word::Join),
    ("whole", Word::Whole),
    ("put", Word::Put),
    ("reach", Word::Reach),
    ("len", Word::Len),
    ("reserve", Word::Reserve),
    ("serves", Word::Serves),
    ("bounds", Word::Bounds),
    ("weight_from", Word::WeightFrom),
    ("cut", Word::Cut),
    ("retrack", Word::Retrack),
    ("add_track", Word::AddTrack),
];

impl Table for RangeTable {
    fn call(
        &mut self,
        alloc: Global,
        name: &str,
        arguments: &[Json<'_>],
        out: &mut String,
    ) -> Result<(), RowError> {
        match named(&WORDS, name)? {
            Word::New => call_new(alloc, &mut self.range, arguments, out),
            Word::Other => call_new(alloc, &mut self.other, arguments, out),
            Word::Touches => both(
                &mut self.range,
                &mut self.other,
                Word::Touches,
                arguments,
                out,
            ),
            Word::Join => both(&mut self.range, &mut self.other, Word::Join, arguments, out),
            word => match &mut self.range {
                Some(range) => answer(alloc, range, word, arguments, out),
                None => Err(RowError::BadRow),
            },
        }
    }
}

fn both(
    range: &mut Option<Range>,
    other: &mut Option<Range>,
    word: Word,
    arguments: &[Json<'_>],
    out: &mut String,
) -> Result<(), RowError> {
    match (range, other) {
        (Some(range), Some(other)) => match word {
            Word::Join => call_join(range, other, arguments, out),
            _ => call_touches(range, other, arguments, out),
        },
        _ => Err(RowError::BadRow),
    }
}

fn answer(
    alloc: Global,
    range: &mut Range,
    word: Word,
    arguments: &[Json<'_>],
    out: &mut String,
) -> Result<(), RowError> {
    match word {
        Word::Whole => call_whole(range, arguments, out),
        Word::Put => call_put(alloc, range, arguments, out),
        Word::Reach => call_reach(alloc, range, arguments, out),
        Word::Len => call_len(range, arguments, out),
        Word::Reserve => call_reserve(range, arguments, out),
        Word::Serves => call_serves(range, arguments, out),
        Word::Bounds => call_bounds(range, arguments, out),
        Word::WeightFrom => call_weight_from(range, arguments, out),
        Word::Cut => call_cut(range, arguments, out),
        Word::Retrack => call_retrack(range, arguments, out),
        Word::AddTrack => call_add_track(range, arguments, out),
        Word::New | Word::Other | Word::Touches | Word::Join => Err(RowError::BadRow),
    }
}
