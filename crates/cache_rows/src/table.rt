use crate::acts::{act, push_held};
use mc_cache::Cache;
use mc_packet::Limits;
use rows::{Json, RowError, Table, text_in, two};
use rows_packets::block_in;
use std::alloc::Global;

/// The one call, `play`; no row leaves anything to another.
#[derive(Drop)]
pub struct CacheTable;

impl Table for CacheTable {
    fn call(
        &mut self,
        alloc: Global,
        name: &str,
        arguments: &[Json<'_>],
        out: &mut String,
    ) -> Result<(), RowError> {
        if name != "play" {
            return Err(RowError::BadRow);
        }
        let (back, line) = two(arguments)?;
        call_play(alloc, block_in(back)?, text_in(line)?, out)
    }
}

fn call_play(alloc: Global, back: u64, line: &str, out: &mut String) -> Result<(), RowError> {
    let limits = Limits {
        forward: 1000,
        back,
        readahead: 0,
    };
    let mut cache = Cache::new(alloc, limits);
    for word in line.split_whitespace() {
        let (letter, number) = parsed(word).ok_or(RowError::BadRow)?;
        act(alloc, &mut cache, letter, number, out)?;
    }
    push_held(&cache, out)
}

// A letter and a number.
fn parsed(word: &str) -> Option<(char, u16)> {
    let letter = word.chars().next()?;
    let number = word.strip_prefix(letter)?.parse().ok()?;
    Some((letter, number))
}
