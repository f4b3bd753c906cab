ghost use Rattle.std.specs.Prelude.{◌≡◌, ◌≤◌, ◌<◌, ◌∷◌, [], codes, length, map, string_bytes, Some, IfOk};
ghost use Rattle.mc_gen.specs.Generated.{generated_packets};
ghost use Rattle.mc_gen.specs.Summary.{sums_of};
ghost use Rattle.mc_outside.specs.CleanShelf.{told_by};
ghost use Rattle.mc_play.specs.Summing.{Drained, sums_in, sums_with};

use crate::command::{any_starved, perform};
use crate::playing::Played;
use mc_gen::{Sums, generated_films, write_generated};
use mc_journal::DemuxRecord;
use mc_outside::{CleanShelf, CleanSink, NamedFile, NamedFiles};
use mc_packet::{Limits, NoMemory};
use mc_script::RunLine;
use std::alloc::{AllocError, Global};

/// The name of a film in memory.
const FILM: &str = "film";

/// It is read as without options, from the first word on.
const LINE: RunLine = RunLine {
    limits: Limits {
        forward: 157_286_400,
        back: 52_428_800,
        readahead: 1_000_000_000,
    },
    file: 0,
    script: None,
};

// What a record tells of is counted too.
fn with(found: Sums, entry: &DemuxRecord) -> Sums
    ensures { result ≡ sums_with found entry.now }
{
    match entry {
        DemuxRecord::Gave { time, len, .. } => Sums {
            packets: found.packets.saturating_add(1),
            octets: found.octets.saturating_add(*len),
            last: found.last.max(*time),
        },
        _ => found,
    }
}

// What was given in a journal, counted.
fn sums(hd: &[DemuxRecord]) -> Sums
    ensures { result ≡ sums_in hd.now }
{
    let mut found = Sums {
        packets: 0,
        octets: 0,
        last: 0,
    };
    for entry in hd {
        found = with(found, entry);
    }
    found
}

// A shelf whose one file, under that name, has these octets.
fn shelf_of(alloc: Global, octets: &[u8]) -> Result<CleanShelf, NoMemory>
    ensures { IfOk result (λ shelf. told_by shelf (codes "film") ≡ Some octets.now) }
{
    let mut files = NamedFiles::new(alloc);
    files.push(NamedFile::new(alloc, FILM, octets)?)?;
    Ok(CleanShelf::new(files))
}

// Its name as the one word of a line.
fn words_of(alloc: Global) -> Result<Vec<String>, NoMemory>
    ensures { IfOk result (λ words. map string_bytes words.items ≡ codes "film" ∷ []) }
{
    let mut words = Vec::new(alloc);
    words.push(String::from_str(alloc, FILM)?)?;
    Ok(words)
}

// Reads a film in memory to its end, unless the journal is full before or memory is wanting.
fn drain(alloc: Global, octets: &[u8]) -> Result<Played, NoMemory>
    ensures { IfOk result (λ played. Drained octets.now played.halt played.hd) }
{
    let mut shelf = shelf_of(alloc, octets)?;
    let words = words_of(alloc)?;
    match perform(alloc, words.as_slice(), LINE, &mut shelf, 0) {
        Ok(played) => Ok(played),
        Err(_) => Err(AllocError),
    }
}

/// What is found in the film of so many pictures, where it is made in memory and read to its end.
///
/// `NoMemory` where memory is wanting. A journal has room for what reading a film of 200,000 pictures
/// leaves; were it full, that would be `NoMemory` too.
pub(crate) fn read_sums(alloc: Global, n: u32) -> Result<Sums, NoMemory>
    requires { n ≤ 200000 }
    ensures { IfOk result (λ found. found ≡ sums_of (generated_packets n)) }
{
    generated_films();
    let mut film = CleanSink::new(alloc);
    let Ok(()) = write_generated(alloc, n, &mut film) else {
        return Err(AllocError);
    };
    let Played { hd, halt } = drain(alloc, film.text())?;
    if halt.is_err() || any_starved(hd.as_slice()) {
        return Err(AllocError);
    }
    Ok(sums(hd.as_slice()))
}
