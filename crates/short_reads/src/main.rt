//! Runs a film that is held in memory behind reads of few octets, as a pipe or a slow disk gives
//! them: what is printed has to be what `mcplay run` prints.
#![tactic(auto)]

mod shelf;

use mc_outside::{CleanShelf, NamedFile, NamedFiles, StdSink};
use mc_play::run;
use shelf::ShortShelf;
use std::alloc::Global;
use std::process::ExitCode;
use std::rt::Files;
use std::{env, fs, io};

const USAGE: &str = "usage: short_reads OCTETS FILM, where OCTETS is the most that a read gives\n";

// A shelf that holds the film alone, under its own name.
fn shelf_of<R: Files + Alloc>(
    rt: &R,
    alloc: Global,
    most: usize,
    name: &str,
) -> io::Result<ShortShelf<CleanShelf>> {
    let octets = fs::read(rt, name)?;
    let mut files = NamedFiles::new(alloc);
    files.push(NamedFile::new(alloc, name, octets.as_slice())?)?;
    Ok(ShortShelf::new(CleanShelf::new(files), most))
}

fn perform(rt: &HostRuntime, most: usize, name: &str) -> io::Result<u8> {
    let alloc = rt.alloc();
    let mut shelf = shelf_of(rt, alloc, most, name)?;
    let mut words = Vec::new(alloc);
    words.push(String::from_str(alloc, "run")?)?;
    words.push(String::from_str(alloc, name)?)?;
    let mut out = StdSink::new(io::writer(rt));
    Ok(
        run(alloc, words.as_slice(), &mut shelf, &mut out)
            .exit
            .status(),
    )
}

fn main(rt: HostRuntime) -> io::Result<ExitCode> {
    let mut words = Vec::new(rt.alloc());
    for word in env::args(&rt)?.skip(1) {
        words.push(word)?;
    }
    if let [most, film] = words.as_slice() {
        if let Ok(most) = most.as_str().parse::<u32>() {
            let status = perform(&rt, most as usize, film.as_str())?;
            return Ok(ExitCode::from(status));
        }
    }
    print!(rt; "{USAGE}")?;
    Ok(ExitCode::from(0))
}
