//! The program `mcplay`: it hands the words of its command line, the system's files and standard
//! output to `mc_play::run`, or to `mc_play::generate` where the first word is `gen`, and ends with the
//! status of what comes back. All that they do and promise is in those calls' contracts; here is only
//! the edge.
#![tactic(auto)]

use mc_outside::{FileShelf, StdSink};
use mc_play::{generate, run};
use mc_script::Exit;
use std::process::ExitCode;
use std::{env, io};

const HELP: &str = "\
mcplay plays a script over a Matroska film and prints its packets.

  mcplay run film.mkv                  every packet of the default tracks, then how each track ended
  mcplay run film.mkv seek.script      what a script asks for; with `seek 60` and `drain` in it, all
                                       packets from the keyframe at or before one minute on
  mcplay gen 20000 > film.mkv          a film of known content, of 20000 pictures
  mcplay gen --sum 20000               what a right reader finds in that film

usage: mcplay run [--forward=N] [--back=N] [--readahead=N] FILE [SCRIPT]
       mcplay gen [--sum] N
       mcplay --help | --version

`run` opens FILE with its default video and audio track, and carries out the lines of the file
SCRIPT; without SCRIPT it reads both tracks to their ends, as the script `drain` does. Nothing is
printed before the last line was carried out: a long run is silent until then. FILE and SCRIPT are
files that can be read at any place, so neither is standard input; one named -x is written ./-x.

`gen` writes a Matroska film of N pictures, 1 to 200000, to standard output: a video track of 25
pictures a second, every twelfth a keyframe, and an audio track of a packet each 20 ms. Picture i
has 8 + i mod 32 octets, of which octet j is (i + j) mod 256; a packet of sound has four, i mod 256.
With --sum it makes that film in memory, reads it as `run` does, and prints how many packets there
are, how many octets they have together, and the last one's time:
  gen N packets COUNT octets OCTETS last TIME status 0

options, each at most once and before FILE; N is a decimal number without a suffix:
  --forward=N    octets cached ahead of the readers, 1 to 1073741824; else 157286400, 150 MiB
                 (mpv: --demuxer-max-bytes)
  --back=N       octets kept behind the readers, 0 to 1073741824; else 52428800, 50 MiB
                 (mpv: --demuxer-max-back-bytes)
  --readahead=N  milliseconds cached ahead of the reader of each track, unless --forward ends that
                 before, 0 to 3600000; else 1000, 1 second (mpv: --demuxer-readahead-secs)

lines of a script; one that is empty or begins with # is skipped:
  seek SECONDS               to the last keyframe at or before that time of the film
  seek SECONDS forward       to the first keyframe at or after it
  switch [NUMBER...]         select just these TrackNumbers; with no number, none
  switch [NUMBER...] at SECONDS    select them from that time on
  show                       look at the cache
  read video|audio|sub [COUNT]     read so many packets of that kind's track, as far as cached
  demux [COUNT]              do so many jobs of the demuxer: find a place, or read one block
  drain                      read all selected tracks to their ends
  demux take, demux give     take a job; bring its outcome

what happens is printed, one line each; times are in nanoseconds, places are OFFSET.FRAME:
  give TRACK at PLACE time TIME len OCTETS sum CHECKSUM sync|key|inter: a packet
  end TRACK clean | end TRACK cut OFFSET | end TRACK damaged OFFSET FAULT: the film's end
  failed BEFORE AFTER: a read of FILE failed, with how many had failed before and after it
  fault TRACK BEFORE AFTER: that failure, told to a track's reader
  starved: there was no memory to read on; wanting TRACK: that, told to a track's reader
  overfull TRACK OCTETS MOST: what is read ahead is at its limit, and none is of that track
  seek TIME [forward] cached|sent: a seek, served from the cache or not
  switch TRACKS at TIME: other tracks were selected
  drop TRACK from PLACE to PLACE CAUSE: packets left the cache
  join: two ranges of the cache became one
  view ranges COUNT forward OCTETS back OCTETS ending yes|no: a look at the cache, and for each
    of its ranges: range FROM TO, then TRACK PLACE PLACE for each track
  refused CAUSE: a seek without a track, or a switch to tracks that cannot be selected

status, with a line on standard error unless it is 0:
  0  done
  1  out of memory
  2  the words are not those of a usage line
  3  cannot read: FILE or SCRIPT is not there or cannot be opened, or a read of it failed
  4  cannot write: standard output took no more
  5  file refused, for what stands before the film's Clusters:
       NotEbml     it does not begin with a whole EBML header
       Version     it asks for a later version of EBML or of Matroska
       DocType     it is neither matroska nor webm
       NoSegment, NoInfo, NoTracks    that element was not found
       Broken N    the element at octet N is bad or runs past its parent
       ScaleZero   its TimestampScale is 0
       NoNumber, TwiceNumber    a track has no number, or two have the same
       TooMany     it has more than 64 tracks
  6  script refused, at the line with that number; nothing is played:
       Size        the script has more than 16777216 octets (line 0)
       Utf8        it is no UTF-8 (line 0)
       Word        the words are none of the lines above, or may not stand there
       Number      a time, a count or a track's number is wrong
  7  the journal has 16000000 records, so that the run ended there
";

// The words behind the program's name; `Usage` where one of them is no text.
fn words(rt: &HostRuntime) -> Result<Vec<String>, Exit> {
    let given = env::args(rt).map_err(|error| match error.kind() {
        io::ErrorKind::OutOfMemory => Exit::NoMemory,
        _ => Exit::Usage,
    })?;
    let mut words = Vec::new(rt.alloc());
    for word in given.skip(1) {
        words.push(word).map_err(|_| Exit::NoMemory)?;
    }
    Ok(words)
}

// What a packet of a usual film has at most, in octets.
const LARGE: usize = 16_777_216;

// Takes a large block and gives it back. From then on glibc's allocator has room for large packets in
// its heap, and no longer maps and unmaps each by itself, page by page. It is as well without.
fn keep_packets_in_the_heap(rt: &HostRuntime) {
    let mut block: Vec<u8> = Vec::new(rt.alloc());
    let _ = block.reserve(LARGE);
}

// Carries out the words.
fn carry_out(rt: &HostRuntime, words: &[String]) -> Exit {
    let mut out = StdSink::new(io::writer(rt));
    match words {
        [command, ..] if command.as_str() == "gen" => generate(rt.alloc(), words, &mut out),
        _ => {
            let mut shelf = FileShelf::new(rt, rt.alloc());
            run(rt.alloc(), words, &mut shelf, &mut out).exit
        }
    }
}

// Carries out the words, and says on standard error why they came to nothing.
fn perform(rt: &HostRuntime, words: &[String]) -> u8 {
    keep_packets_in_the_heap(rt);
    complain(rt, carry_out(rt, words))
}

// The status of how it ended, which is the same where standard error takes no line.
fn complain(rt: &HostRuntime, exit: Exit) -> u8 {
    let _ = match exit {
        Exit::Done => Ok(()),
        Exit::Usage => eprintln!(rt; "{exit}, or mcplay gen [--sum] N"),
        exit => eprintln!(rt; "{exit}"),
    };
    exit.status()
}

// The status of a text that was asked for.
fn status_of(printed: io::Result<()>) -> u8 {
    match printed {
        Ok(()) => Exit::Done.status(),
        Err(_) => Exit::Sink.status(),
    }
}

fn main(rt: HostRuntime) -> ExitCode {
    let status = match words(&rt) {
        Err(exit) => complain(&rt, exit),
        Ok(words) => match words.as_slice() {
            [word] if word.as_str() == "--help" => status_of(print!(rt; "{HELP}")),
            [word] if word.as_str() == "--version" => { status_of(println!(rt; "mcplay 0.1.0")) }
            words => perform(&rt, words),
        },
    };
    ExitCode::from(status)
}
