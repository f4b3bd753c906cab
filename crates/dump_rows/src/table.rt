use crate::held::{
    Held, call_choose, call_clear, call_packet, call_packets, call_track, call_tracks,
};
use crate::writing::{call_clusters, call_fails, call_octets, call_write};
use rows::{Json, RowError, Table, named};
use rows_films::{Films, call_change, call_film};
use std::alloc::Global;

/// The calls of `mc_dump`, over named films and over the tracks and packets that are held.
#[derive(Drop)]
pub struct DumpTable {
    films: Films,
    held: Held,
}

impl DumpTable {
    pub fn new(alloc: Global) -> DumpTable {
        DumpTable {
            films: Films::new(alloc),
            held: Held::new(alloc),
        }
    }
}

#[derive(Clone, Copy)]
enum Word {
    Film,
    Change,
    Choose,
    Clear,
    Track,
    Tracks,
    Packet,
    Packets,
    Write,
    Octets,
    Clusters,
    Fails,
}

const WORDS: [(&str, Word); 12] = [
    ("film", Word::Film),
    ("change", Word::Change),
    ("choose", Word::Choose),
    ("clear", Word::Clear),
    ("track", Word::Track),
    ("tracks", Word::Tracks),
    ("packet", Word::Packet),
    ("packets", Word::Packets),
    ("write", Word::Write),
    ("octets", Word::Octets),
    ("clusters", Word::Clusters),
    ("fails", Word::Fails),
];

impl Table for DumpTable {
    fn call(
        &mut self,
        alloc: Global,
        name: &str,
        arguments: &[Json<'_>],
        out: &mut String,
    ) -> Result<(), RowError> {
        let films = &mut self.films;
        let held = &mut self.held;
        match named(&WORDS, name)? {
            Word::Film => call_film(alloc, films, arguments, out),
            Word::Change => call_change(alloc, films, arguments, out),
            Word::Choose => call_choose(alloc, films, held, arguments, out),
            Word::Clear => call_clear(alloc, held, arguments, out),
            Word::Track => call_track(alloc, held, arguments, out),
            Word::Tracks => call_tracks(alloc, held, arguments, out),
            Word::Packet => call_packet(alloc, held, arguments, out),
            Word::Packets => call_packets(alloc, held, arguments, out),
            Word::Write => call_write(alloc, held, arguments, out),
            Word::Octets => call_octets(alloc, held, arguments, out),
            Word::Clusters => call_clusters(alloc, held, arguments, out),
            Word::Fails => call_fails(alloc, held, arguments, out),
        }
    }
}
