use crate::drip::{DripShelf, Fickle};
use crate::fake::FakeFiles;
use crate::shelves::{
    Asked, Held, answer_held, call_make, call_remove, call_slice, call_write_file, clean, mem,
};
use crate::sinks::{HeldSink, Wanted, answer_sink, mem_sink};
use mc_outside::{CleanSink, FileShelf, StdSink};
use rows::{Json, RowError, Table, named, none};
use std::alloc::Global;

/// The calls of one shelf and one sink, each of which lives from row to row.
#[derive(Drop)]
pub struct OutsideTable<'a> {
    rt: &'a HostRuntime,
    fakes: &'a FakeFiles,
    // A row that makes a shelf or a sink sets it anew.
    shelf: Option<Held<'a>>,
    sink: Option<HeldSink>,
}

impl<'a> OutsideTable<'a> {
    /// No shelf and no sink yet.
    pub fn new(rt: &'a HostRuntime, fakes: &'a FakeFiles) -> OutsideTable<'a> {
        OutsideTable {
            rt,
            fakes,
            shelf: None,
            sink: None,
        }
    }
}

// The shelf that a row makes.
#[derive(Clone, Copy)]
enum Made {
    Clean,
    Mem,
    Drip,
    Host,
    Fake,
}

// The sink that a row makes.
#[derive(Clone, Copy)]
enum MadeSink {
    Clean,
    Mem,
    Std,
}

#[derive(Clone, Copy)]
enum Word {
    Shelf(Made),
    Sink(MadeSink),
    Asked(Asked),
    Wanted(Wanted),
    Make,
    WriteFile,
    Remove,
    Slice,
}

const WORDS: [(&str, Word); 20] = [
    ("clean", Word::Shelf(Made::Clean)),
    ("mem", Word::Shelf(Made::Mem)),
    ("drip", Word::Shelf(Made::Drip)),
    ("host", Word::Shelf(Made::Host)),
    ("fake", Word::Shelf(Made::Fake)),
    ("clean_sink", Word::Sink(MadeSink::Clean)),
    ("mem_sink", Word::Sink(MadeSink::Mem)),
    ("std_sink", Word::Sink(MadeSink::Std)),
    ("open", Word::Asked(Asked::Open)),
    ("read", Word::Asked(Asked::Read)),
    ("full", Word::Asked(Asked::Full)),
    ("patterned", Word::Asked(Asked::Patterned)),
    ("faults", Word::Asked(Asked::Faults)),
    ("write", Word::Wanted(Wanted::Write)),
    ("write_full", Word::Wanted(Wanted::Full)),
    ("text", Word::Wanted(Wanted::Text)),
    ("make", Word::Make),
    ("write_file", Word::WriteFile),
    ("remove", Word::Remove),
    ("slice", Word::Slice),
];

impl<'a> Table for OutsideTable<'a> {
    fn call(
        &mut self,
        alloc: Global,
        name: &str,
        arguments: &[Json<'_>],
        out: &mut String,
    ) -> Result<(), RowError> {
        match named(&WORDS, name)? {
            Word::Shelf(made) => {
                self.shelf = Some(self.make_shelf(alloc, made, arguments)?);
                Ok(out.push_str("made")?)
            }
            Word::Sink(made) => {
                self.sink = Some(make_sink(alloc, made, arguments)?);
                Ok(out.push_str("made")?)
            }
            Word::Asked(asked) => match &mut self.shelf {
                Some(held) => answer_held(alloc, held, asked, arguments, out),
                None => Err(RowError::BadRow),
            },
            Word::Wanted(wanted) => match &mut self.sink {
                Some(held) => answer_sink(held, wanted, arguments, out),
                None => Err(RowError::BadRow),
            },
            Word::Make => call_make(self.rt, arguments, out),
            Word::WriteFile => call_write_file(self.rt, arguments, out),
            Word::Remove => call_remove(self.rt, arguments, out),
            Word::Slice => call_slice(alloc, arguments, out),
        }
    }
}

impl<'a> OutsideTable<'a> {
    fn make_shelf(
        &self,
        alloc: Global,
        made: Made,
        arguments: &[Json<'_>],
    ) -> Result<Held<'a>, RowError> {
        match made {
            Made::Clean => Ok(Held::Clean(clean(alloc, arguments)?)),
            Made::Mem => Ok(Held::Mem(mem(alloc, arguments)?)),
            Made::Drip => Ok(Held::Drip(DripShelf(clean(alloc, arguments)?))),
            Made::Host => {
                none(arguments)?;
                Ok(Held::Host(FileShelf::new(self.rt, alloc)))
            }
            Made::Fake => {
                none(arguments)?;
                Ok(Held::Fake(FileShelf::new(self.fakes, alloc)))
            }
        }
    }
}

fn make_sink(alloc: Global, made: MadeSink, arguments: &[Json<'_>]) -> Result<HeldSink, RowError> {
    match made {
        MadeSink::Mem => Ok(HeldSink::Mem(mem_sink(alloc, arguments)?)),
        MadeSink::Clean => {
            none(arguments)?;
            Ok(HeldSink::Clean(CleanSink::new(alloc)))
        }
        MadeSink::Std => {
            none(arguments)?;
            Ok(HeldSink::Std(StdSink::new(Fickle(0))))
        }
    }
}
