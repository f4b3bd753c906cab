use crate::asked::{call_parse, call_parse_nested, call_parse_octets};
use crate::cutting::{feed_many, feed_octets, feed_text};
use crate::told::{call_event, call_reply};
use mc_ipc::LineCut;
use rows::{Json, RowError, Table, named, none};
use std::alloc::Global;

/// The calls of one cut of an input into lines, and of single lines.
#[derive(Drop)]
pub struct IpcTable {
    cut: Option<LineCut>,
}

impl IpcTable {
    /// No cut has been made.
    pub fn new() -> IpcTable {
        IpcTable { cut: None }
    }
}

#[derive(Clone, Copy)]
enum Word {
    New,
    Feed,
    FeedOctets,
    FeedMany,
    Parse,
    ParseOctets,
    ParseNested,
    Reply,
    Event,
}

const WORDS: [(&str, Word); 9] = [
    ("new", Word::New),
    ("feed", Word::Feed),
    ("feed_octets", Word::FeedOctets),
    ("feed_many", Word::FeedMany),
    ("parse", Word::Parse),
    ("parse_octets", Word::ParseOctets),
    ("parse_nested", Word::ParseNested),
    ("reply", Word::Reply),
    ("event", Word::Event),
];

impl Table for IpcTable {
    fn call(
        &mut self,
        alloc: Global,
        name: &str,
        arguments: &[Json<'_>],
        out: &mut String,
    ) -> Result<(), RowError> {
        match named(&WORDS, name)? {
            Word::New => {
                none(arguments)?;
                self.cut = Some(LineCut::new(alloc));
                Ok(out.push_str("made")?)
            }
            Word::Feed => feed_text(alloc, self.cut()?, arguments, out),
            Word::FeedOctets => feed_octets(alloc, self.cut()?, arguments, out),
            Word::FeedMany => feed_many(alloc, self.cut()?, arguments, out),
            Word::Parse => call_parse(alloc, arguments, out),
            Word::ParseOctets => call_parse_octets(alloc, arguments, out),
            Word::ParseNested => call_parse_nested(alloc, arguments, out),
            Word::Reply => call_reply(alloc, arguments, out),
            Word::Event => call_event(alloc, arguments, out),
        }
    }
}

impl IpcTable {
    fn cut(&mut self) -> Result<&mut LineCut, RowError> {
        self.cut.as_mut().ok_or(RowError::BadRow)
    }
}
