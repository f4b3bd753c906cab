use crate::lines::call_line;
use crate::queue::QueueTable;
use crate::ring::RingTable;
use rows::{Json, RowError, Table};
use std::alloc::Global;

/// The calls of a ring, of a queue of requests, and of lines of commands.
#[derive(Drop)]
pub struct PlayerTable {
    ring: RingTable,
    queue: QueueTable,
}

impl PlayerTable {
    /// Neither a ring nor a queue has been made.
    pub fn new() -> PlayerTable {
        PlayerTable {
            ring: RingTable::new(),
            queue: QueueTable::new(),
        }
    }
}

impl Table for PlayerTable {
    fn call(
        &mut self,
        alloc: Global,
        name: &str,
        arguments: &[Json<'_>],
        out: &mut String,
    ) -> Result<(), RowError> {
        let (part, word) = name.split_once(' ').ok_or(RowError::BadRow)?;
        match part {
            "ring" => self.ring.call(alloc, word, arguments, out),
            "queue" => self.queue.call(alloc, word, arguments, out),
            "line" => call_line(alloc, word, arguments, out),
            _ => Err(RowError::BadRow),
        }
    }
}
