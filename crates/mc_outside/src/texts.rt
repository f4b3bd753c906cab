ghost use Rattle.std.specs.Prelude.{◌≡◌, ◌+◌, ◌++◌, ◌↔◌, length, take, [], Some, Err, IfOk, IfErr, OnErr, Contains};
ghost use Rattle.mc_outside.specs.Causes.{counted};
ghost use Rattle.mc_outside.specs.Sink.{WriteCause, faults_after_write};

use crate::sink::{Sink, SinkError};
use sqlite_items::Items;
use std::alloc::{AllocError, Global};
use std::marker::Model;

/// A text in memory that never fails: it counts no fault. Contracts see it as its octets.
#[derive(Drop)]
pub struct CleanSink {
    // What was written: `write` alone adds to it.
    text: Vec<u8>,
}

impl Model for CleanSink {
    ghost use Rattle.std.specs.Prelude.{List, ℕ};

    ghost Value = { List ℕ };

    ghost view = { λ s. s.text.items };
}

impl CleanSink {
    /// The empty text. It takes no memory yet.
    pub fn new(alloc: Global) -> CleanSink
        ensures { result ≡ [] }
    {
        CleanSink {
            text: Vec::new(alloc),
        }
    }

    /// The octets that were written.
    pub fn text(&self) -> &[u8]
        ensures { result.now ≡ self.now }
    {
        self.text.as_slice()
    }
}

impl Sink for CleanSink {
    ghost use Rattle.std.specs.Prelude.{Some};

    ghost text = { λ s. Some s };

    ghost faults = { λ s. 0 };

    /// It takes the whole piece, or answers `NoMemory`.
    fn write(&mut self, piece: &[u8]) -> Result<usize, SinkError>
        ensures took { IfOk result (λ n. n ≡ length piece.now) }
        ensures grown { IfOk result (λ n. self.new ≡ self.old ++ piece.now) }
        ensures refused { OnErr result (self.new ≡ self.old) }
        ensures memory { IfErr result (λ e. e ≡ SinkError.NoMemory) }
    {
        match self.text.extend_from_slice(piece) {
            Ok(()) => Ok(piece.len()),
            Err(AllocError) => Err(SinkError::NoMemory),
        }
    }
}

/// The numbers of the write calls that fail, counted from 0.
pub type Numbers = Items<u64>;

/// A text in memory some of whose write calls fail: each of these counts a fault and leaves the
/// text as it was.
#[derive(Drop)]
pub struct MemSink {
    // What was written.
    clean: CleanSink,
    // The numbers of the calls that fail: `new` alone sets them.
    bad: Numbers,
    // How many calls there were, and how many of them failed.
    calls: u64,
    faults: u64,
}

impl MemSink {
    ghost use Rattle.mc_outside.specs.MemSink.{text_of, bad_of, calls_of, faults_of};

    /// The empty text, whose write calls with these numbers fail. It takes no memory yet.
    pub fn new(alloc: Global, bad: Numbers) -> MemSink
        ensures text { text_of result ≡ [] }
        ensures bad { bad_of result ≡ bad }
        ensures calls { calls_of result ≡ 0 }
        ensures faults { faults_of result ≡ 0 }
    {
        MemSink {
            clean: CleanSink::new(alloc),
            bad,
            calls: 0,
            faults: 0,
        }
    }

    /// The octets that were written.
    pub fn text(&self) -> &[u8]
        ensures { result.now ≡ text_of self.now }
    {
        self.clean.text()
    }
}

impl Sink for MemSink {
    ghost use Rattle.std.specs.Prelude.{Some};
    ghost use Rattle.mc_outside.specs.MemSink.{text_of, bad_of, calls_of, faults_of};

    ghost text = { λ s. Some (text_of s) };

    ghost faults = { λ s. s.faults };

    /// It takes the whole piece, or it fails by its number, or it answers `NoMemory`. The number
    /// of the call after the last that a `u64` counts stays that one.
    fn write(&mut self, piece: &[u8]) -> Result<usize, SinkError>
        ensures took { IfOk result (λ n. n ≡ length piece.now) }
        ensures grown { IfOk result (λ n. text_of self.new ≡ text_of self.old ++ piece.now) }
        ensures refused { OnErr result (text_of self.new ≡ text_of self.old) }
        ensures cause { WriteCause (faults_of self.old) (faults_of self.new) result }
        ensures failed { (result
            ≡ Err SinkError.Failed) ↔ Contains (bad_of self.old) (calls_of self.old) }
        ensures faults { faults_of self.new ≡ faults_after_write result (faults_of self.old) }
        ensures calls { calls_of self.new ≡ counted (calls_of self.old) }
        ensures bad { bad_of self.new ≡ bad_of self.old }
    {
        let call = self.calls;
        self.calls = call.saturating_add(1);
        if self.bad.as_slice().contains(&call) {
            self.faults = self.faults.saturating_add(1);
            return Err(SinkError::Failed);
        }
        self.clean.write(piece)
    }
}
