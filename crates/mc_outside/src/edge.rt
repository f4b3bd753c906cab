ghost use Rattle.std.specs.Prelude.{None, ◌≡◌, ◌≤◌, ◌<◌, length, IfOk, IfErr, IfSome};
ghost use Rattle.mc_outside.specs.Causes.{HasCause};
ghost use Rattle.mc_outside.specs.Shelf.{InBounds, KeepsOpen, OpenCause, Opens, faults_after_open, faults_after_read};
ghost use Rattle.mc_outside.specs.Sink.{Took, WriteCause, faults_after_write};

use crate::shelf::{Failed, FileNo, Shelf, ShelfError};
use crate::sink::{Sink, SinkError};
use crate::window::{END, Window, read_from};
use std::alloc::Global;
use std::fs;
use std::io::{Error, ErrorKind, Result as IoResult, Write};
use std::rt::Files;

/// The files of the system, by their paths. It tells no content, and is trusted to give that of
/// the files. Each call that the system refuses counts a fault, as far as a `u64` counts.
///
/// At or past a file's present end it reads nothing, wherever that is, also where the file system
/// refuses so large a place. So a read fails only where the length cannot be asked, or where a
/// place below it cannot be read.
///
/// It keeps a window of 65,536 octets of the file that was read last, so that reads of few octets
/// seldom ask the system, also where they look a little ahead and come back. A read of more octets
/// than that goes straight into its buffer.
#[derive(Drop)]
pub struct FileShelf<'a, R: Files> {
    rt: &'a R,
    // The opened files: each stands at the place that is its number, and none is closed.
    files: Vec<R::File>,
    // What was read last. It has room from the first opening on.
    window: Window,
    // How many calls the system refused.
    faults: u64,
}

impl<'a, R: Files> FileShelf<'a, R> {
    /// A shelf on which no file is open yet. It takes memory as files are opened, for its window
    /// at the first.
    pub fn new(rt: &'a R, alloc: Global) -> FileShelf<'a, R>
        ensures { ⟦<FileShelf<'a, R> as Shelf>⟧.faults result ≡ 0 }
    {
        FileShelf {
            rt,
            files: Vec::new(alloc),
            window: Window::new(alloc),
            faults: 0,
        }
    }

    fn open(&mut self, name: &str) -> Result<FileNo, ShelfError>
        ensures cause { OpenCause None name.now self.old.faults self.new.faults result }
        ensures faults { self.new.faults ≡ faults_after_open result self.old.faults }
        ensures number { IfOk result (λ n. n.0 ≡ length self.old.files.items) }
    {
        if self.window.make_room().is_err() {
            return Err(ShelfError::NoMemory);
        }
        let number = u32::try_from(self.files.len());
        match (number, fs::open(self.rt, name)) {
            (Ok(number), Ok(file)) => match self.files.push(file) {
                Ok(()) => Ok(FileNo(number)),
                Err(_) => Err(ShelfError::NoMemory),
            },
            _ => {
                self.faults = self.faults.saturating_add(1);
                Err(ShelfError::Failed)
            }
        }
    }

    fn read(&mut self, file: FileNo, pos: u64, buf: &mut [u8]) -> Result<usize, Failed>
        ensures bounds { IfOk result (λ n. InBounds pos buf.new n) }
        ensures cause { HasCause self.old.faults self.new.faults result }
        ensures faults { self.new.faults ≡ faults_after_read result self.old.faults }
    {
        match self.part(file, pos, buf) {
            Some(count) => Ok(count),
            None => {
                self.faults = self.faults.saturating_add(1);
                Err(Failed)
            }
        }
    }

    // Reads some octets of an opened file. None: the system refused, at a place that the file has.
    fn part(&mut self, number: FileNo, pos: u64, buf: &mut [u8]) -> Option<usize>
        ensures bounds { IfSome result (λ n. InBounds pos buf.new n) }
        ensures faults { self.new.faults ≡ self.old.faults }
    {
        let file = self.files.get_mut(number.0 as usize)?;
        if pos >= END {
            return Some(0);
        }
        let held = self.window.copy_to(number, pos, buf);
        if held > 0 || buf.is_empty() {
            return Some(held);
        }
        if self.window.has_room_for(buf.len()) {
            self.window.fill(file, number, pos, buf.len()).ok()?;
            return Some(self.window.copy_to(number, pos, buf));
        }
        let count = buf.len().min((END - pos) as usize);
        read_from(file, pos, &mut buf[..count]).ok()
    }
}

impl<'a, R: Files> Shelf for FileShelf<'a, R> {
    ghost files = { λ s. None };

    ghost opened = { λ s k. None };

    ghost faults = { λ s. s.faults };

    ghost reach = { λ s. 0 };

    ghost short = { λ s. tt };

    ghost octets = { λ s. tt };

    /// Opens a path for reading. It never answers `NotFound`: a path that cannot be opened is a
    /// fault.
    fn open_file(&mut self, name: &str) -> Result<FileNo, ShelfError>
        ensures opens { IfOk result (λ n. Opens None (λ k. None) name.now n.0) }
        ensures cause { OpenCause None name.now self.old.faults self.new.faults result }
        ensures kept { KeepsOpen None None (λ k. None) (λ k. None) 0 0 }
        ensures number { IfOk result (λ n. n.0 ≡ length self.old.files.items) }
    {
        self.open(name)
    }

    /// What the window holds from there on, or else one read of the system, begun again where it is
    /// interrupted. A number that this shelf did not give is a fault.
    fn read_at(&mut self, file: FileNo, pos: u64, buf: &mut [u8]) -> Result<usize, Failed> {
        self.read(file, pos, buf)
    }

    fn fault_count(&self) -> u64 {
        self.faults
    }
}

/// A writer of the system, such as standard output. It tells no text, and is trusted to write
/// what it takes: a writer with a buffer of its own is to be flushed after the last write. Each
/// write that fails, or takes nothing of a piece that is not empty, counts a fault, as far as a
/// `u64` counts.
#[derive(Drop)]
pub struct StdSink<W: Write> {
    out: W,
    // How many writes failed or took nothing.
    faults: u64,
}

impl<W: Write> StdSink<W> {
    /// A sink over this writer. It takes no memory.
    pub fn new(out: W) -> StdSink<W>
        ensures { ⟦<StdSink<W> as Sink>⟧.faults result ≡ 0 }
    {
        StdSink { out, faults: 0 }
    }
}

// One write, begun again as often as it is interrupted.
fn write_some<W: Write>(writer: &mut W, piece: &[u8]) -> IoResult<usize>
    ensures { IfOk result (λ n. n ≤ length piece.now) }
{
    for _ in 0..u64::MAX {
        match writer.write(piece) {
            Err(e) if e.kind() == ErrorKind::Interrupted => {}
            answer => return answer,
        }
    }
    Err(Error::from(ErrorKind::Interrupted))
}

impl<W: Write> Sink for StdSink<W> {
    ghost text = { λ s. None };

    ghost faults = { λ s. s.faults };

    /// One write to the system, begun again where it is interrupted. It takes no memory.
    fn write(&mut self, piece: &[u8]) -> Result<usize, SinkError>
        ensures took { IfOk result (λ n. Took piece.now n) }
        ensures cause { WriteCause self.old.faults self.new.faults result }
        ensures faults { self.new.faults ≡ faults_after_write result self.old.faults }
        ensures device { IfErr result (λ e. e ≡ SinkError.Failed) }
    {
        match write_some(&mut self.out, piece) {
            Ok(count) if count > 0 || piece.is_empty() => Ok(count),
            _ => {
                self.faults = self.faults.saturating_add(1);
                Err(SinkError::Failed)
            }
        }
    }
}
