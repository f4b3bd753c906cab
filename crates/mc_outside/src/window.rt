ghost use Rattle.std.specs.Prelude.{◌≡◌, ◌≤◌, ◌<◌, ◌+◌, ◌-◌, ◌^◌, length, IfOk, IfSome};
ghost use Rattle.mc_outside.specs.Shelf.{InBounds};

use crate::shelf::FileNo;
use std::alloc::{AllocError, Global};
use std::io::{Error, ErrorKind, Read, Result as IoResult, Seek, SeekFrom};

/// The end of what is read of a file: no octet at or past this place is given.
pub(crate) const END: u64 = 0x7fff_ffff_ffff_ffff;

/// The octets that a window has room for.
const SIZE: usize = 65_536;

/// The octets that are asked for at a place that is far from what was read before.
const LEAST: usize = 4_096;

/// How far ahead of the last read a place is near.
const NEAR: u64 = 16_384;

/// The octets before the last read that stay in the window where a near place is asked for.
const MARGIN: u64 = 64;

/// A part of a file, kept in memory, so that reads of few octets need not ask the system.
///
/// A read that goes on where the window ends, or at a near place behind that, asks for twice as
/// many octets as the one before. For a near place the window begins where the last read was, so
/// that a look ahead and the way back to what was passed over cost one read of the system.
#[derive(Drop)]
pub(crate) struct Window {
    file: FileNo,
    start: u64,
    // Its first `filled` octets are those of the file from `start` on.
    octets: Vec<u8>,
    filled: usize,
    // How many octets were asked for last.
    size: usize,
    // From which place octets were given last.
    last: u64,
    ghost within: { filled ≤ length octets.items },
    ghost before_end: { start + filled ≤ 2 ^ 63 - 1 },
}

impl Window {
    /// A window that holds nothing and has no room yet.
    pub(crate) fn new(alloc: Global) -> Window {
        Window {
            file: FileNo(0),
            start: 0,
            octets: Vec::new(alloc),
            filled: 0,
            size: LEAST,
            last: 0,
        }
    }

    /// Makes its room, where it has none.
    pub(crate) fn make_room(&mut self) -> Result<(), AllocError> {
        if self.octets.is_empty() {
            let alloc = *self.octets.allocator();
            self.octets = vec![in alloc; 0u8; SIZE]?;
            self.filled = 0;
        }
        Ok(())
    }

    /// Whether a read of so many octets goes through the window.
    pub(crate) fn has_room_for(&self, count: usize) -> bool {
        count <= self.octets.len()
    }

    /// Copies what it holds of a file from a place on, as far as `buf` reaches.
    pub(crate) fn copy_to(&mut self, file: FileNo, pos: u64, buf: &mut [u8]) -> usize
        ensures { InBounds pos buf.new result }
    {
        let Some(skipped) = self.offset_of(file, pos) else {
            return 0;
        };
        let held = &self.octets[skipped..self.filled];
        let count = held.len().min(buf.len());
        buf[..count].copy_from_slice(&held[..count]);
        self.last = pos;
        count
    }

    // How many of its octets stand before that at a place of a file, where it holds that one.
    fn offset_of(&self, file: FileNo, pos: u64) -> Option<usize>
        ensures held { IfSome result (λ i. i < self.now.filled) }
        ensures place { IfSome result (λ i. self.now.start + i ≡ pos) }
    {
        if file != self.file {
            return None;
        }
        let offset = pos.checked_sub(self.start)?;
        if offset < self.filled as u64 {
            Some(offset as usize)
        } else {
            None
        }
    }

    /// Reads a part of a file, at least so many octets of it as are wanted from a place on, as far
    /// as one read of the system gives them. After an error it holds nothing.
    pub(crate) fn fill<F: Read + Seek>(
        &mut self,
        source: &mut F,
        file: FileNo,
        pos: u64,
        wanted: usize,
    ) -> IoResult<()>
        requires { pos < 2 ^ 63 - 1 }
    {
        let first = self.first_for(file, pos);
        let least = if first < pos || self.ends_at(file, pos) {
            self.size.saturating_mul(2)
        } else {
            LEAST
        };
        self.size = ((pos - first) as usize)
            .saturating_add(wanted)
            .max(least)
            .min(SIZE);
        self.read(source, file, first)?;
        if first < pos && self.offset_of(file, pos).is_none() {
            self.read(source, file, pos)?;
        }
        Ok(())
    }

    // Where the window begins that is to hold a place: at that place, or, where that is near behind
    // its end, at the last read and a margin before it.
    fn first_for(&self, file: FileNo, pos: u64) -> u64
        ensures { result ≤ pos }
    {
        let near = file == self.file && pos > self.start + self.filled as u64;
        match pos.checked_sub(self.last) {
            Some(gap) if near && gap <= NEAR => self.start.max(self.last.saturating_sub(MARGIN)),
            _ => pos,
        }
    }

    // Whether a read from a place on goes on where it ends.
    fn ends_at(&self, file: FileNo, pos: u64) -> bool {
        file == self.file && pos == self.start + self.filled as u64
    }

    // One read from a place on.
    fn read<F: Read + Seek>(&mut self, source: &mut F, file: FileNo, pos: u64) -> IoResult<()>
        requires { pos < 2 ^ 63 - 1 }
    {
        let asked = self.asked(pos);
        self.filled = 0;
        let count = read_from(source, pos, &mut self.octets[..asked])?;
        self.hold(file, pos, count);
        Ok(())
    }

    // How many octets a read from a place on asks for.
    fn asked(&self, pos: u64) -> usize
        requires { pos < 2 ^ 63 - 1 }
        ensures within { result ≤ length self.now.octets.items }
        ensures before_end { pos + result ≤ 2 ^ 63 - 1 }
    {
        let room = (END - pos) as usize;
        self.size.min(room).min(self.octets.len())
    }

    // Its first octets are those of a file from a place on.
    fn hold(&mut self, file: FileNo, pos: u64, count: usize)
        requires { pos + count ≤ 2 ^ 63 - 1 }
    {
        self.file = file;
        self.start = pos;
        self.filled = count.min(self.octets.len());
    }
}

/// One read from a place on. At or past the file's present end it reads nothing, also where the
/// system refuses the place.
pub(crate) fn read_from<F: Read + Seek>(source: &mut F, pos: u64, buf: &mut [u8]) -> IoResult<usize>
    ensures { IfOk result (λ n. n ≤ length buf.new) }
{
    match read_there(source, pos, buf) {
        Ok(count) => Ok(count),
        Err(refused) => if source.seek(SeekFrom::End(0))? <= pos {
            Ok(0)
        } else {
            Err(refused)
        },
    }
}

fn read_there<F: Read + Seek>(source: &mut F, pos: u64, buf: &mut [u8]) -> IoResult<usize>
    ensures { IfOk result (λ n. n ≤ length buf.new) }
{
    source.seek(SeekFrom::Start(pos))?;
    read_some(source, buf)
}

/// One read, begun again as often as it is interrupted.
pub(crate) fn read_some<R: Read>(reader: &mut R, buf: &mut [u8]) -> IoResult<usize>
    ensures { IfOk result (λ n. n ≤ length buf.new) }
{
    for _ in 0..u64::MAX {
        match reader.read(buf) {
            Err(e) if e.kind() == ErrorKind::Interrupted => {}
            answer => return answer,
        }
    }
    Err(Error::from(ErrorKind::Interrupted))
}
