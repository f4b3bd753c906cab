//! Files of no disk, to see what `FileShelf` makes of a system that refuses.
ghost use Rattle.std.specs.Prelude.{◌≡◌, ◌≤◌, length, IfOk};

use crate::drip::Fickle;
use std::alloc::Allocator;
use std::fs::{Metadata, OpenFile, OpenOptions};
use std::io::{self, ErrorKind, Read, Seek, SeekFrom, Write};
use std::rt::Files;

/// How a fake file of ten octets fails.
#[derive(Clone, Copy, Debug, PartialEq, Eq)]
pub enum Manner {
    /// It refuses a place from 2^44 on.
    Small,
    /// It refuses such a place, and won't tell its length.
    Deaf,
    /// No octet of it can be read.
    Broken,
    /// It has no octet left after the first read.
    Shrinking,
    /// It has no octet.
    Empty,
    /// A read of it is interrupted, gives two octets then, and none after that.
    Fickle,
}

const MANNERS: [(&str, Manner); 6] = [
    ("small", Manner::Small),
    ("deaf", Manner::Deaf),
    ("broken", Manner::Broken),
    ("shrinking", Manner::Shrinking),
    ("empty", Manner::Empty),
    ("fickle", Manner::Fickle),
];

const LARGEST: u64 = 0x1000_0000_0000;

/// Files by the names of their manners.
#[derive(Drop)]
pub struct FakeFiles;

/// One of them. Its octets are 1 to 10.
#[derive(Drop)]
pub struct FakeFile {
    manner: Manner,
    // Where the next read begins: each seek sets it.
    place: u64,
    // How many octets it has left: a read of a shrinking file takes them away.
    len: u64,
    fickle: Fickle,
}

fn refusal() -> io::Error {
    io::Error::from(ErrorKind::InvalidInput)
}

fn unsupported<T>() -> io::Result<T> {
    Err(io::Error::from(ErrorKind::Unsupported))
}

impl FakeFile {
    // The octets from its place on, as far as the buffer has room.
    fn give(&mut self, buf: &mut [u8]) -> usize
        ensures { result ≤ length buf.new }
    {
        let left = self.len.saturating_sub(self.place) as usize;
        let given = left.min(buf.len());
        for octet in buf[..given].iter_mut() {
            self.place = self.place.saturating_add(1);
            *octet = (self.place % 256) as u8;
        }
        given
    }
}

impl Read for FakeFile {
    fn read(&mut self, buf: &mut [u8]) -> io::Result<usize> {
        match self.manner {
            Manner::Broken => Err(refusal()),
            Manner::Fickle => self.fickle.step(buf.len()),
            Manner::Shrinking => {
                let given = self.give(buf);
                self.len = 0;
                Ok(given)
            }
            Manner::Small | Manner::Deaf | Manner::Empty => Ok(self.give(buf)),
        }
    }
}

impl Seek for FakeFile {
    fn seek(&mut self, to: SeekFrom) -> io::Result<u64> {
        match to {
            SeekFrom::Start(place) if place < LARGEST => {
                self.place = place;
                Ok(place)
            }
            SeekFrom::End(0) if self.manner != Manner::Deaf => {
                self.place = self.len;
                Ok(self.len)
            }
            _ => Err(refusal()),
        }
    }
}

impl Write for FakeFile {
    fn write(&mut self, _buf: &[u8]) -> io::Result<usize> {
        Err(refusal())
    }

    fn flush(&mut self) -> io::Result<()> {
        Err(refusal())
    }
}

impl OpenFile for FakeFile {
    fn metadata(&self) -> io::Result<Metadata> {
        unsupported()
    }

    fn set_len(&self, _size: u64) -> io::Result<()> {
        unsupported()
    }

    fn sync_all(&self) -> io::Result<()> {
        unsupported()
    }

    fn sync_data(&self) -> io::Result<()> {
        unsupported()
    }
}

impl Files for FakeFiles {
    type File = FakeFile;

    type Dir = io::Empty;

    fn open_file(&self, _how: &OpenOptions, path: &str) -> io::Result<FakeFile> {
        for (name, manner) in &MANNERS {
            if *name == path {
                return Ok(FakeFile {
                    manner: *manner,
                    place: 0,
                    len: if *manner == Manner::Empty { 0 } else { 10 },
                    fickle: Fickle(0),
                });
            }
        }
        Err(io::Error::from(ErrorKind::NotFound))
    }

    fn open_dir(&self, _path: &str) -> io::Result<io::Empty> {
        unsupported()
    }

    fn metadata(&self, _path: &str) -> io::Result<Metadata> {
        unsupported()
    }

    fn symlink_metadata(&self, _path: &str) -> io::Result<Metadata> {
        unsupported()
    }

    fn copy(&self, _from: &str, _to: &str) -> io::Result<u64> {
        unsupported()
    }

    fn rename(&self, _from: &str, _to: &str) -> io::Result<()> {
        unsupported()
    }

    fn remove_file(&self, _path: &str) -> io::Result<()> {
        unsupported()
    }

    fn create_dir(&self, _path: &str) -> io::Result<()> {
        unsupported()
    }

    fn remove_dir(&self, _path: &str) -> io::Result<()> {
        unsupported()
    }

    fn remove_dir_all<B: Allocator>(&self, _alloc: B, _path: &str) -> io::Result<()> {
        unsupported()
    }
}
