ghost use Rattle.std.specs.Prelude.{◌≡◌, ◌+◌, ◌^◌, ◌<◌, ℕ, List, length, Option, IfOk};
ghost use Rattle.mc_outside.specs.Causes.{HasCause};
ghost use Rattle.mc_outside.specs.Shelf.{Files, Opened, Opens, OpenCause, Reads, ReadsFull, InBounds, content_of, OnlyReadsTo, OnlyOpens, AreShort, HoldBytes};

/// The number of an opened file. It is used only on the shelf that gave it.
#[derive(Clone, Copy, Debug, PartialEq, Eq)]
pub struct FileNo(pub u32);

/// Why a file was not opened.
#[derive(Clone, Copy, Debug, PartialEq, Eq)]
pub enum ShelfError {
    /// The shelf tells its files, and none has the name.
    NotFound,
    /// The device failed: the count of faults rose, or stands at its last value.
    Failed,
    /// A want of memory.
    NoMemory,
}

/// A read failed: the count of faults rose, or stands at its last value.
#[derive(Clone, Copy, Debug, PartialEq, Eq)]
pub struct Failed;

/// A read failed before its buffer was full: the count of faults rose, or stands at its last
/// value.
#[derive(Clone, Copy, Debug, PartialEq, Eq)]
pub struct ReadFault;

/// Files that are opened by name and read at any place.
///
/// No shelf gives an octet at or past place 2^63 - 1, and no told file is longer. A caller that
/// knows the shelf's files knows by its laws that they are octets.
pub trait Shelf {
    /// The octets under each name, where the shelf tells them. No call changes them.
    ghost files: { Self → Option Files };

    /// The name for which each number stands. An entry never changes or goes.
    ghost opened: { Self → Opened };

    /// How often a call failed: it never falls, and `fault_count` answers it.
    ghost faults: { Self → ℕ };

    /// How far reads have asked: it never falls, and a read of some octets from a place raises it
    /// at most to that place and their number. Only reads raise it.
    ghost reach: { Self → ℕ };

    /// Opens the file of that name. Where the files are told, they have it, and the number that
    /// is answered stands for it from now on.
    fn open_file(&mut self, name: &str) -> Result<FileNo, ShelfError>
        ensures opens { IfOk result (λ n. Opens (files self.new) (opened self.new) name.now n.0) }
        ensures cause { OpenCause (files self.old) name.now (faults self.old) (faults self.new)
            result }
        ensures kept { OnlyOpens files opened reach self.old self.new };

    /// Reads octets of an opened file into the front of `buf`, from offset `pos` on, and answers
    /// how many: at least one where any is left and `buf` is not empty, and 0 only at or past the
    /// end or where `buf` is empty. After `Failed` nothing is known of `buf`. It takes no memory.
    fn read_at(&mut self, file: FileNo, pos: u64, buf: &mut [u8]) -> Result<usize, Failed>
        ensures bounds { IfOk result (λ n. InBounds pos buf.new n) }
        ensures octets { IfOk result
            (λ n. Reads (content_of files opened self.old file.0) pos buf.new n) }
        ensures cause { HasCause (faults self.old) (faults self.new) result }
        ensures kept { OnlyReadsTo files opened reach self.old self.new (pos + length buf.old) };

    /// How often a call failed. It takes no memory.
    fn fault_count(&self) -> u64
        ensures { result ≡ faults self.now };

    /// No told file has more than 2^63 - 1 octets.
    ghost short: { (s : Self) → AreShort (files s) };

    /// What is told of a file is octets: numbers below 256.
    ghost octets: { (s : Self) → HoldBytes (files s) };
}

/// Fills `buf` with the octets of an opened file from offset `pos` on, or reads to the file's
/// end, and answers how many octets it read. `ReadFault` comes where a read failed; nothing is
/// known of `buf` then. It takes no memory.
pub fn read_full<S: Shelf>(
    shelf: &mut S,
    file: FileNo,
    pos: u64,
    buf: &mut [u8],
) -> Result<usize, ReadFault>
    requires { pos + length buf.old < 2 ^ 64 }
    ensures bounds { IfOk result (λ n. InBounds pos buf.new n) }
    ensures octets { IfOk result
        (λ n. ReadsFull (content_of S.files S.opened shelf.old file.0) pos buf.new n) }
    ensures cause { HasCause (S.faults shelf.old) (S.faults shelf.new) result }
    ensures kept { OnlyReadsTo S.files S.opened S.reach shelf.old shelf.new (pos + length buf.old) }
{
    let mut filled = 0usize;
    while filled < buf.len() {
        match shelf.read_at(file, pos + filled as u64, &mut buf[filled..]) {
            Ok(0) => break,
            Ok(count) => filled += count,
            Err(Failed) => return Err(ReadFault),
        }
    }
    Ok(filled)
}
