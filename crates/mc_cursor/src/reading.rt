ghost use Rattle.std.specs.Prelude.{◌≡◌, ◌+◌, ◌-◌, ◌^◌, ◌<◌, ◌≤◌, if◌then◌else◌, length, take, true, Option, Some, None, IfOk, IfSome, IsTrue};
ghost use Rattle.mc_ebml.specs.Element.{head_at};
ghost use Rattle.mc_outside.specs.Causes.{HasCause};
ghost use Rattle.mc_outside.specs.Shelf.{OnlyReadsTo};
ghost use Rattle.mc_cursor.specs.Causes.{ReadCause};
ghost use Rattle.mc_cursor.specs.Reads.{InFile, found_in, found_at, Lies, ends_before, part_of};

use crate::error::CursorError;
use bytes::Bytes;
use mc_ebml::{EbmlError, Head, read_head};
use mc_outside::{FileNo, ReadFault, Shelf, read_full};
use mc_packet::FILM_LIMIT;
use std::alloc::Global;

/// What stands at a place of a film.
#[derive(Clone, Copy, Debug, PartialEq, Eq)]
pub(crate) enum Found {
    /// The film's end.
    End,
    /// An element with a good head, whose body begins at the film's offset `body`.
    Element(Head),
    /// A head that is cut or bad.
    Bad(EbmlError),
}

// The most octets of a body that is given memory before its last octet is looked at.
const UNSEEN: u64 = 4_096;

// What the octets from a place on begin with.
fn found_in_front(front: &[u8], place: u64) -> Found
    requires { place + length front.now < 2 ^ 63 }
    ensures value { result ≡ found_in front.now place }
    ensures bounds { Lies place result }
{
    if front.is_empty() {
        return Found::End;
    }
    match read_head(front, 0) {
        Ok(head) => Found::Element(Head {
            id: head.id,
            size: head.size,
            body: place as usize + head.body,
        }),
        Err(e) => Found::Bad(e),
    }
}

/// What stands at a place of a film. It reads the 12 octets from there on, which hold a head.
pub(crate) fn read_found<S: Shelf>(
    shelf: &mut S,
    file: FileNo,
    place: u64,
) -> Result<Found, ReadFault>
    ensures value { IfOk result (λ x. InFile S.files S.opened shelf.old file.0
        (λ octets. place ≤ length octets → x ≡ found_at octets place)) }
    ensures bounds { IfOk result (Lies place) }
    ensures cause { HasCause (S.faults shelf.old) (S.faults shelf.new) result }
    ensures kept { OnlyReadsTo S.files S.opened S.reach shelf.old shelf.new (place + 12) }
{
    if place >= FILM_LIMIT {
        return Ok(Found::End);
    }
    let mut front = [0u8; 12];
    let count = read_full(shelf, file, place, &mut front)?;
    Ok(found_in_front(&front[..count], place))
}

/// Whether a film, which reaches up to `at`, ends before `stop`. It reads the last octet before
/// `stop`, and none where `stop` is `at`.
pub(crate) fn read_ends_before<S: Shelf>(
    shelf: &mut S,
    file: FileNo,
    at: u64,
    stop: u64,
) -> Result<bool, ReadFault>
    requires { at ≤ stop }
    ensures value { IfOk result (λ b. InFile S.files S.opened shelf.old file.0
        (λ octets. at ≤ length octets → b ≡ ends_before octets stop)) }
    ensures cause { HasCause (S.faults shelf.old) (S.faults shelf.new) result }
    ensures kept { OnlyReadsTo S.files S.opened S.reach shelf.old shelf.new stop }
{
    if at == stop {
        return Ok(false);
    }
    let mut last = [0u8; 1];
    Ok(read_full(shelf, file, stop - 1, &mut last)? == 0)
}

/// Fills `buf` with the octets of a film from `at` on, up to which it reaches, and tells whether the
/// film has so many. It takes no memory.
pub(crate) fn read_whole<S: Shelf>(
    shelf: &mut S,
    file: FileNo,
    at: u64,
    buf: &mut [u8],
) -> Result<bool, ReadFault>
    requires { at + length buf.old < 2 ^ 64 }
    ensures value { IfOk result (λ whole. InFile S.files S.opened shelf.old file.0
        (λ octets. at ≤ length octets → (if whole then Some buf.new else None)
        ≡ part_of octets at (at + length buf.old))) }
    ensures cause { HasCause (S.faults shelf.old) (S.faults shelf.new) result }
    ensures kept { OnlyReadsTo S.files S.opened S.reach shelf.old shelf.new (at + length buf.old) }
{
    let size = buf.len();
    Ok(read_full(shelf, file, at, buf)? == size)
}

/// Whether a body from `at`, up to which a film reaches, is large and runs past the film. One of at
/// most 4,096 octets is not looked at.
pub(crate) fn read_lacks<S: Shelf>(
    shelf: &mut S,
    file: FileNo,
    at: u64,
    stop: u64,
) -> Result<bool, ReadFault>
    requires { at ≤ stop }
    ensures value { IfOk result (λ b. InFile S.files S.opened shelf.old file.0
        (λ octets. at ≤ length octets → b ≡ true → ends_before octets stop ≡ true)) }
    ensures large { IfOk result (λ b. b ≡ true → at + 4096 < stop) }
    ensures cause { HasCause (S.faults shelf.old) (S.faults shelf.new) result }
    ensures kept { OnlyReadsTo S.files S.opened S.reach shelf.old shelf.new stop }
{
    if stop - at > UNSEEN {
        read_ends_before(shelf, file, at, stop)
    } else {
        Ok(false)
    }
}

/// The octets of a film from `at`, up to which it reaches, to `stop`; `None` where it does not
/// reach so far. More than 4,096 octets are given memory only where the film has the last of them.
pub(crate) fn read_part<S: Shelf>(
    alloc: Global,
    shelf: &mut S,
    file: FileNo,
    at: u64,
    stop: u64,
) -> Result<Option<Bytes>, CursorError>
    requires { at ≤ stop }
    ensures value { IfOk result (λ b. InFile S.files S.opened shelf.old file.0
        (λ octets. at ≤ length octets → b ≡ part_of octets at stop)) }
    ensures size { IfOk result (λ b. IfSome b (λ body. at + length body ≡ stop)) }
    ensures cause { ReadCause (S.faults shelf.old) (S.faults shelf.new) result }
    ensures kept { OnlyReadsTo S.files S.opened S.reach shelf.old shelf.new stop }
{
    if read_lacks(shelf, file, at, stop)? {
        return Ok(None);
    }
    read_body(alloc, shelf, file, at, stop)
}

// The same, with memory for it all at once.
fn read_body<S: Shelf>(
    alloc: Global,
    shelf: &mut S,
    file: FileNo,
    at: u64,
    stop: u64,
) -> Result<Option<Bytes>, CursorError>
    requires { at ≤ stop }
    ensures value { IfOk result (λ b. InFile S.files S.opened shelf.old file.0
        (λ octets. at ≤ length octets → b ≡ part_of octets at stop)) }
    ensures size { IfOk result (λ b. IfSome b (λ body. at + length body ≡ stop)) }
    ensures cause { ReadCause (S.faults shelf.old) (S.faults shelf.new) result }
    ensures kept { OnlyReadsTo S.files S.opened S.reach shelf.old shelf.new stop }
{
    let size = (stop - at) as usize;
    let mut body = vec![in alloc; 0u8; size]?;
    if !read_whole(shelf, file, at, body.as_mut_slice())? {
        return Ok(None);
    }
    Ok(Some(Bytes::from_vec(body)?))
}

/// The first octets of a film, at most so many.
pub(crate) fn read_front<S: Shelf>(
    alloc: Global,
    shelf: &mut S,
    file: FileNo,
    size: u64,
) -> Result<Vec<u8>, CursorError>
    ensures value { IfOk result (λ v. InFile S.files S.opened shelf.old file.0
        (λ octets. v.items ≡ take size octets)) }
    ensures cause { ReadCause (S.faults shelf.old) (S.faults shelf.new) result }
    ensures kept { OnlyReadsTo S.files S.opened S.reach shelf.old shelf.new size }
{
    let mut front = vec![in alloc; 0u8; size as usize]?;
    let count = read_full(shelf, file, 0, front.as_mut_slice())?;
    front.truncate(count);
    Ok(front)
}
