ghost use Rattle.std.specs.Prelude.{◌≡◌, ◌≢◌, ◌+◌, ◌-◌, ◌^◌, ◌<◌, ◌≤◌, max, length, slice_range, Option, Some, None, Ok, IsErrOf, IfOk, IfSome};
ghost use Rattle.mc_outside.specs.Causes.{HasCause};
ghost use Rattle.mc_ebml.specs.Whole.{element_at, whole_element};
ghost use Rattle.mc_cursor.specs.declared.reading.Found.TheVariants as found;
ghost use Rattle.mc_tracks.specs.Header.{ebml_header_of, info_of, tracks_of};
ghost use Rattle.mc_tracks.specs.TrackList.{IsTrackList};
ghost use Rattle.mc_walk.specs.Opening.{segment_of, segment_child, first_child, info_in, tracks_in, info_then_tracks, tracks_then_info, header_by, header_of};
ghost use Rattle.mc_walk.specs.Parts.{opening_mark};
ghost use Rattle.mc_walk.specs.Walk.{stands_at};
ghost use Rattle.mc_cursor.specs.Standing.{mark_of, file_of};
ghost use Rattle.mc_cursor.specs.Causes.{OnlyReads};
ghost use Rattle.mc_cursor.specs.Reads.{InFile, Lies, found_at};
ghost use Rattle.mc_cursor.specs.Begins.{BeginCause, Begins, Gives, header_span, stop_of, FoundIn, head_in, whole_found, stop_by, header_end, segment_for, ReadsUnder};

use crate::cursor::Cursor;
use crate::error::OpenError;
use crate::reading::{Found, read_ends_before, read_found, read_front, read_lacks, read_part};
use mc_ebml::{Head, Size, WholeElement, ids};
use mc_outside::{FileNo, ReadFault, Shelf};
use mc_packet::{LARGEST_HEADER, Level, Mark};
use mc_tracks::{Refused, TrackList, parse_ebml_header, parse_info, parse_tracks};
use mc_walk::{Header, Segment, body_end, child_before_cluster};
use std::alloc::Global;

// How many octets tell whether a film begins with an EBML header, and what it says.
fn header_size(found: Found) -> u64
    requires { Lies 0 found }
    ensures { result ≡ header_span found }
{
    match found {
        Found::Element(head) if head.id == ids::EBML_HEADER => {
            let stop = match head.size {
                Size::Known(size) => head.body as u64 + size,
                Size::Unknown => head.body as u64,
            };
            stop.max(12)
        }
        _ => 12,
    }
}

fn header_in(front: &[u8]) -> Result<usize, OpenError>
    ensures value { Gives result (ebml_header_of front.now) }
    ensures within { IfOk result (λ n. n ≤ length front.now) }
    ensures pure { ¬ IsErrOf result OpenError.ReadFault }
{
    Ok(parse_ebml_header(front)?)
}

/// The offset behind the EBML header. A large one is given memory only where the film has its last
/// octet.
pub(crate) fn read_ebml_header<S: Shelf>(
    alloc: Global,
    shelf: &mut S,
    file: FileNo,
) -> Result<usize, OpenError>
    ensures value { InFile S.files S.opened shelf.old file.0
        (λ octets. Gives result (ebml_header_of octets)) }
    ensures within { InFile S.files S.opened shelf.old file.0
        (λ octets. IfOk result (λ n. n ≤ length octets)) }
    ensures near { IfOk result (λ n. InFile S.files S.opened shelf.old file.0
        (λ octets. S.reach shelf.new ≤ max (S.reach shelf.old) (max 12 n))) }
    ensures cause { BeginCause (S.faults shelf.old) (S.faults shelf.new) result }
    ensures kept { OnlyReads S.files S.opened S.reach shelf.old shelf.new }
{
    let found = read_found(shelf, file, 0)?;
    let size = header_size(found);
    if read_lacks(shelf, file, 0, size)? {
        return Err(OpenError::Refused(Refused::NotEbml));
    }
    let front = read_front(alloc, shelf, file, size)?;
    header_in(front.as_slice())
}

// The element at a place whose head was read, where its size is known and the film reaches so far.
fn read_whole<S: Shelf>(
    shelf: &mut S,
    file: FileNo,
    place: u64,
    head: Head,
) -> Result<Option<WholeElement>, ReadFault>
    requires { Lies place (found.Element head) }
    ensures value { IfOk result (λ c. InFile S.files S.opened shelf.old file.0
        (λ octets. head.body ≤ length octets → c ≡ whole_element (length octets) place (Ok head))) }
    ensures order { IfOk result (λ c. IfSome c
        (λ x. (x.place ≡ place) × (place < x.at) × (x.at ≤ x.stop))) }
    ensures near { IfOk result (λ c. IfSome c
        (λ x. S.reach shelf.new ≤ max (S.reach shelf.old) x.stop)) }
    ensures cause { HasCause (S.faults shelf.old) (S.faults shelf.new) result }
    ensures kept { OnlyReads S.files S.opened S.reach shelf.old shelf.new }
{
    let Some(stop) = body_end(head.body, head.size) else {
        return Ok(None);
    };
    if read_ends_before(shelf, file, head.body as u64, stop)? {
        return Ok(None);
    }
    Ok(Some(WholeElement {
        id: head.id,
        place: place as usize,
        at: head.body,
        stop: stop as usize,
    }))
}

// What stands at a place, as an element of the film.
fn read_element_at<S: Shelf>(
    shelf: &mut S,
    file: FileNo,
    place: u64,
    found: Found,
) -> Result<Option<WholeElement>, ReadFault>
    requires { Lies place found }
    ensures value { IfOk result (λ c. InFile S.files S.opened shelf.old file.0
        (λ octets. FoundIn (length octets) found → c ≡ whole_found (length octets) place found)) }
    ensures order { IfOk result (λ c. IfSome c
        (λ x. (x.place ≡ place) × (place < x.at) × (x.at ≤ x.stop))) }
    ensures near { IfOk result (λ c. IfSome c
        (λ x. S.reach shelf.new ≤ max (S.reach shelf.old) x.stop)) }
    ensures cause { HasCause (S.faults shelf.old) (S.faults shelf.new) result }
    ensures kept { OnlyReads S.files S.opened S.reach shelf.old shelf.new }
{
    match found {
        Found::Element(head) => read_whole(shelf, file, place, head),
        Found::End | Found::Bad(_) => Ok(None),
    }
}

fn head_found(found: Found) -> Option<Head>
    ensures { result ≡ head_in found }
{
    match found {
        Found::Element(head) => Some(head),
        Found::End | Found::Bad(_) => None,
    }
}

/// The first Segment from a place on, behind elements that stand whole.
pub(crate) fn find_segment<S: Shelf>(
    shelf: &mut S,
    file: FileNo,
    from: u64,
) -> Result<Segment, OpenError>
    // the Segment
    ensures value { InFile S.files S.opened shelf.old file.0
        (λ octets. from ≤ length octets → Gives result (segment_of octets from)) }
    ensures within { InFile S.files S.opened shelf.old file.0
        (λ octets. from ≤ length octets → IfOk result (λ s. s.opening ≤ length octets)) }
    ensures behind { IfOk result (λ s. 0 < s.opening) }
    ensures onward { IfOk result (λ s. from < s.opening) }
    // what is asked of the shelf
    ensures near { IfOk result (λ s. S.reach shelf.new ≤ max (S.reach shelf.old) (s.opening + 12)) }
    ensures cause { BeginCause (S.faults shelf.old) (S.faults shelf.new) result }
    ensures kept { OnlyReads S.files S.opened S.reach shelf.old shelf.new }
{
    let mut place = from;
    loop {
        let found = read_found(shelf, file, place)?;
        let Some(head) = head_found(found) else {
            return Err(OpenError::Refused(Refused::NoSegment));
        };
        if head.id == ids::SEGMENT {
            return Ok(Segment {
                opening: head.body as u64,
                end: body_end(head.body, head.size),
            });
        }
        match read_element_at(shelf, file, place, found)? {
            Some(element) => place = element.stop as u64,
            None => return Err(OpenError::Refused(Refused::NoSegment)),
        }
    }
}

fn is_end(end: Option<u64>, place: u64) -> bool
    ensures { result ≡ stands_at end place }
{
    match end {
        Some(end) => end == place,
        None => false,
    }
}

// The child of the Segment at a place: no Cluster, and whole in the film and in the Segment.
fn read_segment_child<S: Shelf>(
    shelf: &mut S,
    file: FileNo,
    end: Option<u64>,
    place: u64,
) -> Result<Option<WholeElement>, ReadFault>
    ensures value { IfOk result (λ c. InFile S.files S.opened shelf.old file.0
        (λ octets. place ≤ length octets → c ≡ segment_child octets end place)) }
    ensures order { IfOk result (λ c. IfSome c
        (λ x. (x.place ≡ place) × (place < x.at) × (x.at ≤ x.stop))) }
    ensures near { IfOk result (ReadsUnder (S.reach shelf.old) (S.reach shelf.new)) }
    ensures cause { HasCause (S.faults shelf.old) (S.faults shelf.new) result }
    ensures kept { OnlyReads S.files S.opened S.reach shelf.old shelf.new }
{
    if is_end(end, place) {
        return Ok(None);
    }
    let found = read_found(shelf, file, place)?;
    let child = read_element_at(shelf, file, place, found)?;
    Ok(child_before_cluster(end, child))
}

// The first child of this ID before the first Cluster.
fn find_first<S: Shelf>(
    shelf: &mut S,
    file: FileNo,
    segment: Segment,
    id: u32,
) -> Result<Option<WholeElement>, ReadFault>
    ensures value { IfOk result (λ c. InFile S.files S.opened shelf.old file.0
        (λ octets. segment.opening ≤ length octets → c ≡ first_child octets segment id)) }
    ensures order { IfOk result (λ c. IfSome c (λ x. (x.place < x.at) × (x.at ≤ x.stop))) }
    ensures onward { IfOk result (λ c. IfSome c (λ x. segment.opening < x.stop)) }
    ensures near { IfOk result (ReadsUnder (S.reach shelf.old) (S.reach shelf.new)) }
    ensures cause { HasCause (S.faults shelf.old) (S.faults shelf.new) result }
    ensures kept { OnlyReads S.files S.opened S.reach shelf.old shelf.new }
{
    let mut place = segment.opening;
    loop {
        let Some(child) = read_segment_child(shelf, file, segment.end, place)? else {
            return Ok(None);
        };
        if child.id == id {
            return Ok(Some(child));
        }
        place = child.stop as u64;
    }
}

fn info_from(body: &[u8], at: u64) -> Result<u64, OpenError>
    requires { at + length body.now < 2 ^ 64 }
    ensures value { Gives result (info_of body.now at) }
    ensures positive { IfOk result (λ scale. 0 < scale) }
    ensures pure { ¬ IsErrOf result OpenError.ReadFault }
{
    Ok(parse_info(body, at)?)
}

fn tracks_from(alloc: Global, body: &[u8], at: u64) -> Result<TrackList, OpenError>
    requires { at + length body.now < 2 ^ 64 }
    ensures value { Gives result (tracks_of body.now at) }
    ensures listed { IfOk result IsTrackList }
    ensures pure { ¬ IsErrOf result OpenError.ReadFault }
{
    Ok(parse_tracks(alloc, body, at)?)
}

fn read_info<S: Shelf>(
    alloc: Global,
    shelf: &mut S,
    file: FileNo,
    child: WholeElement,
) -> Result<u64, OpenError>
    requires { child.at ≤ child.stop }
    ensures value { InFile S.files S.opened shelf.old file.0
        (λ octets. child.stop ≤ length octets → Gives result (info_in octets child)) }
    ensures positive { IfOk result (λ scale. 0 < scale) }
    ensures near { S.reach shelf.new ≤ max (S.reach shelf.old) child.stop }
    ensures cause { BeginCause (S.faults shelf.old) (S.faults shelf.new) result }
    ensures kept { OnlyReads S.files S.opened S.reach shelf.old shelf.new }
{
    let broken = OpenError::Refused(Refused::Broken(child.place as u64));
    if (child.stop - child.at) as u64 > LARGEST_HEADER {
        return Err(broken);
    }
    match read_part(alloc, shelf, file, child.at as u64, child.stop as u64)? {
        Some(body) => info_from(body.as_slice(), child.at as u64),
        None => Err(broken),
    }
}

fn read_tracks<S: Shelf>(
    alloc: Global,
    shelf: &mut S,
    file: FileNo,
    child: WholeElement,
) -> Result<TrackList, OpenError>
    requires { child.at ≤ child.stop }
    ensures value { InFile S.files S.opened shelf.old file.0
        (λ octets. child.stop ≤ length octets → Gives result (tracks_in octets child)) }
    ensures listed { IfOk result IsTrackList }
    ensures near { S.reach shelf.new ≤ max (S.reach shelf.old) child.stop }
    ensures cause { BeginCause (S.faults shelf.old) (S.faults shelf.new) result }
    ensures kept { OnlyReads S.files S.opened S.reach shelf.old shelf.new }
{
    let broken = OpenError::Refused(Refused::Broken(child.place as u64));
    if (child.stop - child.at) as u64 > LARGEST_HEADER {
        return Err(broken);
    }
    match read_part(alloc, shelf, file, child.at as u64, child.stop as u64)? {
        Some(body) => tracks_from(alloc, body.as_slice(), child.at as u64),
        None => Err(broken),
    }
}

// Info stands before Tracks.
fn read_info_first<S: Shelf>(
    alloc: Global,
    shelf: &mut S,
    file: FileNo,
    info: WholeElement,
    tracks: WholeElement,
) -> Result<Header, OpenError>
    requires info { info.at ≤ info.stop }
    requires tracks { tracks.at ≤ tracks.stop }
    ensures value { InFile S.files S.opened shelf.old file.0
        (λ octets. info.stop ≤ length octets → tracks.stop ≤ length octets
        → Gives result (info_then_tracks octets info tracks)) }
    ensures positive { IfOk result (λ h. 0 < h.scale) }
    ensures listed { IfOk result (λ h. IsTrackList h.tracks) }
    ensures near { S.reach shelf.new ≤ max (S.reach shelf.old) (max info.stop tracks.stop) }
    ensures cause { BeginCause (S.faults shelf.old) (S.faults shelf.new) result }
    ensures kept { OnlyReads S.files S.opened S.reach shelf.old shelf.new }
{
    let scale = read_info(alloc, shelf, file, info)?;
    let tracks = read_tracks(alloc, shelf, file, tracks)?;
    Ok(Header { scale, tracks })
}

// Tracks stands before Info.
fn read_tracks_first<S: Shelf>(
    alloc: Global,
    shelf: &mut S,
    file: FileNo,
    info: WholeElement,
    tracks: WholeElement,
) -> Result<Header, OpenError>
    requires info { info.at ≤ info.stop }
    requires tracks { tracks.at ≤ tracks.stop }
    ensures value { InFile S.files S.opened shelf.old file.0
        (λ octets. info.stop ≤ length octets → tracks.stop ≤ length octets
        → Gives result (tracks_then_info octets info tracks)) }
    ensures positive { IfOk result (λ h. 0 < h.scale) }
    ensures listed { IfOk result (λ h. IsTrackList h.tracks) }
    ensures near { S.reach shelf.new ≤ max (S.reach shelf.old) (max info.stop tracks.stop) }
    ensures cause { BeginCause (S.faults shelf.old) (S.faults shelf.new) result }
    ensures kept { OnlyReads S.files S.opened S.reach shelf.old shelf.new }
{
    let tracks = read_tracks(alloc, shelf, file, tracks)?;
    let scale = read_info(alloc, shelf, file, info)?;
    Ok(Header { scale, tracks })
}

// Info and Tracks, where they were found.
fn read_found_header<S: Shelf>(
    alloc: Global,
    shelf: &mut S,
    file: FileNo,
    info: Option<WholeElement>,
    tracks: Option<WholeElement>,
) -> Result<Header, OpenError>
    requires info { IfSome info (λ c. c.at ≤ c.stop) }
    requires tracks { IfSome tracks (λ c. c.at ≤ c.stop) }
    ensures value { InFile S.files S.opened shelf.old file.0
        (λ octets. IfSome info (λ c. c.stop ≤ length octets)
        → IfSome tracks (λ c. c.stop ≤ length octets)
        → Gives result (header_by octets info tracks)) }
    ensures positive { IfOk result (λ h. 0 < h.scale) }
    ensures listed { IfOk result (λ h. IsTrackList h.tracks) }
    ensures found { IfOk result (λ h. (info ≢ None) × (tracks ≢ None)) }
    ensures near { IfOk result
        (λ h. S.reach shelf.new ≤ max (S.reach shelf.old) (max (stop_by info) (stop_by tracks))) }
    ensures cause { BeginCause (S.faults shelf.old) (S.faults shelf.new) result }
    ensures kept { OnlyReads S.files S.opened S.reach shelf.old shelf.new }
{
    match (info, tracks) {
        (Some(info), Some(tracks)) => {
            if info.place < tracks.place {
                read_info_first(alloc, shelf, file, info, tracks)
            } else {
                read_tracks_first(alloc, shelf, file, info, tracks)
            }
        }
        (Some(info), None) => {
            read_info(alloc, shelf, file, info)?;
            Err(OpenError::Refused(Refused::NoTracks))
        }
        (None, tracks) => {
            if let Some(tracks) = tracks {
                read_tracks(alloc, shelf, file, tracks)?;
            }
            Err(OpenError::Refused(Refused::NoInfo))
        }
    }
}

/// Info and Tracks, which have to stand before the first Cluster.
#[tactic(auto, unfolding(mc_walk::specs::Opening::header_of))]
pub(crate) fn read_header<S: Shelf>(
    alloc: Global,
    shelf: &mut S,
    file: FileNo,
    segment: Segment,
) -> Result<Header, OpenError>
    ensures value { InFile S.files S.opened shelf.old file.0
        (λ octets. segment.opening ≤ length octets → Gives result (header_of octets segment)) }
    ensures positive { IfOk result (λ h. 0 < h.scale) }
    ensures listed { IfOk result (λ h. IsTrackList h.tracks) }
    ensures near { IfOk result (λ h. InFile S.files S.opened shelf.old file.0
        (λ octets. segment.opening ≤ length octets
        → (S.reach shelf.new ≤ max (S.reach shelf.old) (header_end octets segment + 12))
        × (segment.opening < header_end octets segment))) }
    ensures cause { BeginCause (S.faults shelf.old) (S.faults shelf.new) result }
    ensures kept { OnlyReads S.files S.opened S.reach shelf.old shelf.new }
{
    let info = find_first(shelf, file, segment, ids::INFO)?;
    let tracks = find_first(shelf, file, segment, ids::TRACKS)?;
    read_found_header(alloc, shelf, file, info, tracks)
}

impl Cursor {
    /// Reads what stands before a film's Clusters (RFC 8794, section 11.2; RFC 9559, section 5.1),
    /// and stands at the opening mark.
    ///
    /// `Refused` exactly where that is refused. `ReadFault` comes only where the shelf's count of
    /// faults rose in this call, or stands at its last value. Where a cursor is answered, nothing was
    /// asked for past the 12 octets behind Info and Tracks, whichever stands later.
    pub fn begin<S: Shelf>(alloc: Global, shelf: &mut S, file: FileNo) -> Result<Cursor, OpenError>
        ensures value { InFile S.files S.opened shelf.old file.0 (λ octets. Begins octets result) }
        ensures at { IfOk result (λ c. (mark_of c ≡ opening_mark) × (file_of c ≡ file.0)) }
        ensures reach { IfOk result (λ c. InFile S.files S.opened shelf.old file.0
            (λ octets. S.reach shelf.new
            ≤ max (S.reach shelf.old) (header_end octets (segment_for c) + 12))) }
        ensures cause { BeginCause (S.faults shelf.old) (S.faults shelf.new) result }
        ensures kept { OnlyReads S.files S.opened S.reach shelf.old shelf.new }
    {
        let from = read_ebml_header(alloc, shelf, file)?;
        let segment = find_segment(shelf, file, from as u64)?;
        let header = read_header(alloc, shelf, file, segment)?;
        Ok(Cursor {
            alloc,
            file,
            opening: segment.opening,
            segment_end: segment.end,
            scale: header.scale,
            tracks: header.tracks,
            mark: Mark {
                pos: 0,
                level: Level::Segment,
            },
        })
    }
}
