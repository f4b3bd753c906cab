ghost use Rattle.std.specs.Prelude.{◌≡◌, ◌+◌, ◌<◌, ◌≤◌, max, ℕ, List, [], length, Some, None, IfOk, OnErr};
ghost use Rattle.std.proofs.Props.{props};
ghost use Rattle.mc_packet.specs.Shape.{AreBetween, HasShape};
ghost use Rattle.mc_tracks.specs.TrackList.{IsTrackList};
ghost use Rattle.mc_walk.specs.Parts.{level_of, chunk_of, IsMark};
ghost use Rattle.mc_cursor.specs.Causes.{ReadCause, OnlyReads};

use crate::error::CursorError;
use crate::head::HeadChunk;
use crate::next::Next;
use crate::step::Unread;
use mc_outside::{FileNo, Shelf};
use mc_packet::{Chunk, Ending, Level, Mark, Packets};
use mc_tracks::TrackList;
use mc_walk::BlockMark;
use std::alloc::Global;

/// A place in a film, from which it is read on as it is asked for. It knows the film's header, and
/// reads everything else through the shelf that it is given.
#[derive(Drop)]
pub struct Cursor {
    pub(crate) alloc: Global,
    pub(crate) file: FileNo,
    // The offset of the Segment's first child.
    pub(crate) opening: u64,
    // The offset at which the Segment ends, where its size is known; it may be past the film.
    pub(crate) segment_end: Option<u64>,
    // Nanoseconds in a unit of time.
    pub(crate) scale: u64,
    pub(crate) tracks: TrackList,
    pub(crate) mark: Mark,
    ghost positive: { 0 < scale },
    ghost behind: { 0 < opening },
    ghost listed: { IsTrackList tracks } by { Prim.hlevel props },
}

impl Cursor {
    ghost use Rattle.mc_cursor.specs.Heads.{head_chunk_of, part_by, head_by, BlockIsMark};
    ghost use Rattle.mc_cursor.specs.Standing.{plan_for, IsKnown, OnFilm, StandsFor, start_of, tracks_of, scale_of, mark_of, at_mark, next_of, ReadsNext};

    /// The film's tracks: at most 64, whose numbers differ and are not 0, with texts of at most
    /// 65,536 octets without a zero octet, whatever the shelf gives.
    pub fn tracks(&self) -> &TrackList
        ensures value { result.now ≡ tracks_of self.now }
        ensures shape { IsTrackList result.now }
    {
        &self.tracks
    }

    /// Nanoseconds in a unit of the film's times, at least 1 (RFC 9559, section 5.1.2.9).
    pub fn scale(&self) -> u64
        ensures value { result ≡ scale_of self.now }
        ensures positive { 0 < result }
    {
        self.scale
    }

    /// Where the cursor stands.
    pub fn mark(&self) -> Mark
        ensures { result ≡ mark_of self.now }
    {
        self.mark
    }

    /// Stands at another mark. The cursor stands for each film that opens with what it knows, where
    /// the mark is one of that film, also if it stood outside before. Elsewhere nothing is known of
    /// what it reads, but that its calls end.
    pub fn goto(&mut self, mark: Mark)
        ensures value { self.new ≡ at_mark self.old mark }
        ensures stands { (octets : List ℕ) → IsKnown octets self.old
            → IsMark (plan_for octets self.old) mark → StandsFor octets self.new }
    {
        self.mark = mark;
    }

    /// Reads from the mark on to just past the next SimpleBlock or BlockGroup of any track, or,
    /// where none follows, to the film's ending, which is answered again by each later call. The
    /// cursor then stands at the chunk's end.
    ///
    /// `ReadFault` comes only where the shelf's count of faults rose in this call, or stands at
    /// its last value. After an error the cursor stands where it stood. Whatever the shelf gives, a
    /// chunk has its shape: at most 256 packets of one track, in order and between its marks, with
    /// payloads of at most 67,108,864 octets together.
    pub fn next_chunk<S: Shelf>(&mut self, shelf: &mut S) -> Result<Chunk, CursorError>
        // the part, and where the cursor stands behind it
        ensures value { IfOk result (λ k. OnFilm S.files S.opened shelf.old self.old
            (λ octets. (k ≡ next_of octets self.old) × StandsFor octets self.new)) }
        ensures moves { IfOk result (λ k. (k.from ≡ mark_of self.old)
            × (self.new ≡ at_mark self.old k.to)) }
        ensures shape { IfOk result HasShape }
        // after an error
        ensures err { OnErr result (self.new ≡ self.old) }
        // what is asked of the shelf
        ensures cause { ReadCause (S.faults shelf.old) (S.faults shelf.new) result }
        ensures kept { OnlyReads S.files S.opened S.reach shelf.old shelf.new }
        ensures reach { OnFilm S.files S.opened shelf.old self.old
            (λ octets. ReadsNext octets self.old (S.reach shelf.old) (S.reach shelf.new)) }
    {
        let chunk = self.read_chunk(shelf)?;
        self.mark = chunk.to;
        Ok(chunk)
    }

    /// Reads on as `next_chunk` does, and moves alike, but reads no payload: of a SimpleBlock without
    /// a lace at most the first 12 octets of the body, and the last, to learn that the film reaches
    /// so far. A lace and a BlockGroup are read whole. Before the ending it moves onward, whatever
    /// the shelf gives.
    ///
    /// From the block's offset, at the level of the chunk's end, the same part is read again: that is
    /// a mark of the film.
    pub fn next_head<S: Shelf>(&mut self, shelf: &mut S) -> Result<HeadChunk, CursorError>
        // the part, and where the cursor stands behind it
        ensures value { IfOk result (λ k. OnFilm S.files S.opened shelf.old self.old
            (λ octets. (k ≡ head_chunk_of (next_of octets self.old)) × StandsFor octets self.new)) }
        ensures marks { IfOk result (λ k. OnFilm S.files S.opened shelf.old self.old
            (λ octets. IsMark (plan_for octets self.old) (mark_of self.old)
            → BlockIsMark (plan_for octets self.old) k)) }
        ensures moves { IfOk result (λ k. (k.from ≡ mark_of self.old)
            × (self.new ≡ at_mark self.old k.to)) }
        ensures onward { IfOk result (λ k. k.ending ≡ None → k.from.pos < k.to.pos) }
        // after an error
        ensures err { OnErr result (self.new ≡ self.old) }
        // what is asked of the shelf
        ensures cause { ReadCause (S.faults shelf.old) (S.faults shelf.new) result }
        ensures kept { OnlyReads S.files S.opened S.reach shelf.old shelf.new }
        ensures reach { OnFilm S.files S.opened shelf.old self.old
            (λ octets. ReadsNext octets self.old (S.reach shelf.old) (S.reach shelf.new)) }
    {
        let head = self.read_head_chunk(shelf)?;
        self.mark = head.to;
        Ok(head)
    }

    /// The place from which it reads on.
    pub(crate) fn start(&self) -> u64
        ensures value { result ≡ start_of self.now }
        ensures onward { self.now.mark.pos ≤ result }
        ensures positive { 0 < result }
    {
        if self.mark.pos == 0 {
            self.opening
        } else {
            self.mark.pos
        }
    }

    pub(crate) fn start_level(&self) -> Level
        ensures { result ≡ level_of self.now.mark }
    {
        if self.mark.pos == 0 {
            Level::Segment
        } else {
            self.mark.level
        }
    }

    // The part from the cursor's mark on.
    fn read_chunk<S: Shelf>(&self, shelf: &mut S) -> Result<Chunk, CursorError>
        ensures value { IfOk result (λ k. OnFilm S.files S.opened shelf.old self.now
            (λ octets. k ≡ next_of octets self.now)) }
        ensures bounds { IfOk result (λ k. (k.from ≡ self.now.mark) × (0 < k.to.pos)) }
        ensures shape { IfOk result HasShape }
        ensures cause { ReadCause (S.faults shelf.old) (S.faults shelf.new) result }
        ensures kept { OnlyReads S.files S.opened S.reach shelf.old shelf.new }
        ensures reach { OnFilm S.files S.opened shelf.old self.now
            (λ octets. ReadsNext octets self.now (S.reach shelf.old) (S.reach shelf.new)) }
    {
        let (at, next) = self.find_next(shelf)?;
        match next {
            Next::End(ending) => Ok(self.last_chunk(at, ending)),
            Next::Block(block) => {
                let taken = self.read_block(shelf, at.pos, block)?;
                Ok(self.chunk_by(at, block, taken))
            }
        }
    }

    // The same without its payloads.
    fn read_head_chunk<S: Shelf>(&self, shelf: &mut S) -> Result<HeadChunk, CursorError>
        ensures value { IfOk result (λ k. OnFilm S.files S.opened shelf.old self.now
            (λ octets. k ≡ head_chunk_of (next_of octets self.now))) }
        ensures bounds { IfOk result (λ k. (k.from ≡ self.now.mark) × (0 < k.to.pos)) }
        ensures onward { IfOk result (λ k. k.ending ≡ None → k.from.pos < k.to.pos) }
        ensures cause { ReadCause (S.faults shelf.old) (S.faults shelf.new) result }
        ensures kept { OnlyReads S.files S.opened S.reach shelf.old shelf.new }
        ensures reach { OnFilm S.files S.opened shelf.old self.now
            (λ octets. ReadsNext octets self.now (S.reach shelf.old) (S.reach shelf.new)) }
    {
        let (at, next) = self.find_next(shelf)?;
        match next {
            Next::End(ending) => Ok(self.last_head(at, ending)),
            Next::Block(block) => {
                let taken = self.read_mark(shelf, at.pos, block)?;
                Ok(self.head_by(at, block, taken))
            }
        }
    }

    // The chunk that ends at the film's ending.
    fn last_chunk(&self, at: Mark, ending: Ending) -> Chunk
        ensures value { result
            ≡ record { from = self.now.mark; to = at; packets = []; ending = Some ending } }
        ensures shape { HasShape result }
    {
        Chunk {
            from: self.mark,
            to: at,
            packets: Packets::new(self.alloc),
            ending: Some(ending),
        }
    }

    // The chunk that ends with the block element at a mark.
    fn chunk_by(&self, at: Mark, block: Unread, taken: Result<Packets, Ending>) -> Chunk
        requires order { (self.now.mark.pos ≤ at.pos) × (at.pos < block.stop) × (0 < at.pos) }
        requires law { IfOk taken (AreBetween at.pos (at.pos + 1)) }
        ensures value { result ≡ chunk_of self.now.mark (part_by at block taken) }
        ensures bounds { (result.from ≡ self.now.mark) × (0 < result.to.pos) }
        ensures shape { HasShape result }
    {
        match taken {
            Ok(packets) => Chunk {
                from: self.mark,
                to: Mark {
                    pos: block.stop,
                    level: block.level,
                },
                packets,
                ending: None,
            },
            Err(ending) => self.last_chunk(at, ending),
        }
    }

    fn last_head(&self, at: Mark, ending: Ending) -> HeadChunk
        ensures { result
            ≡ record { from = self.now.mark; to = at; block = None; ending = Some ending } }
    {
        HeadChunk {
            from: self.mark,
            to: at,
            block: None,
            ending: Some(ending),
        }
    }

    fn head_by(
        &self,
        at: Mark,
        block: Unread,
        taken: Result<Option<BlockMark>, Ending>,
    ) -> HeadChunk
        requires { (at.pos < block.stop) × (0 < at.pos) }
        ensures value { result ≡ head_by self.now.mark at block taken }
        ensures bounds { (result.from ≡ self.now.mark) × (0 < result.to.pos) }
        ensures onward { result.ending ≡ None → at.pos < result.to.pos }
    {
        match taken {
            Ok(first) => HeadChunk {
                from: self.mark,
                to: Mark {
                    pos: block.stop,
                    level: block.level,
                },
                block: first,
                ending: None,
            },
            Err(ending) => self.last_head(at, ending),
        }
    }
}
