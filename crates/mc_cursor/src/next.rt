ghost use Rattle.std.specs.Prelude.{◌≡◌, ◌+◌, ◌-◌, ◌^◌, ◌<◌, ◌≤◌, max, IfOk, OnErr};
ghost use Rattle.mc_cursor.specs.Causes.{ReadCause, OnlyReads};
ghost use Rattle.mc_cursor.specs.Heads.{IsNext, NextLies, IsNextUnread};
ghost use Rattle.mc_cursor.specs.Standing.{OnFilm, ReadsNext};

use crate::cursor::Cursor;
use crate::error::CursorError;
use crate::step::{Reached, Unread};
use mc_outside::Shelf;
use mc_packet::{Ending, Mark};

/// What ends a part.
#[derive(Clone, Copy, Debug, PartialEq, Eq)]
pub(crate) enum Next {
    /// The film's ending.
    End(Ending),
    /// A block element, whose body is not read yet.
    Block(Unread),
}

impl Cursor {
    /// Walks from the cursor's mark to the next block element, whose head alone is read, or to the
    /// film's ending; and the mark there.
    pub(crate) fn find_next<S: Shelf>(&self, shelf: &mut S) -> Result<(Mark, Next), CursorError>
        ensures value { IfOk result (λ r. OnFilm S.files S.opened shelf.old self.now
            (λ octets. IsNext octets self.now r.0 r.1)) }
        ensures bounds { IfOk result (λ r. (self.now.mark.pos ≤ r.0.pos) × (0 < r.0.pos)
            × NextLies r.0.pos r.1) }
        ensures cause { ReadCause (S.faults shelf.old) (S.faults shelf.new) result }
        ensures kept { OnlyReads S.files S.opened S.reach shelf.old shelf.new }
        ensures near { IfOk result (λ r. OnFilm S.files S.opened shelf.old self.now
            (λ octets. IsNextUnread r.1
            → S.reach shelf.new ≤ max (S.reach shelf.old) (r.0.pos + 12))) }
        ensures err { OnErr result (OnFilm S.files S.opened shelf.old self.now
            (λ octets. ReadsNext octets self.now (S.reach shelf.old) (S.reach shelf.new))) }
    {
        let mut place = self.start();
        let mut level = self.start_level();
        loop {
            match self.step(shelf, place, level)? {
                Reached::End(ending) => {
                    return Ok((Mark { pos: place, level }, Next::End(ending)));
                }
                Reached::Block(block) => {
                    return Ok((Mark { pos: place, level }, Next::Block(block)));
                }
                Reached::On { to, level: inner } => {
                    place = to;
                    level = inner;
                }
            }
        }
    }
}
