ghost use Rattle.std.specs.Prelude.{◌≡◌, ℕ, ◌+◌, ◌-◌, ◌^◌, ◌<◌, ◌≤◌, max, length, Option, IfOk};
ghost use Rattle.mc_ebml.specs.Element.{uint_of};
ghost use Rattle.mc_outside.specs.Shelf.{OnlyReadsTo};
ghost use Rattle.mc_walk.specs.declared.movement.Move.TheVariants as moves;
ghost use Rattle.mc_walk.specs.declared.plan.Plan.{Plan};
ghost use Rattle.mc_walk.specs.Moves.{StartsBehind};
ghost use Rattle.mc_walk.specs.Walk.{stamped, moved, step_at};
ghost use Rattle.mc_cursor.specs.Causes.{ReadCause, OnlyReads};
ghost use Rattle.mc_cursor.specs.Reads.{InFile, found_at, Lies};
ghost use Rattle.mc_cursor.specs.Standing.{plan_for};
ghost use Rattle.mc_cursor.specs.Steps.{bad_ending, turn_of, turned, LeadsOn, TurnsOn, passed_step, step_to, GoesOn, BeginsIn, IsUnread, TurnStarts, asked_for, ReadsUpTo};

use crate::cursor::Cursor;
use crate::error::CursorError;
use crate::reading::{Found, read_ends_before, read_found, read_part};
use mc_ebml::{EbmlError, read_uint};
use mc_outside::Shelf;
use mc_packet::{Ending, Fault, Level};
use mc_walk::{Move, Role, last_ending, move_at, settled};

/// A block element whose body, which stands from `at` up to `stop`, is not read yet.
#[derive(Clone, Copy, Debug, PartialEq, Eq)]
pub(crate) struct Unread {
    pub(crate) role: Role,
    pub(crate) at: u64,
    pub(crate) stop: u64,
    pub(crate) level: Level,
}

/// What one step on demand comes to.
#[derive(Clone, Copy, Debug, PartialEq, Eq)]
pub(crate) enum Reached {
    /// The film ends here.
    End(Ending),
    /// The walk goes on at another place.
    On { to: u64, level: Level },
    /// A block element stands here.
    Block(Unread),
}

/// What the walk does at a place, before anything behind the head there is read.
#[derive(Clone, Copy, Debug, PartialEq, Eq)]
pub(crate) enum Turn {
    /// The film ends here.
    Ends(Ending),
    /// An element's head asks for this.
    Moves(Move),
}

fn ending_by(place: u64, e: EbmlError) -> Ending
    ensures { result ≡ bad_ending place e }
{
    match e {
        EbmlError::Short => Ending::Cut(place),
        EbmlError::BadId => Ending::Damaged(place, Fault::BadId),
        _ => Ending::Damaged(place, Fault::BadSize),
    }
}

fn next_turn(segment_end: Option<u64>, place: u64, level: Level, found: Found) -> Turn
    requires { Lies place found }
    ensures value { result ≡ turn_of segment_end place level found }
    ensures onward { TurnsOn place result }
{
    match found {
        Found::End => Turn::Ends(last_ending(segment_end, place, place, level)),
        _ if segment_end == Some(place) => Turn::Ends(Ending::Clean),
        Found::Element(head) => {
            let level = settled(level, place);
            Turn::Moves(move_at(segment_end, level, head.id, head.body as u64, head.size))
        }
        Found::Bad(e) => Turn::Ends(ending_by(place, e)),
    }
}

// A Timestamp sets the Cluster's time.
fn stamp(place: u64, level: Level, time: Result<u64, EbmlError>) -> Result<Level, Ending>
    ensures { (stop : ℕ) → passed_step stop result ≡ stamped place stop level time }
{
    let Level::Cluster { end, .. } = level else {
        return Ok(level);
    };
    match time {
        Ok(time) => Ok(Level::Cluster {
            time: Some(time),
            end,
        }),
        Err(_) => Err(Ending::Damaged(place, Fault::BadUint)),
    }
}

// What is reached behind an element that is passed over, and ends at `stop`.
fn behind(stop: u64, passed: Result<Level, Ending>) -> Reached
    ensures value { (plan : Plan) (place : ℕ)
        → step_to plan place result ≡ passed_step stop passed }
    ensures onward { (place : ℕ) → place < stop → GoesOn place result }
    ensures begins { (len : ℕ) → BeginsIn len result }
    ensures passed { ¬ IsUnread result }
{
    match passed {
        Ok(level) => Reached::On { to: stop, level },
        Err(ending) => Reached::End(ending),
    }
}

impl Cursor {
    // An element that is passed over, and the level behind it; or how the film ends there.
    fn pass_other<S: Shelf>(
        &self,
        shelf: &mut S,
        place: u64,
        at: u64,
        stop: u64,
        level: Level,
    ) -> Result<Result<Level, Ending>, CursorError>
        requires { at ≤ stop }
        ensures value { IfOk result (λ r. InFile S.files S.opened shelf.old self.now.file.0
            (λ octets. at ≤ length octets → passed_step stop r
            ≡ moved (plan_for octets self.now) place (moves.Pass Role.Other at stop level))) }
        ensures cause { ReadCause (S.faults shelf.old) (S.faults shelf.new) result }
        ensures kept { OnlyReadsTo S.files S.opened S.reach shelf.old shelf.new stop }
    {
        if read_ends_before(shelf, self.file, at, stop)? {
            return Ok(Err(Ending::Cut(place)));
        }
        Ok(Ok(level))
    }

    // A Timestamp of at most 8 octets.
    fn pass_time<S: Shelf>(
        &self,
        shelf: &mut S,
        place: u64,
        at: u64,
        stop: u64,
        level: Level,
    ) -> Result<Result<Level, Ending>, CursorError>
        requires { at ≤ stop }
        ensures value { IfOk result (λ r. InFile S.files S.opened shelf.old self.now.file.0
            (λ octets. at ≤ length octets → passed_step stop r
            ≡ moved (plan_for octets self.now) place (moves.Pass Role.Timestamp at stop level))) }
        ensures cause { ReadCause (S.faults shelf.old) (S.faults shelf.new) result }
        ensures kept { OnlyReadsTo S.files S.opened S.reach shelf.old shelf.new stop }
    {
        match read_part(self.alloc, shelf, self.file, at, stop)? {
            Some(body) => Ok(stamp(place, level, read_uint(body.as_slice()))),
            None => Ok(Err(Ending::Cut(place))),
        }
    }

    // A Timestamp of more octets, which is no time.
    #[tactic(auto, using(crate::proofs::Long::long_uint))]
    fn pass_long_time<S: Shelf>(
        &self,
        shelf: &mut S,
        place: u64,
        at: u64,
        stop: u64,
        level: Level,
    ) -> Result<Result<Level, Ending>, CursorError>
        requires { at + 8 < stop }
        ensures value { IfOk result (λ r. InFile S.files S.opened shelf.old self.now.file.0
            (λ octets. at ≤ length octets → passed_step stop r
            ≡ moved (plan_for octets self.now) place (moves.Pass Role.Timestamp at stop level))) }
        ensures cause { ReadCause (S.faults shelf.old) (S.faults shelf.new) result }
        ensures kept { OnlyReadsTo S.files S.opened S.reach shelf.old shelf.new stop }
    {
        if read_ends_before(shelf, self.file, at, stop)? {
            return Ok(Err(Ending::Cut(place)));
        }
        Ok(stamp(place, level, Err(EbmlError::BadUint)))
    }

    // What an element's head asks for; the body of a block element is left unread.
    #[tactic(auto, using(crate::proofs::Blocks::unread_step))]
    fn pass<S: Shelf>(
        &self,
        shelf: &mut S,
        place: u64,
        role: Role,
        at: u64,
        stop: u64,
        level: Level,
    ) -> Result<Reached, CursorError>
        requires { (place < at) × (at ≤ stop) }
        ensures value { IfOk result (λ s. InFile S.files S.opened shelf.old self.now.file.0
            (λ octets. at ≤ length octets → step_to (plan_for octets self.now) place s
            ≡ moved (plan_for octets self.now) place (moves.Pass role at stop level))) }
        ensures onward { IfOk result (GoesOn place) }
        ensures begins { (len : ℕ) → at ≤ len → IfOk result (BeginsIn len) }
        ensures unread { IfOk result (λ s. IsUnread s → S.reach shelf.new ≡ S.reach shelf.old) }
        ensures cause { ReadCause (S.faults shelf.old) (S.faults shelf.new) result }
        ensures kept { OnlyReadsTo S.files S.opened S.reach shelf.old shelf.new stop }
    {
        match role {
            Role::Other => Ok(behind(stop, self.pass_other(shelf, place, at, stop, level)?)),
            Role::Timestamp if stop - at > 8 => {
                Ok(behind(stop, self.pass_long_time(shelf, place, at, stop, level)?))
            }
            Role::Timestamp => Ok(behind(stop, self.pass_time(shelf, place, at, stop, level)?)),
            Role::SimpleBlock | Role::BlockGroup => Ok(Reached::Block(Unread {
                role,
                at,
                stop,
                level,
            })),
        }
    }

    fn follow<S: Shelf>(
        &self,
        shelf: &mut S,
        place: u64,
        turn: Turn,
    ) -> Result<Reached, CursorError>
        requires { TurnsOn place turn }
        ensures value { IfOk result (λ s. InFile S.files S.opened shelf.old self.now.file.0
            (λ octets. TurnStarts place (length octets) turn
            → step_to (plan_for octets self.now) place s
            ≡ turned (plan_for octets self.now) place turn)) }
        ensures onward { IfOk result (GoesOn place) }
        ensures begins { (len : ℕ) → TurnStarts place len turn → IfOk result (BeginsIn len) }
        ensures unread { IfOk result (λ s. IsUnread s → S.reach shelf.new ≡ S.reach shelf.old) }
        ensures cause { ReadCause (S.faults shelf.old) (S.faults shelf.new) result }
        ensures kept { OnlyReadsTo S.files S.opened S.reach shelf.old shelf.new (asked_for turn) }
    {
        match turn {
            Turn::Ends(ending) => Ok(Reached::End(ending)),
            Turn::Moves(Move::Fault(fault)) => Ok(Reached::End(Ending::Damaged(place, fault))),
            Turn::Moves(Move::Enter { to, level }) => Ok(Reached::On { to, level }),
            Turn::Moves(
                Move::Pass {
                    role,
                    at,
                    stop,
                    level,
                },
            ) => self.pass(shelf, place, role, at, stop, level),
        }
    }

    /// One step of the walk, at a place of the film. It reads the head there; of a block element
    /// nothing more, and else at most up to where the element ends.
    pub(crate) fn step<S: Shelf>(
        &self,
        shelf: &mut S,
        place: u64,
        level: Level,
    ) -> Result<Reached, CursorError>
        ensures value { IfOk result (λ s. InFile S.files S.opened shelf.old self.now.file.0
            (λ octets. place ≤ length octets → (step_to (plan_for octets self.now) place s
            ≡ step_at (plan_for octets self.now) place level) × BeginsIn (length octets) s)) }
        ensures onward { IfOk result (GoesOn place) }
        ensures cause { ReadCause (S.faults shelf.old) (S.faults shelf.new) result }
        ensures kept { OnlyReads S.files S.opened S.reach shelf.old shelf.new }
        ensures unread { IfOk result (λ s. IsUnread s
            → S.reach shelf.new ≤ max (S.reach shelf.old) (place + 12)) }
        ensures reach { InFile S.files S.opened shelf.old self.now.file.0
            (λ octets. place ≤ length octets
            → ReadsUpTo (step_at (plan_for octets self.now) place level)
            (S.reach shelf.old) (S.reach shelf.new)) }
    {
        let found = read_found(shelf, self.file, place)?;
        let turn = next_turn(self.segment_end, place, level, found);
        self.follow(shelf, place, turn)
    }
}
