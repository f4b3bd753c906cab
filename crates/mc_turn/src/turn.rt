ghost use Rattle.std.specs.Prelude.{◌≡◌, ◌-◌, ◌^◌, ◌<◌, ◌≤◌, true, false, [], length, IfOk};
ghost use Rattle.mc_turn.specs.declared.view.Stage.TheVariants.{Out, Waiting};
ghost use Rattle.mc_turn.specs.Callers.{all_but, last_of, CutsRange, Divides, Extends, HasAll, HasBoth, Within};
ghost use Rattle.mc_turn.specs.Passes.{Carried, Lock, Seen, first_pass, in_one, known, lock_of, with_numbers};
ghost use Rattle.mc_turn.specs.Rule.{Cuts, Entered, IsLockTable, first_part, second_part, with_ticket};

use crate::bell::Bell;
use crate::kept::Kept;
use crate::law::{Advance, Both, Draw, Law, Learn, Look, Start, Take};
use crate::pass::Pass;
use crate::view::View;
use atomic_table::{Refused, Seat, Split, Table};
use std::alloc::{AllocError, Global};
use std::marker::{Brand, Model};
use std::snapshot::Snapshot;
use std::sync::Wait;

/// A call wanted memory that was not there.
pub type NoMemory = AllocError;

/// A lock that serves in the order of drawn tickets, round a value with a journal.
///
/// Word 0 of its table is the next ticket, word 1 the ticket that is served, and slot 0 has the
/// value. Only [`new`](Turn::new) takes memory.
#[derive(Drop)]
pub struct Turn<T: Kept> {
    // made by `new`; `enter` and `leave` write its words and its slot, and nobody else does
    table: Table<Option<T>, View<T::Entry>, Start<T>, Law<T>, Global>,
}

impl<T: Kept> Model for Turn<T> {
    ghost Value = { Lock };

    ghost view = { λ t. lock_of t.table.shared.table_id t.table.shared.key.numbers };

    ghost invariant = { λ t. IsLockTable t.table.shared.table_id };
}

impl<T: Kept + Drop> Turn<T> {
    /// A lock round `value`, and its first pass, which is outside, has seen the value's journal,
    /// and has the caller numbers from 0 to `numbers - 1`: no other number is ever handed out. The
    /// entries that the value has already must bear such numbers. Without memory the value is
    /// dropped.
    pub fn new(alloc: Global, value: T, numbers: u32) -> Result<(Turn<T>, Pass<T>), NoMemory>
        requires some { 1 ≤ numbers }
        requires within { Within T.caller numbers (T.kept value) }
        ensures first { IfOk result (λ r. r.1 ≡ first_pass r.0 numbers (T.kept value)) }
        ensures callers { IfOk result (λ r. r.0.callers ≡ numbers) }
        ensures has { IfOk result (λ r. HasAll numbers r.1.numbers) }
    {
        let start = Start {
            value: Snapshot::of(&value),
            numbers,
        };
        let mut slots = Vec::with_capacity(alloc, 1)?;
        slots.push_reserved(Some(value));
        match Table::new(alloc, &[0, 0], slots, &start) {
            Ok((table, seat)) => Ok((
                Turn { table },
                Pass {
                    seat,
                    count: numbers,
                    ticket: 0,
                },
            )),
            Err(Refused { slots: _ }) => Err(AllocError),
        }
    }

    // A pass that finds the last ticket drawn waits for ever.
    fn draw<R: Wait>(&self, rt: &R, seat: &mut Seat<Option<T>, View<T::Entry>>) -> u64
        requires lock { seat.old.table_id ≡ self.now.table }
        requires outside { seat.old.me.0.stage ≡ Out }
        ensures lock { seat.new.table_id ≡ seat.old.table_id }
        ensures last { result < 2 ^ 64 - 1 }
        ensures drawn { seat.new.me ≡ with_ticket result seat.old.me }
    {
        for _ in rt.forever() {
            let next = self.table.shared.load::<Look>(seat, 0);
            if next < u64::MAX {
                let found = self
                    .table
                    .shared
                    .compare_exchange::<Draw>(seat, 0, next, next + 1);
                if found == next {
                    return next;
                }
            }
        }
        unreachable!()
    }

    // Waits until the ticket is served, and takes the slot. The bell's count is read before the
    // served ticket is, so a ring in between ends the wait.
    fn wait_for<R: Wait>(
        &self,
        rt: &R,
        seat: &mut Seat<Option<T>, View<T::Entry>>,
        ticket: u64,
        bell: &Bell,
    )
        requires lock { seat.old.table_id ≡ self.now.table }
        requires waiting { (seat.old.me.0.stage ≡ Waiting ticket) × (seat.old.me.1 ≡ []) }
        ensures lock { seat.new.table_id ≡ seat.old.table_id }
        ensures entered { Entered T.kept T.caller seat.old.me.0 ticket seat.new.me }
    {
        let mut heard = 0;
        for _ in rt.forever() {
            if self.table.shared.load::<Take<T>>(seat, 1) == ticket {
                return;
            }
            heard = bell.wait_past(rt, heard);
        }
        unreachable!()
    }

    /// Waits for a turn, and takes the value. What the pass has seen before is a prefix of the
    /// value's journal, in which the entries under the pass's numbers are just those that it has
    /// seen, and each entry bears a number that was handed out (`within`); and the pass has then
    /// seen the whole journal. It takes no memory, and nothing says that it returns: give it the
    /// bell that is rung after each turn.
    pub fn enter<R: Wait>(&self, rt: &R, pass: &mut Pass<T>, bell: &Bell) -> T
        requires lock { pass.old.lock ≡ self.now }
        requires outside { pass.old.inside ≡ false }
        ensures pass { pass.new ≡ known pass.old.lock pass.old.numbers (T.kept result) true }
        ensures seen { Seen T.caller pass.old (T.kept result) }
        ensures within { Within T.caller self.now.callers (T.kept result) }
    {
        let ticket = self.draw(rt, &mut pass.seat);
        self.wait_for(rt, &mut pass.seat, ticket, bell);
        pass.ticket = ticket;
        self.table.shared.exchange(&mut pass.seat, 0, None).unwrap()
    }

    /// Ends the turn, and gives the value back. The journal that was taken must be a prefix of
    /// the one that is left, and the new entries must bear the pass's numbers. The pass has then
    /// seen the journal that it left. It takes no memory and never waits; ring the bell
    /// after it.
    pub fn leave(&self, pass: &mut Pass<T>, value: T)
        requires lock { pass.old.lock ≡ self.now }
        requires inside { pass.old.inside ≡ true }
        requires extends { Extends T.caller pass.old.numbers pass.old.seen (T.kept value) }
        ensures pass { pass.new ≡ known pass.old.lock pass.old.numbers (T.kept value) false }
    {
        drop(self.table.shared.exchange(&mut pass.seat, 0, Some(value)));
        let next = pass.ticket + 1;
        self.table
            .shared
            .store::<Advance<T>>(&mut pass.seat, 1, next);
    }

    /// Gives the last `count` numbers of the pass to a new one, which is outside and has seen
    /// as much: one at least, and not all. Each number is then in one of the two (`parts`), and
    /// where the pass had the numbers from one to another, both have such (`ranges`). It takes no
    /// memory and never waits.
    pub fn split(&self, pass: &mut Pass<T>, count: u32) -> Pass<T>
        // a pass of this lock, between two turns, and not all of its numbers
        requires lock { pass.old.lock ≡ self.now }
        requires outside { pass.old.inside ≡ false }
        requires fewer { (1 ≤ count) × (count < length pass.old.numbers) }
        // who has which numbers then
        ensures kept { pass.new ≡ with_numbers pass.old (all_but count pass.old.numbers) }
        ensures given { result ≡ with_numbers pass.old (last_of count pass.old.numbers) }
        ensures parts { Divides pass.old.numbers pass.new.numbers result.numbers }
        ensures ranges { CutsRange count pass.old.numbers pass.new.numbers result.numbers }
    {
        let keep = pass.count - count;
        let seat = self.cut::<Brand>(&mut pass.seat, keep);
        pass.count = keep;
        Pass {
            seat,
            count,
            ticket: 0,
        }
    }

    // The two parts are picked at the call, since they depend on `keep`.
    fn cut<M: Split<View<T::Entry>>>(
        &self,
        seat: &mut Seat<Option<T>, View<T::Entry>>,
        keep: u32,
    ) -> Seat<Option<T>, View<T::Entry>>
        requires lock { seat.old.table_id ≡ self.now.table }
        requires outside { seat.old.me.0.stage ≡ Out }
        requires parts { Cuts keep M.left M.right }
        ensures lock { seat.new.table_id ≡ seat.old.table_id }
        ensures same { result.table_id ≡ seat.old.table_id }
        ensures kept { seat.new.me ≡ (first_part keep seat.old.me.0, seat.old.me.1) }
        ensures given { result.me ≡ (second_part keep seat.old.me.0, []) }
    {
        self.table.shared.split_seat::<M>(seat)
    }

    /// Gives the numbers of `other` to `pass`, which has then seen the longer of what both have
    /// seen. What either pass knew holds of the joined one (`mine`, `theirs`): each of the two
    /// journals seen is a prefix of that one, and a pass's own entries in it are as they were. It
    /// takes no memory and never waits.
    pub fn join(&self, pass: &mut Pass<T>, other: Pass<T>)
        requires lock { (pass.old.lock ≡ self.now) × (other.lock ≡ self.now) }
        requires outside { (pass.old.inside ≡ false) × (other.inside ≡ false) }
        ensures both { pass.new ≡ in_one pass.old other }
        ensures mine { Carried T.caller pass.old pass.new }
        ensures theirs { Carried T.caller other pass.new }
        ensures has { HasBoth pass.old.numbers other.numbers pass.new.numbers }
    {
        let Pass {
            seat,
            count,
            ticket: _,
        } = other;
        self.table.shared.join_seat::<Both>(&mut pass.seat, seat);
        self.table.shared.load::<Learn<T>>(&mut pass.seat, 0);
        pass.count += count;
    }

    /// Enters for the last time, and keeps the value: what the pass has seen is a prefix of its
    /// journal, the entries under the pass's numbers are just those that it has seen, and each
    /// entry bears a number that was handed out. A pass that has all numbers has seen the whole
    /// journal (`whole`): nobody else made an entry. It takes no memory, and nothing says that it
    /// returns.
    pub fn close<R: Wait>(self, rt: &R, mut pass: Pass<T>, bell: &Bell) -> T
        requires lock { pass.lock ≡ self }
        requires outside { pass.inside ≡ false }
        ensures seen { Seen T.caller pass (T.kept result) }
        ensures within { Within T.caller self.callers (T.kept result) }
        ensures whole { HasAll self.callers pass.numbers → T.kept result ≡ pass.seen }
    {
        self.enter(rt, &mut pass, bell)
    }
}
