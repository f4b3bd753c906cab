ghost use Rattle.std.specs.Prelude.{◌≡◌, ◌∷◌, IfOk};
ghost use Rattle.atomic_table.specs.Seated.{TableId};
ghost use Rattle.crossbeam_utils.specs.Seq.{cell_view};
ghost use Rattle.mc_board.specs.Rule.{IsPosting, looker};
ghost use Rattle.mc_board.specs.Statuses.{
  Falling,
  Has,
  IsFirst,
  Looking,
  MayFollow,
  NotNewer,
  Posting,
  UpToFirst,
  looking,
  posting,
};

use crate::law::{Add, Begin, Copied, Law, Learn, Posted, See, Told, View};
use crossbeam_utils::atomic::seq_cell::{Pass, RuledSeqCell};
use mc_packet::{NoMemory, Status};
use std::alloc::Global;
use std::marker::Model;
use std::sync::Wait;

/// A board that shows the last status posted. A status is read and posted whole.
#[derive(Drop)]
pub struct Board {
    // made by `new`, and written by `post` alone
    cell: RuledSeqCell<Posted, View, Law, 4>,
}

impl Model for Board {
    ghost Value = { TableId };

    ghost view = { λ b. b.cell.table.shared.table_id };
}

/// The one who may post on the board from whose `new` it came. A contract sees it as a
/// `Posting`: the board, and all that was posted, the newest first.
#[derive(Drop)]
pub struct Poster {
    // what it has posted, in proofs alone: written by `post`
    pass: Pass<Posted, View>,
}

impl Model for Poster {
    ghost Value = { Posting };

    ghost view = { λ p. posting p.pass.table_id (cell_view p.pass).posted };

    ghost invariant = { λ p. IsPosting (cell_view p.pass) };
}

/// One who may look at the board from whose `new` it came, by splits or without. A contract
/// sees it as a `Looking`: the board, and the statuses that it has seen, the newest first.
#[derive(Drop)]
pub struct BoardPass {
    // what it has seen, in proofs alone: written by `look`
    pass: Pass<Posted, View>,
}

impl Model for BoardPass {
    ghost Value = { Looking };

    ghost view = { λ p. looking p.pass.table_id (cell_view p.pass).seen };

    ghost invariant = { λ p. cell_view p.pass ≡ looker (cell_view p.pass).seen };
}

impl Board {
    /// A board that shows `first`, its poster, and a pass that has seen nothing.
    pub fn new<R: Wait>(
        rt: &R,
        alloc: Global,
        first: Status,
    ) -> Result<(Board, Poster, BoardPass), NoMemory>
        ensures first { IfOk result (λ r. IsFirst r.0 first r.1 r.2) }
    {
        let (cell, mut pass) = RuledSeqCell::ruled(alloc, Posted(first))?;
        cell.swap_as::<Begin, R>(rt, &mut pass, Posted(first));
        let looks = cell.split_pass::<Copied>(&mut pass);
        Ok((Board { cell }, Poster { pass }, BoardPass { pass: looks }))
    }

    /// A second pass, which has seen as much. It takes no memory and never waits.
    pub fn split(&self, pass: &mut BoardPass) -> BoardPass
        requires board { pass.old.board ≡ self.now }
        ensures same { (pass.new ≡ pass.old) × (result ≡ pass.old) }
    {
        BoardPass {
            pass: self.cell.split_pass::<Copied>(&mut pass.pass),
        }
    }

    /// Posts a status, whose `seq` must be at least that of the last one; so none that was posted
    /// is newer than one after it (`falls`). It takes no memory.
    pub fn post<R: Wait>(&self, rt: &R, poster: &mut Poster, status: Status)
        requires board { poster.old.board ≡ self.now }
        requires later { MayFollow poster.old.posted status }
        ensures posted { poster.new ≡ posting poster.old.board (status ∷ poster.old.posted) }
        ensures falls { Falling poster.new.posted }
    {
        self.cell
            .swap_as::<Add, R>(rt, &mut poster.pass, Posted(status));
    }

    /// The status that the board shows: the first or a posted one, whose `seq` is at least that
    /// of any status that this pass has seen. The pass has then seen it too. It takes no memory.
    pub fn look<R: Wait>(&self, rt: &R, pass: &mut BoardPass) -> Status
        requires board { pass.old.board ≡ self.now }
        ensures seen { pass.new ≡ looking pass.old.board (result ∷ pass.old.seen) }
        ensures later { NotNewer pass.old.seen result }
    {
        self.cell.load_as::<See, R>(rt, &mut pass.pass).0
    }

    /// Ends a pass, and shows that each status which it has seen is the first or one that the
    /// poster posted, and so no newer than the last one posted (`latest`). It takes no memory.
    pub fn join<R: Wait>(&self, rt: &R, poster: &mut Poster, pass: BoardPass)
        requires board { (poster.old.board ≡ self.now) × (pass.board ≡ self.now) }
        ensures same { poster.new ≡ poster.old }
        ensures posted { (s : _) → Has pass.seen s → Has poster.new.posted s }
        ensures latest { (s : _) → Has pass.seen s → UpToFirst poster.new.posted s }
    {
        let BoardPass { pass: mut other } = pass;
        let moved = self.cell.split_pass::<Copied>(&mut other);
        self.cell.join_pass::<Told>(&mut poster.pass, moved);
        self.cell.load_as::<Learn, R>(rt, &mut poster.pass);
    }
}
