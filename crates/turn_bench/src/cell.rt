// A lock round a value that borrows: a log with its poster, and the board on which it posts.
ghost use Rattle.std.specs.Prelude.{◌≡◌, ◌<◌, length, IfOk, IfSome};
ghost use Rattle.mc_turn.specs.Workers.{Grew};
ghost use Rattle.turn_bench.specs.Cells.{AreIn, CellState, IsCell, cell_of};
ghost use Rattle.turn_bench.specs.Posts.{UpTo};
ghost use Rattle.turn_bench.specs.Work.{caller_of};

use crate::entry::Entry;
use crate::log::Log;
use crate::names::{BoardName, FilmName};
use crate::watch::status;
use mc_board::{Board, BoardPass, Poster};
use mc_turn::{Bell, Kept, NoMemory, Turn};
use std::alloc::Global;
use std::marker::{Brand, Model, PhantomData};
use std::sync::Wait;

/// A log that shows its length on a board. Its type names the film in which all its items lie, and
/// the board; so each turn knows both.
#[derive(Drop)]
pub struct FilmCell<'b, W: FilmName, K: BoardName> {
    // both written by `add` alone
    log: Log,
    poster: Poster,
    // lent by who made the lock, for as long as the lock lives
    board: &'b Board,
    of: PhantomData<(W, K)>,
}

impl<'b, W: FilmName, K: BoardName> Model for FilmCell<'b, W, K> {
    ghost Value = { CellState };

    ghost view = { λ c. cell_of c.log c.poster };

    ghost invariant = { λ c. IsCell W.film K.board c.board.now (cell_of c.log c.poster) };
}

impl<'b, W: FilmName, K: BoardName> Kept for FilmCell<'b, W, K> {
    type Entry = Entry;

    ghost kept = { λ c. c.log };

    ghost caller = { caller_of };

    fn length(&self) -> u64 {
        self.log.length()
    }
}

impl<'b, W: FilmName, K: BoardName> FilmCell<'b, W, K> {
    /// A log of no film's items yet, beside the board that the type names.
    pub fn new(log: Log, poster: Poster, board: &'b Board) -> FilmCell<'b, W, K>
        requires board { poster.board ≡ board.now }
        requires named { board.now ≡ K.board }
        requires posted { UpTo (length log) poster.posted }
        requires film { IfSome W.film (λ f. AreIn f log) }
        ensures value { result ≡ cell_of log poster }
    {
        FilmCell {
            log,
            poster,
            board,
            of: PhantomData,
        }
    }

    /// Adds a place of the film, and posts how many there are. Answers whether there was memory.
    pub fn add<R: Wait>(&mut self, rt: &R, caller: u32, item: u64) -> bool
        requires film { IfSome W.film (λ f. item < length f) }
        ensures grows { Grew caller_of caller self.old.log self.new.log }
    {
        let done = self.log.add(caller, item);
        let count = self.log.len() as u64;
        self.board.post(rt, &mut self.poster, status(count));
        done
    }

    /// The log and the poster, and what the type kept of them.
    pub fn into_parts(self) -> (Log, Poster)
        ensures log { result.0 ≡ self.entry.log }
        ensures film { IfSome W.film (λ f. AreIn f result.0) }
        ensures board { result.1.board ≡ K.board }
    {
        let FilmCell { log, poster, .. } = self;
        (log, poster)
    }
}

// One turn beside a board that the cell's type names.
fn turn_beside<W: FilmName, K: BoardName, R: Wait>(
    rt: &R,
    alloc: Global,
    item: u64,
    board: &Board,
    poster: Poster,
    looks: BoardPass,
) -> Result<Log, NoMemory>
    requires film { IfSome W.film (λ f. item < length f) }
    requires named { (board.now ≡ K.board) × (looks.board ≡ board.now) }
    requires poster { (poster.board ≡ board.now) × UpTo 0 poster.posted }
    ensures film { IfOk result (λ log. IfSome W.film (λ f. AreIn f log)) }
{
    let cell = FilmCell::<W, K>::new(Log::new(alloc), poster, board);
    let (turn, mut pass) = Turn::new(alloc, cell, 1)?;
    let bell = Bell::new();
    let mut cell = turn.enter(rt, &mut pass, &bell);
    let _done = cell.add(rt, 0, item);
    turn.leave(&mut pass, cell);
    bell.ring(rt);
    let (log, mut poster) = turn.close(rt, pass, &bell).into_parts();
    board.join(rt, &mut poster, looks);
    Ok(log)
}

/// Adds a place of the film under a lock that has one caller, and takes the lock down again: what
/// the lock's value holds is of the film that the type names, though nothing but the type says so.
pub fn place_in_film<W: FilmName, R: Wait>(
    rt: &R,
    alloc: Global,
    item: u64,
) -> Result<Log, NoMemory>
    requires film { IfSome W.film (λ f. item < length f) }
    ensures film { IfOk result (λ log. IfSome W.film (λ f. AreIn f log)) }
{
    let (board, poster, looks) = Board::new(rt, alloc, status(0))?;
    turn_beside::<W, Brand, R>(rt, alloc, item, &board, poster, looks)
}
