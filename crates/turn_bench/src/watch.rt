ghost use Rattle.std.specs.Prelude.{◌≡◌, ◌+◌, ◌≤◌, IfOk};
ghost use Rattle.mc_board.specs.Statuses.{Has, NotNewer};
ghost use Rattle.turn_bench.specs.Posts.{UpTo};

use mc_board::{Board, BoardPass, Poster};
use mc_packet::{NoMemory, Status};
use std::alloc::Global;
use std::sync::Wait;
use std::sync::atomic::{AtomicBool, Ordering};
use std::thread;
use std::thread::Threads;

/// The status after so many records.
pub fn status(seq: u64) -> Status
    ensures seq { result.seq ≡ seq }
{
    Status {
        seq,
        forward: seq,
        back: seq,
        flags: 256,
    }
}

/// Posts the statuses of 1 to `count` records, or fewer once `stop` is set.
pub fn post_all<R: Wait>(
    rt: &R,
    board: &Board,
    mut poster: Poster,
    count: u64,
    stop: &AtomicBool,
) -> Poster
    requires board { poster.board ≡ board.now }
    requires start { UpTo 0 poster.posted }
    ensures board { result.board ≡ poster.board }
{
    for seq in 0..count {
        if stop.load(Ordering::SeqCst) {
            break;
        }
        board.post(rt, &mut poster, status(seq + 1));
    }
    poster
}

/// Looks so many times, once at least, and answers the last status seen. None is older than
/// the one before it.
pub fn watch<R: Wait>(rt: &R, board: &Board, mut pass: BoardPass, looks: u64) -> (BoardPass, Status)
    requires board { pass.board ≡ board.now }
    ensures board { result.0.board ≡ pass.board }
    ensures seen { Has result.0.seen result.1 }
    ensures latest { NotNewer result.0.seen result.1 }
{
    let mut last = board.look(rt, &mut pass);
    for _round in 1..looks {
        let next = board.look(rt, &mut pass);
        prove!(last.seq <= next.seq);
        last = next;
    }
    (pass, last)
}

/// Posts `posts` statuses while another thread looks `looks` times, and then stops the poster if
/// `stops` says so. Answers the status that the board shows in the end.
pub fn beside<R: Threads + Wait + Sync>(
    rt: &R,
    alloc: Global,
    posts: u64,
    looks: u64,
    stops: bool,
) -> Result<Status, NoMemory> {
    let (board, poster, mut pass) = Board::new(rt, alloc, status(0))?;
    let other = board.split(&mut pass);
    let stop = AtomicBool::new(false);
    let (wall, flag) = (&board, &stop);
    let (mut poster, other) = thread::join(
        rt,
        move || -> Poster
            requires { (poster.board ≡ wall.now) × UpTo 0 poster.posted }
            ensures { result.board ≡ poster.board }
        { post_all(rt, wall, poster, posts, flag) },
        move || -> BoardPass
            requires { other.board ≡ wall.now }
            ensures { result.board ≡ other.board }
        {
            let (other, _last) = watch(rt, wall, other, looks);
            flag.store(stops, Ordering::SeqCst);
            other
        },
    );
    board.join(rt, &mut poster, other);
    Ok(board.look(rt, &mut pass))
}

/// One pass looks at the first status, another at the second, which is posted in between, and is
/// joined to the poster; and then the first looks again.
pub fn look_thrice<R: Wait>(
    rt: &R,
    alloc: Global,
    first: Status,
    second: Status,
) -> Result<(Status, Status, Status), NoMemory>
    requires later { first.seq ≤ second.seq }
    ensures later { IfOk result (λ r. r.0.seq ≤ r.2.seq) }
{
    let (board, mut poster, mut pass) = Board::new(rt, alloc, first)?;
    let mut other = board.split(&mut pass);
    let one = board.look(rt, &mut pass);
    board.post(rt, &mut poster, second);
    let two = board.look(rt, &mut other);
    board.join(rt, &mut poster, other);
    Ok((one, two, board.look(rt, &mut pass)))
}
