ghost use Rattle.std.specs.Prelude.{◌≡◌, ◌+◌, ◌^◌, ◌<◌, ◌≤◌, ◌++◌, length, slice_range, Option, IfOk, OnOk};
ghost use Rattle.mc_ebml.specs.Element.{uint_of, head_at};
ghost use Rattle.mc_walk.specs.Blocks.{block_element_of};
ghost use Rattle.mc_walk.specs.Moves.{StartsBehind};
ghost use Rattle.mc_walk.specs.Walk.{stamped, blocked, time_of, passed, moved, headed, step_at, packets_in, walk, steps, Rises};

use mc_ebml::{EbmlError, read_head, read_uint};
use mc_packet::{Ending, Fault, Level, NoMemory, Packets};
use mc_walk::{
    Move, Plan, Role, Step, WalkError, block_element, cluster_time, last_ending, move_at, settled,
};
use std::alloc::{AllocError, Global};

// A Timestamp sets the Cluster's time.
fn time_step(plan: &Plan, place: u64, at: usize, stop: u64, level: Level) -> Step
    requires order { (place < at) × (at ≤ stop) }
    requires whole { stop ≤ length plan.now.octets }
    ensures value { let body = slice_range plan.now.octets at stop in
        result ≡ stamped place stop level (uint_of body) }
    ensures rises { Rises place (length plan.now.octets) result }
{
    let Level::Cluster { end, .. } = level else {
        return Step::On {
            to: stop,
            level,
            block: None,
        };
    };
    match read_uint(&plan.octets.as_slice()[at..stop as usize]) {
        Ok(time) => Step::On {
            to: stop,
            level: Level::Cluster {
                time: Some(time),
                end,
            },
            block: None,
        },
        Err(_) => Step::End(Ending::Damaged(place, Fault::BadUint)),
    }
}

// A block element gives its packets.
fn block_step(
    alloc: Global,
    plan: &Plan,
    place: u64,
    role: Role,
    at: usize,
    stop: u64,
    level: Level,
) -> Result<Step, NoMemory>
    requires order { (place < at) × (at ≤ stop) }
    requires whole { stop ≤ length plan.now.octets }
    ensures value { let body = slice_range plan.now.octets at stop in
        let film = plan.now in
        IfOk result (λ s. s ≡ blocked place stop level
        (block_element_of film.tracks film.scale place (time_of level) role body)) }
    ensures rises { IfOk result (Rises place (length plan.now.octets)) }
{
    let body = plan.octets.slice(at..stop as usize)?;
    let time = cluster_time(level);
    match block_element(alloc, &plan.tracks, plan.scale, place, time, role, &body) {
        Ok(packets) => Ok(Step::On {
            to: stop,
            level,
            block: Some(packets),
        }),
        Err(WalkError::Fault(fault)) => Ok(Step::End(Ending::Damaged(place, fault))),
        Err(WalkError::NoMemory) => Err(AllocError),
    }
}

// An element that lies in the film.
fn passed_step(
    alloc: Global,
    plan: &Plan,
    place: u64,
    role: Role,
    at: usize,
    stop: u64,
    level: Level,
) -> Result<Step, NoMemory>
    requires order { (place < at) × (at ≤ stop) }
    requires whole { stop ≤ length plan.now.octets }
    ensures value { let body = slice_range plan.now.octets at stop in
        IfOk result (λ s. s ≡ passed plan.now place role body stop level) }
    ensures rises { IfOk result (Rises place (length plan.now.octets)) }
{
    match role {
        Role::Other => Ok(Step::On {
            to: stop,
            level,
            block: None,
        }),
        Role::Timestamp => Ok(time_step(plan, place, at, stop, level)),
        Role::SimpleBlock | Role::BlockGroup => {
            block_step(alloc, plan, place, role, at, stop, level)
        }
    }
}

// What an element's head asks for.
fn moved_step(alloc: Global, plan: &Plan, place: u64, movement: Move) -> Result<Step, NoMemory>
    requires onward { StartsBehind place (length plan.now.octets) movement }
    ensures value { IfOk result (λ s. s ≡ moved plan.now place movement) }
    ensures rises { IfOk result (Rises place (length plan.now.octets)) }
{
    match movement {
        Move::Fault(fault) => Ok(Step::End(Ending::Damaged(place, fault))),
        Move::Enter { to, level } => Ok(Step::On {
            to,
            level,
            block: None,
        }),
        Move::Pass {
            role,
            at,
            stop,
            level,
        } => {
            if stop > plan.octets.len() as u64 {
                return Ok(Step::End(Ending::Cut(place)));
            }
            passed_step(alloc, plan, place, role, at as usize, stop, level)
        }
    }
}

// An element at a place where the walk goes on.
fn headed_step(alloc: Global, plan: &Plan, place: u64, level: Level) -> Result<Step, NoMemory>
    requires { place ≤ length plan.now.octets }
    ensures value { let head = head_at plan.now.octets place in
        IfOk result (λ s. s ≡ headed plan.now place level head) }
    ensures rises { IfOk result (Rises place (length plan.now.octets)) }
{
    match read_head(plan.octets.as_slice(), place as usize) {
        Ok(head) => {
            let at = head.body as u64;
            let movement = move_at(plan.segment_end, level, head.id, at, head.size);
            moved_step(alloc, plan, place, movement)
        }
        Err(EbmlError::Short) => Ok(Step::End(Ending::Cut(place))),
        Err(EbmlError::BadId) => Ok(Step::End(Ending::Damaged(place, Fault::BadId))),
        Err(_) => Ok(Step::End(Ending::Damaged(place, Fault::BadSize))),
    }
}

/// One step of the walk, at a place of the film.
#[tactic(auto, unfolding(mc_walk::specs::Walk::step_at))]
pub(crate) fn next_step(
    alloc: Global,
    plan: &Plan,
    place: u64,
    level: Level,
) -> Result<Step, NoMemory>
    requires { place ≤ length plan.now.octets }
    ensures value { IfOk result (λ s. s ≡ step_at plan.now place level) }
    ensures rises { IfOk result (Rises place (length plan.now.octets)) }
{
    let len = plan.octets.len() as u64;
    if plan.segment_end == Some(place) || place == len {
        return Ok(Step::End(last_ending(plan.segment_end, len, place, level)));
    }
    headed_step(alloc, plan, place, settled(level, place))
}

fn append_block(packets: &mut Packets, block: Option<Packets>) -> Result<(), NoMemory>
    ensures { OnOk result (packets.new ≡ packets.old ++ packets_in block) }
{
    match block {
        Some(more) => packets.append(more),
        None => Ok(()),
    }
}

/// The packets from a place on, and how the film ends.
pub(crate) fn walk_on(
    alloc: Global,
    plan: &Plan,
    from: u64,
    level: Level,
) -> Result<(Packets, Ending), NoMemory>
    requires { from ≤ length plan.now.octets }
    ensures { IfOk result (λ r. (r.0, r.1) ≡ walk (steps plan.now) plan.now from level) }
{
    let mut packets = Packets::new(alloc);
    let mut place = from;
    let mut level = level;
    let budget = plan.octets.len() + 1;
    for _ in 0..budget {
        match next_step(alloc, plan, place, level)? {
            Step::End(ending) => return Ok((packets, ending)),
            Step::On {
                to,
                level: inner,
                block,
            } => {
                place = to;
                level = inner;
                append_block(&mut packets, block)?;
            }
        }
    }
    Ok((packets, Ending::Clean))
}
