ghost use Rattle.std.specs.Prelude.{◌≡◌, ◌≤◌, IfSome, IsSomeAnd, Some};
ghost use Rattle.std.specs.Option.{option_copied};
ghost use Rattle.mc_journal.specs.Films.{rank};
ghost use Rattle.mc_queue.specs.Queue.{DropsTo, IsQueue};
ghost use Rattle.mc_range.specs.Growing.{AllSound, IsSound};
ghost use Rattle.mc_range.specs.Cutting.{Cuts, CutsOne, IsAhead, IsAheadIn, bound_under, cut_of, cut_at, cuttable, earlier_victim, first_cuttable, head_under, victim, victim_in, victim_under, weight_ahead, weight_from};
ghost use Rattle.mc_range.specs.Tracks.{queue_under};

use crate::queues::Queues;
use mc_packet::{Heads, Kind, Packet, Pos, TrackNo};
use mc_queue::{Queue, earlier, is_before, is_upto};

/// A drop: the packets of a track from one place up to, but without, another.
#[derive(Clone, Copy, Debug, PartialEq, Eq)]
pub struct Cut {
    /// The track whose queue is cut.
    pub track: TrackNo,
    /// Where its queue began.
    pub from: Pos,
    /// Where it begins now.
    pub to: Pos,
}

/// A kind whose queue may be cut, and the place of the first packet there.
#[derive(Clone, Copy, Debug, PartialEq, Eq)]
pub(crate) struct Victim {
    /// The kind of the track.
    pub kind: Kind,
    /// The place of its first packet.
    pub place: Pos,
}

// ---- from the heads on

fn weight_ahead(queue: &Option<Queue>, head: Option<Pos>) -> u64
    ensures { result ≡ weight_ahead head queue.now }
{
    match (queue, head) {
        (Some(queue), Some(head)) => queue.weight_from(head),
        _ => 0,
    }
}

/// The weight of the packets at the heads or behind them.
pub(crate) fn weight_from(queues: &Queues, heads: &Heads) -> u128
    ensures { result ≡ weight_from heads.now queues.now }
{
    weight_ahead(&queues.video, heads.video) as u128
        + (weight_ahead(&queues.audio, heads.audio) as u128
            + weight_ahead(&queues.sub, heads.sub) as u128)
}

fn look_ahead(queue: &mut Option<Queue>, head: Option<Pos>)
    ensures { queue.new ≡ queue.old }
{
    if let (Some(queue), Some(head)) = (queue, head) {
        queue.look_from(head);
    }
}

/// Lets `weight_from` answer for these heads without a walk.
pub(crate) fn look_from(queues: &mut Queues, heads: &Heads)
    ensures { queues.new ≡ queues.old }
{
    look_ahead(&mut queues.video, heads.video);
    look_ahead(&mut queues.audio, heads.audio);
    look_ahead(&mut queues.sub, heads.sub);
}

// ---- the victim

fn head_under(kind: Kind, heads: Heads) -> Option<Pos>
    ensures { result ≡ head_under kind heads }
{
    match kind {
        Kind::Video => heads.video,
        Kind::Audio => heads.audio,
        Kind::Sub => heads.sub,
    }
}

fn bound_under(kind: Kind, heads: Option<Heads>) -> Option<Pos>
    ensures { result ≡ bound_under kind heads }
{
    match heads {
        Some(heads) => head_under(kind, heads),
        None => None,
    }
}

fn queue_under(kind: Kind, queues: &Queues) -> &Option<Queue>
    ensures { result.now ≡ queue_under kind queues.now }
{
    match kind {
        Kind::Video => &queues.video,
        Kind::Audio => &queues.audio,
        Kind::Sub => &queues.sub,
    }
}

fn cuttable(head: Option<Pos>, packet: Option<&Packet>) -> Option<&Packet>
    ensures { option_copied result ≡ cuttable head (option_copied packet.entry) }
{
    match (head, packet) {
        (Some(head), Some(packet)) => if is_before(packet.pos, head) {
            Some(packet)
        } else {
            None
        },
        (_, packet) => packet,
    }
}

/// The first packet that may be dropped: with a head, one before it.
fn first_cuttable(head: Option<Pos>, queue: &Option<Queue>) -> Option<&Packet>
    ensures { option_copied result ≡ first_cuttable head queue.now }
{
    match queue {
        Some(queue) => cuttable(head, queue.first()),
        None => None,
    }
}

fn victim_under(kind: Kind, packet: Option<&Packet>) -> Option<Victim>
    ensures { result ≡ victim_under kind (option_copied packet.entry) }
{
    match packet {
        Some(packet) => Some(Victim {
            kind,
            place: packet.pos,
        }),
        None => None,
    }
}

fn victim_in(kind: Kind, heads: Option<Heads>, queues: &Queues) -> Option<Victim>
    ensures { result ≡ victim_in kind heads queues.now }
{
    let head = bound_under(kind, heads);
    victim_under(kind, first_cuttable(head, queue_under(kind, queues)))
}

fn earlier_victim(a: Option<Victim>, b: Option<Victim>) -> Option<Victim>
    ensures { result ≡ earlier_victim a b }
{
    match (a, b) {
        (None, b) => b,
        (Some(a), None) => Some(a),
        (Some(a), Some(b)) => Some(if is_upto(a.place, b.place) { a } else { b }),
    }
}

/// The kind whose first packet that may be dropped has the least place.
fn find_victim(heads: Option<Heads>, queues: &Queues) -> Option<Victim>
    ensures { result ≡ victim heads queues.now }
{
    let audio = victim_in(Kind::Audio, heads, queues);
    let sub = victim_in(Kind::Sub, heads, queues);
    earlier_victim(
        victim_in(Kind::Video, heads, queues),
        earlier_victim(audio, sub),
    )
}

// ---- the drop

fn cut_at(head: Option<Pos>, queue: &Queue) -> Pos
    ensures { result ≡ cut_at head queue.now }
{
    match head {
        Some(head) => earlier(head, queue.next_cut()),
        None => queue.next_cut(),
    }
}

#[tactic(auto, using(crate::proofs::Dropping::cut_low, crate::proofs::Dropping::cut_high))]
fn cut_queue(queue: &mut Queue, head: Option<Pos>) -> Cut
    requires sound { IsQueue queue.old }
    requires ahead { IsAhead head queue.old }
    ensures value { result ≡ cut_of head queue.old }
    ensures dropped { DropsTo (cut_at head queue.old) queue.old queue.new }
    ensures queue { IsQueue queue.new }
{
    let to = cut_at(head, queue);
    let cut = Cut {
        track: queue.track(),
        from: queue.from(),
        to,
    };
    queue.drop_upto(to);
    cut
}

fn cut_in(queue: &mut Option<Queue>, head: Option<Pos>) -> Option<Cut>
    requires sound { IsSound queue.old }
    requires ahead { IsAheadIn head queue.old }
    ensures value { CutsOne head queue.old queue.new result }
    ensures sound { IsSound queue.new }
{
    match queue {
        Some(queue) => Some(cut_queue(queue, head)),
        None => None,
    }
}

/// Drops the packets of the victim in front of its cut.
#[tactic(auto, using(crate::proofs::Dropping::victim_ahead))]
pub(crate) fn drop_next(queues: &mut Queues, heads: Option<Heads>) -> Option<Cut>
    requires sound { AllSound queues.old }
    ensures value { Cuts heads queues.old queues.new (victim heads queues.old) result }
    ensures sound { AllSound queues.new }
{
    let victim = find_victim(heads, queues)?;
    let head = bound_under(victim.kind, heads);
    match victim.kind {
        Kind::Video => cut_in(&mut queues.video, head),
        Kind::Audio => cut_in(&mut queues.audio, head),
        Kind::Sub => cut_in(&mut queues.sub, head),
    }
}
