//! Whether more is to be read ahead of the readers.
ghost use Rattle.std.specs.Prelude.{◌≡◌, ◌-ℤ◌, map};
ghost use Rattle.std.specs.List.{list_all};
ghost use Rattle.mc_journal.specs.Choices.{meets};
ghost use Rattle.mc_journal.specs.Films.{rank};
ghost use Rattle.mc_packet.specs.declared.packet.Packet.{Packet};
ghost use Rattle.mc_journal.specs.Views.{wants_more};
ghost use Rattle.mc_calls.specs.Demuxers.{IsDemux};
ghost use Rattle.mc_calls.specs.Jobs.{is_full, some_wants, wants};
ghost use Rattle.mc_calls.specs.Readings.{past};
ghost use Rattle.mc_calls.specs.State.{head_of};
ghost use Rattle.mc_calls.specs.Wanting.{held_from, is_near};

use crate::demux::Demux;
use crate::reading::{head_of, past};
use mc_cache::Cache;
use mc_packet::{Limits, Packet, Pos, TrackNo};

// How far a time is behind another, in nanoseconds.
fn lag(from: i64, time: i64) -> i128
    ensures { result ≡ time -ℤ from }
{
    time as i128 - from as i128
}

fn is_near(first: &Packet, limits: &Limits, packet: &Packet) -> bool
    ensures { result ≡ is_near first.now.time limits.now.readahead packet.now.time }
{
    lag(first.time, packet.time) < limits.readahead as i128
}

// Whether all that is held of a track at a place or behind it is less than what is read ahead
// behind a first packet. It stops at one that is not.
fn are_near(cache: &Cache, track: TrackNo, head: Pos, first: &Packet, limits: &Limits) -> bool
    ensures { result ≡ list_all (λ p. is_near first.now.time limits.now.readahead p.time)
        (held_from track head cache.now.current) }
{
    // for the proof alone: it says what is true of every cache
    let _mark = cache.mark();
    let mut place = head;
    while let Some(packet) = cache.first_at(track, place) {
        if !is_near(first, limits, packet) {
            return false;
        }
        place = past(packet.pos);
    }
    true
}

// Whether a track has nothing at a place, or less from there on than is read ahead.
#[tactic(auto, using(mc_calls::proofs::Nearness::none_near))]
fn wants_from(cache: &Cache, track: TrackNo, head: Pos) -> bool
    ensures { result
        ≡ wants_more cache.now.limits.readahead (held_from track head cache.now.current) }
{
    let limits = cache.limits();
    match cache.first_at(track, head) {
        Some(first) => are_near(cache, track, head, first, &limits),
        None => true,
    }
}

impl Demux {
    #[tactic(auto, using(mc_calls::proofs::Nearness::no_head, mc_calls::proofs::Nearness::a_head))]
    fn wants(&self, track: TrackNo) -> bool
        ensures { result ≡ wants self.now track }
    {
        match head_of(self.set, &self.heads, track) {
            Some(head) => wants_from(&self.cache, track, head),
            None => true,
        }
    }

    fn meets(&self, track: Option<TrackNo>) -> bool
        ensures { result ≡ meets track (wants self.now) }
    {
        match track {
            Some(track) => self.wants(track),
            None => false,
        }
    }

    // Video and audio are asked, a subtitle where it is alone.
    fn some_wants(&self) -> bool
        ensures { result ≡ some_wants self.now }
    {
        if self.set.video.is_some() || self.set.audio.is_some() {
            self.meets(self.set.video) || self.meets(self.set.audio)
        } else {
            self.meets(self.set.sub)
        }
    }

    // Whether the current range has its ending, or enough is read ahead.
    pub(crate) fn is_full(&self) -> bool
        ensures { result ≡ is_full self.now }
    {
        self.cache.ending().is_some()
            || self.cache.limits().forward <= self.cache.forward(&self.heads)
            || !self.some_wants()
    }
}
