//! Which tracks a list of numbers selects, or why it selects none.
ghost use Rattle.std.specs.Prelude.{◌≡◌, [], not, find, take, is_some, option_map};
ghost use Rattle.std.specs.List.{list_any};
ghost use Rattle.std.specs.Option.{option_copied};
ghost use Rattle.mc_tracks.specs.TrackList.{numbered};
ghost use Rattle.mc_tracks.specs.Selection.{choice_of, first_twin, is_coded, is_listed_as, is_twin, refusal_of};

use crate::list::{TrackList, is_of};
use mc_packet::{Choice, Kind, TrackNo, Why};

fn is_listed(list: &TrackList, no: TrackNo) -> bool
    ensures { result ≡ is_some (numbered no list.now) }
{
    list.get(no).is_some()
}

fn is_coded(list: &TrackList, no: TrackNo) -> bool
    ensures { result ≡ is_coded (numbered no list.now) }
{
    match list.get(no) {
        Some(track) => track.encoded,
        None => false,
    }
}

fn is_listed_as(list: &TrackList, kind: Kind, no: TrackNo) -> bool
    ensures { result ≡ is_listed_as kind (numbered no list.now) }
{
    match list.get(no) {
        Some(track) => is_of(kind, track.kind),
        None => false,
    }
}

// Whether two numbers are of different tracks of one kind.
fn is_twin(list: &TrackList, no: TrackNo, other: TrackNo) -> bool
    ensures { result ≡ is_twin list.now no other }
{
    match list.get(no) {
        Some(track) => no != other && is_listed_as(list, track.kind, other),
        None => false,
    }
}

fn has_twin(list: &TrackList, no: TrackNo, seen: &[TrackNo]) -> bool
    ensures { result ≡ list_any (is_twin list.now no) seen.now }
{
    seen.iter().any(|other| is_twin(list, no, *other))
}

// The first number whose kind another one before it has.
#[tactic(auto, using(crate::proofs::Twins::twin_next))]
fn first_twin(list: &TrackList, numbers: &[TrackNo]) -> Option<TrackNo>
    ensures { result ≡ first_twin list.now [] numbers.now }
{
    for (i, no) in numbers.iter().enumerate() {
        if has_twin(list, *no, &numbers[..i]) {
            return Some(*no);
        }
    }
    None
}

fn first_unlisted<'a>(list: &TrackList, numbers: &'a [TrackNo]) -> Option<&'a TrackNo>
    ensures { option_copied result ≡ find (λ n. not (is_some (numbered n list.now))) numbers.now }
{
    numbers.iter().find(|no| !is_listed(list, **no))
}

fn first_coded<'a>(list: &TrackList, numbers: &'a [TrackNo]) -> Option<&'a TrackNo>
    ensures { option_copied result ≡ find (λ n. is_coded (numbered n list.now)) numbers.now }
{
    numbers.iter().find(|no| is_coded(list, **no))
}

fn first_of<'a>(list: &TrackList, kind: Kind, numbers: &'a [TrackNo]) -> Option<&'a TrackNo>
    ensures { option_copied result
        ≡ find (λ n. is_listed_as kind (numbered n list.now)) numbers.now }
{
    numbers.iter().find(|no| is_listed_as(list, kind, **no))
}

impl TrackList {
    /// Why a list of numbers selects nothing, or `None` where it selects. `UnknownTrack`: one of them
    /// is not listed; else `Unsupported`: one is of a track whose blocks can't be read; else
    /// `TwoOfKind`: one is of a second track of a kind. The first such number is told.
    pub fn refusal_of(&self, numbers: &[TrackNo]) -> Option<Why>
        ensures { result ≡ refusal_of self.now numbers.now }
    {
        if let Some(no) = first_unlisted(self, numbers) {
            return Some(Why::UnknownTrack(*no));
        }
        if let Some(no) = first_coded(self, numbers) {
            return Some(Why::Unsupported(*no));
        }
        match first_twin(self, numbers) {
            Some(no) => Some(Why::TwoOfKind(no)),
            None => None,
        }
    }

    /// What a list of numbers selects: the first track of each kind.
    pub fn choice_of(&self, numbers: &[TrackNo]) -> Choice
        ensures { result ≡ choice_of self.now numbers.now }
    {
        Choice {
            video: first_of(self, Kind::Video, numbers).copied(),
            audio: first_of(self, Kind::Audio, numbers).copied(),
            sub: first_of(self, Kind::Sub, numbers).copied(),
        }
    }
}
