//! A demuxer that was just made.
ghost use Rattle.std.specs.Prelude.{◌≡◌, IfOk, IsSomeAnd, None, true, []};
ghost use Rattle.std.specs.Option.{option_map};
ghost use Rattle.mc_packet.specs.Choices.{is_distinct};
ghost use Rattle.mc_journal.specs.Films.{Film};
ghost use Rattle.mc_range.specs.Range.{IsBegun};
ghost use Rattle.mc_cache.specs.Cache.{IsCache};
ghost use Rattle.mc_calls.specs.Demuxers.{IsDemux};
ghost use Rattle.mc_calls.specs.Film.{StandsFor};
ghost use Rattle.mc_calls.specs.Opening.{HasTracks, MayOpen, Opens, first_starts, no_heads};
ghost use Rattle.mc_calls.specs.Outcomes.{head_at, heads_at};

use crate::demux::Demux;
use crate::seek::NOTHING;
use mc_cache::Cache;
use mc_calls::{DemuxError, Switch};
use mc_journal::{DRIVER, DemuxRecord};
use mc_packet::{Choice, Heads, Level, Limits, Mark, NoMemory, Pos, Starts, TrackNo};
use mc_tracks::TrackList;
use std::alloc::Global;

fn first_start(track: Option<TrackNo>) -> Option<u64>
    ensures { result ≡ option_map (λ track. 0) track }
{
    match track {
        Some(_) => Some(0),
        None => None,
    }
}

// Each selected track starts at the film's beginning, from where the film is read first.
fn first_starts(set: Choice) -> Starts
    ensures { result ≡ first_starts set }
{
    Starts {
        video: first_start(set.video),
        audio: first_start(set.audio),
        sub: first_start(set.sub),
        mark: Mark {
            pos: 0,
            level: Level::Segment,
        },
    }
}

fn first_head(start: Option<u64>) -> Option<Pos>
    ensures { result ≡ head_at start None }
{
    match start {
        Some(block) => Some(Pos { block, lane: 0 }),
        None => None,
    }
}

fn first_heads(starts: &Starts) -> Heads
    ensures { result ≡ heads_at starts.now no_heads }
{
    Heads {
        video: first_head(starts.video),
        audio: first_head(starts.audio),
        sub: first_head(starts.sub),
    }
}

// A cache whose one range begins at these starts.
#[tactic(auto, using(mc_calls::proofs::Opened::video_at, mc_calls::proofs::Opened::audio_at, mc_calls::proofs::Opened::sub_at, mc_calls::proofs::Opened::begins_there, mc_calls::proofs::Opened::none_beside))]
fn first_cache(
    alloc: Global,
    set: Choice,
    limits: Limits,
    starts: &Starts,
) -> Result<Cache, NoMemory>
    requires distinct { is_distinct set ≡ true }
    requires starts { starts.now ≡ first_starts set }
    ensures limits { IfOk result (λ c. c.limits ≡ limits) }
    ensures current { IfOk result (λ c. IsSomeAnd c.current (IsBegun set (first_starts set))) }
    ensures others { IfOk result (λ c. c.others ≡ []) }
    ensures cache { IfOk result IsCache }
{
    let mut cache = Cache::new(alloc, limits);
    let _none = cache.start_range(set, starts)?;
    Ok(cache)
}

impl Demux {
    /// A demuxer of a film of these tracks, which reads those of `set`: its current range begins and
    /// ends where the film begins, the readers stand there, and the journal tells what is selected.
    /// `NoMemory` is the only error.
    pub fn new(
        alloc: Global,
        list: TrackList,
        set: Choice,
        limits: Limits,
    ) -> Result<Demux, DemuxError>
        requires may { MayOpen list set limits }
        ensures value { Opens list set limits result }
        ensures film { (film : Film) → HasTracks list film → IfOk result (λ d. StandsFor film d) }
        ensures demux { IfOk result IsDemux }
    {
        let starts = first_starts(set);
        let cache = first_cache(alloc, set, limits, &starts)?;
        let mut journal = Vec::with_capacity(alloc, 64)?;
        journal.push_reserved(DemuxRecord::Opened { by: DRIVER, set });
        Ok(Demux {
            list,
            cache,
            set,
            heads: first_heads(&starts),
            seeking: None,
            waiting: NOTHING,
            switch: Switch { lead: None, at: 0 },
            failure: None,
            ended: NOTHING,
            number: 1,
            kept: None,
            fed: false,
            journal,
        })
    }
}
