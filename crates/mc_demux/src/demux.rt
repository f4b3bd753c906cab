//! A demuxer, and what it is asked without a change.
ghost use Rattle.std.specs.Prelude.{◌≡◌, Option, Some, None};
ghost use Rattle.mc_cache.specs.Cache.{mark_in};
ghost use Rattle.mc_calls.specs.State.{DemuxState};
ghost use Rattle.mc_calls.specs.Demuxers.{IsDemux};

use mc_cache::Cache;
use mc_calls::{Failure, Job, Switch, Target};
use mc_journal::{DemuxJournal, DemuxRecord};
use mc_packet::{Choice, Heads, Mark};
use mc_tracks::TrackList;
use std::marker::Model;

// The records while they are written: room for them is made beforehand.
pub(crate) type Records = Vec<DemuxRecord>;

/// A film's tracks, the cache of its packets, and the readers of the selected tracks: it tells
/// which job is to be done next, takes its outcome, gives each reader its packets, and keeps a
/// journal of all that happened.
#[derive(Drop)]
pub struct Demux {
    /// The film's tracks, since the opening.
    pub(crate) list: TrackList,
    /// The packets that are held. Outcomes, seeks and selections change it; each call that moves a
    /// reader or brings packets drops of it as the limit asks.
    pub(crate) cache: Cache,
    /// The selected tracks. A selection writes it.
    pub(crate) set: Choice,
    /// Where the reader of each kind stands in the current range. A read moves it behind the packet
    /// that it gave, a seek that is served to where the range is read from, found starts to those.
    pub(crate) heads: Heads,
    /// Where a seek goes that was sent. A seek writes it; found starts and a seek that is served
    /// take it away.
    pub(crate) seeking: Option<Target>,
    /// The selected tracks that have no queue yet. A selection writes them; found starts and a seek
    /// take them away.
    pub(crate) waiting: Choice,
    /// The last selection. It writes this.
    pub(crate) switch: Switch,
    /// What the last job came to, where it came to nothing. `failed` and `starved` write it; a seek
    /// and a selection take it away.
    pub(crate) failure: Option<Failure>,
    /// The tracks whose reader was told the end. A read writes them; a seek and a selection take
    /// them away.
    pub(crate) ended: Choice,
    /// The number of the next job, from 1. A seek, a selection that changes the set and each outcome
    /// that is taken raise it by 1.
    pub(crate) number: u64,
    /// The job that was given last, where its outcome is awaited. `next_job` writes it; whatever
    /// raises the number takes it away.
    pub(crate) kept: Option<Job>,
    /// Whether the last outcome was a part of the film that ends where the current range is read on.
    /// An outcome writes it; a seek and a selection take it away.
    pub(crate) fed: bool,
    /// All that happened, the oldest record first. Each call writes behind it.
    pub(crate) journal: Records,
}

impl Model for Demux {
    ghost use Rattle.std.specs.Prelude.{◌-◌, vec_capacity, length};
    ghost use Rattle.mc_calls.specs.State.{DemuxState};
    ghost use Rattle.mc_calls.specs.Demuxers.{IsDemux};

    ghost Value = { DemuxState };

    ghost view = { λ d. record {
      list = d.list;
      cache = d.cache;
      set = d.set;
      heads = d.heads;
      seeking = d.seeking;
      waiting = d.waiting;
      switch = d.switch;
      failure = d.failure;
      ended = d.ended;
      number = d.number;
      kept = d.kept;
      fed = d.fed;
      journal = d.journal.items;
      spare = vec_capacity d.journal - length d.journal.items;
    } };

    ghost invariant = { λ d. IsDemux (record {
      list = d.list;
      cache = d.cache;
      set = d.set;
      heads = d.heads;
      seeking = d.seeking;
      waiting = d.waiting;
      switch = d.switch;
      failure = d.failure;
      ended = d.ended;
      number = d.number;
      kept = d.kept;
      fed = d.fed;
      journal = d.journal.items;
      spare = vec_capacity d.journal - length d.journal.items;
    }) };
}

impl Demux {
    /// The selected tracks.
    pub fn selection(&self) -> Choice
        ensures value { result ≡ self.now.set }
        ensures demux { IsDemux self.now }
    {
        self.set
    }

    /// The job that was given last, where its outcome is still awaited.
    pub fn kept(&self) -> Option<Job>
        ensures value { result ≡ self.now.kept }
        ensures demux { IsDemux self.now }
    {
        self.kept
    }

    /// From where the current range is read on, `None` without one.
    pub fn mark(&self) -> Option<Mark>
        ensures value { result ≡ mark_in self.now.cache.current }
        ensures demux { IsDemux self.now }
    {
        self.cache.mark()
    }

    /// The records so far, the oldest first.
    pub fn journal(&self) -> &[DemuxRecord]
        ensures value { result.now ≡ self.now.journal }
        ensures demux { IsDemux self.now }
    {
        self.journal.as_slice()
    }

    /// The records, the oldest first.
    pub fn into_journal(self) -> DemuxJournal
        ensures value { result ≡ self.journal }
    {
        let Demux { journal, .. } = self;
        DemuxJournal::from_vec(journal)
    }
}
