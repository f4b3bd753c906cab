//! What the demuxer's cache tells.
ghost use Rattle.std.specs.Prelude.{◌≡◌, ◌<◌, ◌≤◌, ◌+◌, ◌&&◌, not, IfOk, OnErr, OnOk, Some, [], ◌∷◌, length, reverse, slice_get};
ghost use Rattle.mc_player.specs.Effects.{Write as MayWrite};
ghost use Rattle.mc_player.specs.Facts.{with_view};
ghost use Rattle.mc_player.specs.declared.record.CoreRecord.TheVariants.{Learned, Wrote as WroteRecord};
ghost use Rattle.mc_state.specs.Steps.{IsAsBefore, Wrote};
ghost use Rattle.mc_state.specs.Growth.{Adds, is_news, is_push};
ghost use Rattle.mc_state.specs.Pushing.{Within, coming};
ghost use Rattle.mc_state.specs.Stands.{IsQuiet};

use crate::state::State;
use mc_deeds::flag_all;
use mc_packet::CacheView;
use mc_player::CoreRecord;
use mc_props::fields::CACHE;
use mc_props::meanings::Meaning;
use mc_props::{Facts, Reads};
use mc_value::NoMemory;

fn still_due(restart: bool, playing: bool) -> bool
    ensures { result ≡ (restart && not playing) }
{
    restart && !playing
}

impl<F: Reads<M>, M: Meaning> State<F, M> {
    /// The view is a fact now; what observers have may be another value.
    pub fn learned(&mut self, by: u32, view: CacheView, told: CacheView)
        requires quiet { IsQuiet M.value self.old }
        requires same { told ≡ view }
        requires room { 0 < self.old.spare }
        ensures wrote { Wrote self.old self.new (Learned by view) }
        ensures facts { self.new.facts ≡ with_view self.old.facts view }
        ensures out { self.new.out ≡ self.old.out }
        ensures order { self.new.order ≡ self.old.order }
    {
        flag_all(
            &mut self.clients,
            &self.order,
            &self.table,
            &self.facts,
            CACHE,
        );
        self.restart = still_due(self.restart, view.playing);
        self.facts.cache = view;
        self.journal
            .push_reserved(CoreRecord::Learned { by, view: told });
    }

    /// The facts are written, where that is due.
    pub fn wrote(&mut self, by: u32, mask: u32, facts: Facts)
        requires due { slice_get (coming M.value self.old) 0 ≡ Some (MayWrite mask) }
        requires facts { facts ≡ self.old.facts }
        requires room { 0 < self.old.spare }
        ensures wrote { Wrote self.old self.new (WroteRecord by mask facts) }
        ensures within { Within 1 self.old self.new }
    {
        self.journal
            .push_reserved(CoreRecord::Wrote { by, mask, facts });
    }

    /// Makes room for two records for each client, and for some more.
    pub fn make_room_for_all(&mut self) -> Result<(), NoMemory>
        ensures same { IsAsBefore self.old self.new }
        ensures ok { OnOk result
            (length self.new.order + length self.new.order + 4 ≤ self.new.spare) }
    {
        let count = self.order.len();
        self.journal.reserve(count + count + 4)
    }
}
