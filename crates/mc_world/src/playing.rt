//! The steps of the core.
ghost use Rattle.std.specs.Prelude.{◌≡◌, None};
ghost use Rattle.mc_world.specs.declared.moves.Reply.TheVariants as replies;
ghost use Rattle.mc_world.specs.Calls.{Calls, Creates, Destroys, DoesWork, Learns, Plays};
ghost use Rattle.mc_world.specs.Steps.{IsSame, LearnsView};

use crate::demuxing::still;
use crate::moves::{Reply, WorldError};
use crate::world::World;
use mc_dispatch::{Call, ClientNo};
use mc_packet::CacheView;
use mc_player::Order;
use mc_props::Reads;
use mc_props::meanings::Meaning;
use mc_value::Text;

impl<F: Reads<M>, M: Meaning> World<F, M> {
    pub(crate) fn create(&mut self, by: u32, name: Text, size: u32) -> Result<Reply, WorldError>
        ensures value { Plays (Creates by name size) replies.Create self.old result self.new }
        ensures demux { IsSame self.old.demux self.new.demux }
    {
        still(&self.demux);
        Ok(Reply::Create(self.core.create_client(by, name, size)?))
    }

    pub(crate) fn destroy(&mut self, by: u32, c: ClientNo) -> Result<Reply, WorldError>
        ensures value { Plays (Destroys M.value by c) (λ u. replies.Destroy)
            self.old result self.new }
        ensures demux { IsSame self.old.demux self.new.demux }
    {
        still(&self.demux);
        self.core.destroy(by, c)?;
        Ok(Reply::Destroy)
    }

    pub(crate) fn call(&mut self, by: u32, c: ClientNo, call: Call) -> Result<Reply, WorldError>
        ensures value { Plays (Calls M.value by c call) replies.Call self.old result self.new }
        ensures demux { IsSame self.old.demux self.new.demux }
    {
        still(&self.demux);
        Ok(Reply::Call(self.core.call(by, c, call)?))
    }

    // The core is shown a view of the demuxer's cache.
    fn learn_view(&mut self, by: u32, view: CacheView) -> Result<Reply, WorldError>
        ensures value { Plays (Learns by view) (λ u. replies.Learn) self.old result self.new }
        ensures demux { IsSame self.old.demux self.new.demux }
    {
        still(&self.demux);
        self.core.learn(by, view)?;
        Ok(Reply::Learn)
    }

    pub(crate) fn learn(&mut self, by: u32) -> Result<Reply, WorldError>
        ensures value { LearnsView by self.old result self.new }
        ensures demux { IsSame self.old.demux self.new.demux }
    {
        still(&self.demux);
        let view = self.demux.view()?;
        self.learn_view(by, view)
    }

    pub(crate) fn work(&mut self, by: u32) -> Result<Reply, WorldError>
        requires none_out { self.old.order ≡ None }
        ensures value { Plays (DoesWork M.value by) replies.Work self.old result self.new }
        ensures demux { IsSame self.old.demux self.new.demux }
    {
        still(&self.demux);
        let order = self.core.work(by)?;
        match order {
            Order::Idle | Order::Finished => {}
            _ => self.order = Some(order),
        }
        Ok(Reply::Work(order))
    }
}
