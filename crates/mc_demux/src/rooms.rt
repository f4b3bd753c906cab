//! Room in the journal for all records of one call.
ghost use Rattle.std.specs.Prelude.{◌≤◌, ◌+◌, OnOk};
ghost use Rattle.mc_cache.specs.Cache.{count_of, ranges_of};
ghost use Rattle.mc_calls.specs.Demuxers.{IsDemux};
ghost use Rattle.mc_calls.specs.Keeping.{IsRoomy};

use crate::demux::Demux;
use mc_packet::NoMemory;

impl Demux {
    // Makes room in the journal for what a call may write that feeds, starts, joins or selects: its
    // own records, a record for each join, a drop for each track of each range, one for each packet
    // that is held or comes, and two records more. The journal doubles where it has too little.
    pub(crate) fn make_room_to_change(&mut self) -> Result<(), NoMemory>
        ensures same { IsRoomy self.old self.new }
        ensures ok { OnOk result (count_of (ranges_of self.new.cache) + 320 ≤ self.new.spare) }
        ensures demux { IsDemux self.new }
    {
        let held = self.cache.held() as usize;
        self.journal.reserve(held + 320)
    }
}
