ghost use Rattle.mc_props.specs.Standard.{standard_of};
ghost use Rattle.mc_client.specs.Watches.{Fresh};

use mc_client::Client;
use mc_packet::Ending;
use mc_props::meanings::Standard;
use mc_props::{Facts, PropTable, Reads, fields};

/// The player is paused, or goes on.
pub fn set_pause<F: Reads<Standard>>(
    client: &mut Client,
    table: &PropTable<F, Standard>,
    facts: &mut Facts,
    pause: bool,
)
    requires { Fresh standard_of table.now facts.old client.old.watches }
    ensures { Fresh standard_of table.now facts.new client.new.watches }
{
    facts.pause = pause;
    client.flag(table, fields::PAUSE);
}

/// The cache reaches the end of its film.
pub fn reach_end<F: Reads<Standard>>(
    client: &mut Client,
    table: &PropTable<F, Standard>,
    facts: &mut Facts,
)
    requires { Fresh standard_of table.now facts.old client.old.watches }
    ensures { Fresh standard_of table.now facts.new client.new.watches }
{
    facts.cache.ending = Some(Ending::Clean);
    client.flag(table, fields::CACHE);
}
