// A lock whose entries hold values, a type that holds itself.
ghost use Rattle.std.specs.Prelude.{◌≡◌, ◌++◌, List, [], IfOk};
ghost use Rattle.mc_turn.specs.Workers.{GrewAs};
ghost use Rattle.turn_bench.specs.Settings.{Holds, IsSetTo, client_of, set_to};
ghost use Rattle.turn_bench.specs.declared.setting.Setting.{Setting};

use crate::setting::Setting;
use mc_turn::{Bell, Kept, NoMemory, Turn};
use mc_value::Value;
use std::alloc::Global;
use std::marker::Model;
use std::sync::Wait;

/// Settings, each with its client's number. A contract sees them as a list, the oldest first.
#[derive(Drop)]
pub struct Settings {
    // written by `set`, and by nothing else
    list: Vec<Setting>,
}

impl Model for Settings {
    ghost use Rattle.std.specs.Prelude.{List};
    ghost use Rattle.std.specs.Coded.{codes};
    ghost use Rattle.mc_value.specs.contracts.value.Value as value;
    ghost use Rattle.turn_bench.specs.declared.setting.Setting.{Setting};

    ghost Value = { List Setting };

    ghost view = { λ s. s.list.items };

    ghost coded = { Prim.hlevel (codes, value.the_row.coded) };
}

impl Kept for Settings {
    type Entry = Setting;

    ghost kept = { λ s. s };

    ghost caller = { client_of };

    fn length(&self) -> u64 {
        self.list.len() as u64
    }
}

impl Settings {
    /// No settings.
    pub fn new(alloc: Global) -> Settings
        ensures empty { result ≡ [] }
    {
        Settings {
            list: Vec::new(alloc),
        }
    }

    /// Adds a setting behind the others, and answers whether there was memory for it.
    pub fn set(&mut self, client: u32, value: Value) -> bool
        ensures added { self.new ≡ self.old ++ set_to result client value }
        ensures grows { GrewAs client_of (Holds value) client self.old self.new }
    {
        self.list.push(Setting { client, value }).is_ok()
    }
}

/// Sets a value under a lock that has one caller, and takes the lock down again: the closed lock's
/// journal is that setting, or nothing where there was no memory for it.
pub fn set_alone<R: Wait>(rt: &R, alloc: Global, value: Value) -> Result<Settings, NoMemory>
    ensures set { IfOk result (IsSetTo value) }
{
    let (turn, mut pass) = Turn::new(alloc, Settings::new(alloc), 1)?;
    let bell = Bell::new();
    let mut settings = turn.enter(rt, &mut pass, &bell);
    let _done = settings.set(0, value);
    turn.leave(&mut pass, settings);
    bell.ring(rt);
    Ok(turn.close(rt, pass, &bell))
}
