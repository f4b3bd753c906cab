ghost use Rattle.std.specs.Prelude.{◌≡◌, ◌<◌, ◌-◌, ◌^◌, ◌⊎◌};

use std::sync::{Condvar, Mutex, Wait};

/// A bell on which those who wait for a turn sleep. It counts how often it was rung.
///
/// Ring it after each [`leave`](crate::Turn::leave). No proof says that it wakes anybody: a lock
/// is as safe with a bell that nobody rings, and then those who wait may sleep for ever.
#[derive(Drop)]
pub struct Bell {
    count: Mutex<u64>,
    rung: Condvar,
}

impl Bell {
    /// A bell that was never rung.
    pub fn new() -> Bell {
        Bell {
            count: Mutex::new(0),
            rung: Condvar::new(),
        }
    }

    /// Counts one more, and wakes those who wait. The count stays at its last value, 2^64 - 1.
    pub fn ring<R: Wait>(&self, rt: &R) {
        {
            let mut count = self.count.lock(rt);
            *count = (*count).saturating_add(1);
        }
        self.rung.notify_all();
    }

    /// Waits until the count is past `seen`, and answers it. Nobody waits once the count is at
    /// its last value.
    pub fn wait_past<R: Wait>(&self, rt: &R, seen: u64) -> u64
        ensures past { (seen < result) ⊎ (result ≡ 2 ^ 64 - 1) }
    {
        let count = self.rung.wait_while(
            rt,
            self.count.lock(rt),
            |count| *count <= seen && *count < u64::MAX,
        );
        *count
    }
}
