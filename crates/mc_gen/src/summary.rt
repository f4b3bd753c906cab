ghost use Rattle.std.specs.Prelude.{◌≡◌, ◌++◌, string_bytes, IfOk, OnOk};
ghost use Rattle.mc_gen.specs.Summary.{counts_text, last_text, sums_text};

use mc_packet::NoMemory;
use std::alloc::Global;

/// What was found in a film.
#[derive(Clone, Copy, Debug, PartialEq, Eq)]
pub struct Sums {
    /// How many packets there are.
    pub packets: u64,
    /// How many octets their payloads have together.
    pub octets: u64,
    /// The greatest of their times, in nanoseconds; 0 without any.
    pub last: i64,
}

fn push_counts(text: &mut String, n: u32, packets: u64, octets: u64) -> Result<(), NoMemory>
    ensures { OnOk result (string_bytes text.new
        ≡ string_bytes text.old ++ counts_text n packets octets) }
{
    write!(text, "gen {n} packets {packets} octets {octets}")
}

fn push_last(text: &mut String, last: i64, status: u8) -> Result<(), NoMemory>
    ensures { OnOk result (string_bytes text.new
        ≡ string_bytes text.old ++ last_text last status) }
{
    write!(text, " last {last} status {status}\n")
}

/// The line that says what was found in the film of `n` pictures, and with which status it was
/// read: `gen 12 packets 36 octets 258 last 460000000 status 0`.
pub fn summary_line(alloc: Global, n: u32, sums: Sums, status: u8) -> Result<String, NoMemory>
    ensures { IfOk result (λ text. string_bytes text ≡ sums_text n sums status) }
{
    let mut text = String::new(alloc);
    push_counts(&mut text, n, sums.packets, sums.octets)?;
    push_last(&mut text, sums.last, status)?;
    Ok(text)
}
