ghost use Rattle.std.specs.Prelude.{◌≡◌, ◌-ℤ◌, ◌*◌, ◌<◌, find, pos, neg_ℤ, FitsSigned};
ghost use Rattle.std.specs.Int.{w64};
ghost use Rattle.std.specs.Int.RustNames.{int_div};
ghost use Rattle.std.specs.List.{list_all};
ghost use Rattle.std.specs.Option.{option_copied};
ghost use Rattle.mc_dump.specs.Clustered.{is_multiple, scale_for, is_low, first_low, fits_in, not_negative};

use mc_packet::{Packet, Pos};

// Whether a scale divides a time.
fn divides(scale: u64, packet: &Packet) -> bool
    requires { 0 < scale }
    ensures { result ≡ is_multiple scale packet.now }
{
    packet.time as i128 % scale as i128 == 0
}

// Whether a scale divides every time.
fn divides_all(scale: u64, packets: &[Packet]) -> bool
    requires { 0 < scale }
    ensures { result ≡ list_all (is_multiple scale) packets.now }
{
    packets.iter().all(
        |packet|
            requires { 0 < scale }
        { divides(scale, packet) },
    )
}

/// The scale of the film that is written: the one that is handed in where it divides every time,
/// else a nanosecond.
pub(crate) fn scale_for(scale: u64, packets: &[Packet]) -> u64
    requires { 0 < scale }
    ensures value { result ≡ scale_for scale packets.now }
    ensures positive { 0 < result }
{
    if divides_all(scale, packets) {
        scale
    } else {
        1
    }
}

// The first time that a block of a film of that scale can have.
fn earliest(scale: u64) -> i128
    ensures { result ≡ neg_ℤ (pos (32768 * scale)) }
{
    -(32768 * scale as i128)
}

// Whether a packet is too early for a block, whose Cluster has a time of 0 at the least.
fn is_low(scale: u64, packet: &Packet) -> bool
    ensures { result ≡ is_low scale packet.now }
{
    (packet.time as i128) < earliest(scale)
}

// The first packet that is too early.
fn find_low(scale: u64, packets: &[Packet]) -> Option<&Packet>
    ensures { option_copied result ≡ find (is_low scale) packets.now }
{
    packets.iter().find(|packet| is_low(scale, packet))
}

/// The place of the first packet that is too early for a block of a film of that scale.
pub(crate) fn first_low(scale: u64, packets: &[Packet]) -> Option<Pos>
    ensures { result ≡ first_low scale packets.now }
{
    match find_low(scale, packets) {
        Some(packet) => Some(packet.pos),
        None => None,
    }
}

/// A time in whole units of a scale, rounded toward 0.
pub(crate) fn units(scale: u64, time: i64) -> i128
    requires { 0 < scale }
    ensures value { result ≡ int_div time (pos scale) }
    ensures small { FitsSigned w64 result }
{
    time as i128 / scale as i128
}

/// How far a time is from its Cluster's.
pub(crate) fn relative(time: u64, units: i128) -> i128
    requires { FitsSigned w64 units }
    ensures { result ≡ units -ℤ pos time }
{
    units - time as i128
}

/// Whether a block of a Cluster can say this time.
pub(crate) fn fits_in(time: u64, units: i128) -> bool
    requires { FitsSigned w64 units }
    ensures { result ≡ fits_in time units }
{
    let relative = relative(time, units);
    -32768 <= relative && relative <= 32767
}

/// The time of a Cluster that begins with a time.
pub(crate) fn not_negative(units: i128) -> u64
    requires { FitsSigned w64 units }
    ensures { result ≡ not_negative units }
{
    if units < 0 { 0 } else { units as u64 }
}
