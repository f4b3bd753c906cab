ghost use Rattle.std.specs.Prelude.{◌≡◌, ◌≤◌, ◌<◌, ◌^◌, ◌++◌, ◌-◌, IfOk, IfSome, OnOk, if◌then◌else◌, nat_le, Some, None, string_bytes};
ghost use Rattle.std.specs.Fmt.{decimal};
ghost use Rattle.std.specs.Option.{ok_or};
ghost use Rattle.mc_value.specs.declared.value.ValueError.TheVariants.{BadSeconds};
ghost use Rattle.mc_value.specs.Seconds.{ReadsBack, both, digit, fraction, micros_of, micros_text, seconds_of, seconds_text_of, sign_of, six_digits, three_digits, time_of, unsigned_seconds, whole_seconds};

use crate::number::read_number;
use crate::octets::find_octet;
use crate::text::{NoMemory, Text};
use crate::value::ValueError;
use std::alloc::Global;

/// The nanoseconds of a text of seconds: an optional `+` or `-`, 1 to 10 digits, and optionally a
/// point and 1 to 9 digits. `BadSeconds` for any other text, and for a time of more than 2^62
/// nanoseconds on either side of 0.
pub fn parse_seconds(text: &str) -> Result<i64, ValueError>
    ensures { result ≡ ok_or (seconds_of text.now) BadSeconds }
{
    read_seconds(text.as_bytes()).ok_or(ValueError::BadSeconds)
}

fn read_seconds(text: &[u8]) -> Option<i64>
    ensures { result ≡ seconds_of text.now }
{
    match text {
        [] => None,
        [b'-', rest @ ..] => time_in_range(true, read_unsigned(rest)),
        [b'+', rest @ ..] => time_in_range(false, read_unsigned(rest)),
        rest => time_in_range(false, read_unsigned(rest)),
    }
}

fn time_in_range(minus: bool, time: Option<u128>) -> Option<i64>
    requires { IfSome time (λ t. t < 2 ^ 100) }
    ensures { result ≡ time_of minus time }
{
    let time = time?;
    if time > 1 << 62 {
        return None;
    }
    let time = time as i64;
    Some(if minus { -time } else { time })
}

/// The nanoseconds of digits with or without a point.
fn read_unsigned(text: &[u8]) -> Option<u128>
    ensures value { result ≡ unsigned_seconds text.now }
    ensures bound { IfSome result (λ t. t < 2 ^ 100) }
{
    match find_octet(text, b'.') {
        None => read_whole(text),
        Some(point) => sum(
            read_whole(&text[..point]),
            read_fraction(&text[point + 1..]),
        ),
    }
}

fn sum(whole: Option<u128>, fraction: Option<u128>) -> Option<u128>
    requires small { IfSome whole (λ t. t < 2 ^ 98) }
    requires small_fraction { IfSome fraction (λ t. t < 2 ^ 98) }
    ensures value { result ≡ both whole fraction }
    ensures bound { IfSome result (λ t. t < 2 ^ 100) }
{
    Some(whole? + fraction?)
}

fn read_whole(digits: &[u8]) -> Option<u128>
    ensures value { result ≡ whole_seconds digits.now }
    ensures bound { IfSome result (λ t. t < 2 ^ 98) }
{
    if digits.len() > 10 {
        return None;
    }
    let seconds = read_number(digits)?;
    Some(seconds as u128 * 1_000_000_000)
}

fn read_fraction(digits: &[u8]) -> Option<u128>
    ensures value { result ≡ fraction digits.now }
    ensures bound { IfSome result (λ t. t < 2 ^ 98) }
{
    let number = read_number(digits)?;
    let unit = unit_of(digits.len())?;
    Some(number as u128 * unit as u128)
}

/// The nanoseconds of one in the last of so many decimals.
fn unit_of(decimals: usize) -> Option<u32>
    ensures value { result ≡ (if nat_le decimals 9 then Some (10 ^ (9 - decimals)) else None) }
    ensures bound { IfSome result (λ u. u ≤ 10 ^ 9) }
{
    match decimals {
        0 => Some(1_000_000_000),
        1 => Some(100_000_000),
        2 => Some(10_000_000),
        3 => Some(1_000_000),
        4 => Some(100_000),
        5 => Some(10_000),
        6 => Some(1_000),
        7 => Some(100),
        8 => Some(10),
        9 => Some(1),
        _ => None,
    }
}

/// A time in nanoseconds as seconds: the floor to microseconds, with six decimals, behind a `-`
/// where it is below 0. `parse_seconds` reads it back as that floor, where it is within its bounds.
pub fn seconds_text(alloc: Global, time: i64) -> Result<Text, NoMemory>
    ensures value { IfOk result (λ text. text ≡ seconds_text_of time) }
    ensures read_back { IfOk result (λ text. ReadsBack time text) }
{
    let mut out = String::new(alloc);
    push_sign(&mut out, time)?;
    push_micros(&mut out, micros(time))?;
    Ok(Text::from_string(out))
}

fn push_sign(out: &mut String, time: i64) -> Result<(), NoMemory>
    ensures { OnOk result (string_bytes out.new ≡ string_bytes out.old ++ sign_of time) }
{
    if time < 0 { out.push('-') } else { Ok(()) }
}

/// The microseconds of a time's floor, without its sign.
fn micros(time: i64) -> u64
    ensures { result ≡ micros_of time }
{
    if time < 0 {
        (-(time + 1)) as u64 / 1000 + 1
    } else {
        time as u64 / 1000
    }
}

fn push_micros(out: &mut String, micros: u64) -> Result<(), NoMemory>
    ensures { OnOk result (string_bytes out.new ≡ string_bytes out.old ++ micros_text micros) }
{
    push_natural(out, micros / 1_000_000)?;
    out.push('.')?;
    push_six(out, (micros % 1_000_000) as u32)
}

fn push_natural(out: &mut String, number: u64) -> Result<(), NoMemory>
    ensures { OnOk result (string_bytes out.new ≡ string_bytes out.old ++ decimal number) }
{
    let alloc = *out.allocator();
    let text = format!(in alloc; "{number}")?;
    out.push_str(text.as_str())
}

fn push_six(out: &mut String, number: u32) -> Result<(), NoMemory>
    ensures { OnOk result (string_bytes out.new ≡ string_bytes out.old ++ six_digits number) }
{
    push_three(out, number / 1000)?;
    push_three(out, number)
}

fn push_three(out: &mut String, number: u32) -> Result<(), NoMemory>
    ensures { OnOk result (string_bytes out.new ≡ string_bytes out.old ++ three_digits number) }
{
    out.push(last_digit(number / 100))?;
    out.push(last_digit(number / 10))?;
    out.push(last_digit(number))
}

fn last_digit(number: u32) -> char
    ensures digit { result ≡ digit number }
    ensures ascii { result < 128 }
{
    (b'0' + (number % 10) as u8) as char
}
