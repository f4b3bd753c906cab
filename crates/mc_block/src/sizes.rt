ghost use Rattle.std.specs.Prelude.{◌≡◌, ℕ, zero, suc, ◌+◌, ◌-◌, ◌*◌, ◌^◌, ◌<◌, ◌≤◌, length, Option, Some, None, unwrap_or, pos, ◌+ℤ◌, ◌-ℤ◌, ◌≤ℤ◌, IfOk, IfSome};
ghost use Rattle.mc_block.specs.Frames.{front, xiph_size, first_size, changed_size, difference, next_size, coded_sizes, fixed_sizes, lace_sizes};

use crate::lace::Lacing;
use mc_ebml::{Coded, Size, read_coded, read_size};
use sqlite_items::Items;
use std::alloc::{AllocError, Global};

/// Sizes of frames. A wrong lace may tell any size, also one that no `u64` holds.
pub(crate) type Sizes = Items<u128>;

// A size in Xiph lacing, and how many octets it takes.
fn xiph_size(octets: &[u8]) -> Option<(u128, usize)>
    ensures value { front octets.now result ≡ xiph_size octets.now }
    ensures bounds { IfSome result
        (λ x. (0 < x.1) × (x.1 ≤ length octets.now) × (x.0 ≤ 255 * x.1)) }
{
    let mut size = 0;
    for (i, b) in octets.iter().enumerate() {
        size += *b as u128;
        if *b < 255 {
            return Some((size, i + 1));
        }
    }
    None
}

// The first size in EBML lacing, and how many octets it takes.
fn first_size(octets: &[u8]) -> Option<(u128, usize)>
    ensures value { front octets.now result ≡ first_size octets.now }
    ensures bounds { IfSome result (λ x. (0 < x.1) × (x.1 ≤ length octets.now) × (x.0 < 2 ^ 56)) }
{
    match read_size(octets, 0) {
        Ok((Size::Known(size), taken)) => Some((size as u128, taken)),
        _ => None,
    }
}

// The middle of the values that so many octets can code.
fn middle(width: usize) -> i128
    requires { (1 ≤ width) × (width ≤ 8) }
    ensures value { result ≡ pos (2 ^ (7 * width - 1) - 1) }
    ensures bounds { (pos 0 ≤ℤ result) × (result ≤ℤ pos (2 ^ 56)) }
{
    match width {
        1 => 0x3f,
        2 => 0x1fff,
        3 => 0xf_ffff,
        4 => 0x7ff_ffff,
        5 => 0x3_ffff_ffff,
        6 => 0x1ff_ffff_ffff,
        7 => 0xffff_ffff_ffff,
        _ => 0x7f_ffff_ffff_ffff,
    }
}

// How much larger a frame is than the one before it.
fn difference(coded: Coded) -> i128
    requires wide { (1 ≤ coded.width) × (coded.width ≤ 8) }
    requires small { coded.value < 2 ^ 56 }
    ensures value { result ≡ difference coded }
    ensures below { result ≤ℤ pos (2 ^ 56) }
{
    coded.value as i128 - middle(coded.width)
}

// The size of the frame after one of that size in EBML lacing, and how many octets it takes.
fn changed_size(size: u128, octets: &[u8]) -> Option<(u128, usize)>
    requires { size < 2 ^ 100 }
    ensures value { front octets.now result ≡ changed_size size octets.now }
    ensures bounds { IfSome result
        (λ x. (0 < x.1) × (x.1 ≤ length octets.now) × (x.0 ≤ size + 2 ^ 56)) }
{
    let coded = read_coded(octets, 0).ok()?;
    let changed = size as i128 + difference(coded);
    if changed < 0 {
        None
    } else {
        Some((changed as u128, coded.width))
    }
}

// The next size of a lace, and how many octets it takes.
pub(crate) fn next_size(
    lacing: Lacing,
    before: Option<u128>,
    octets: &[u8],
) -> Option<(u128, usize)>
    requires { unwrap_or before 0 < 2 ^ 100 }
    ensures value { front octets.now result ≡ next_size lacing before octets.now }
    ensures bounds { IfSome result
        (λ x. (0 < x.1) × (x.1 ≤ length octets.now) × (x.0 ≤ unwrap_or before 0 + 2 ^ 72)) }
{
    match (lacing, before) {
        (Lacing::Ebml, None) => first_size(octets),
        (Lacing::Ebml, Some(size)) => changed_size(size, octets),
        _ => xiph_size(octets),
    }
}

// The sizes of the first n frames, and how many octets they take.
fn coded_sizes(
    alloc: Global,
    lacing: Lacing,
    n: u8,
    octets: &[u8],
) -> Result<Option<(Sizes, usize)>, AllocError>
    ensures value { IfOk result
        (λ found. front octets.now found ≡ coded_sizes lacing n None octets.now) }
    ensures bounds { IfOk result
        (λ found. IfSome found (λ x. (x.1 ≤ length octets.now) × (length x.0 ≡ n))) }
{
    let mut sizes = Sizes::new(alloc);
    let mut before = None;
    let mut at = 0;
    for _ in 0..n {
        let Some((size, taken)) = next_size(lacing, before, octets.split_at(at).1) else {
            return Ok(None);
        };
        sizes.push(size)?;
        before = Some(size);
        at += taken;
    }
    Ok(Some((sizes, at)))
}

// The sizes of the first n of frames of one size.
fn fixed_sizes(alloc: Global, n: u8, octets: &[u8]) -> Result<Option<(Sizes, usize)>, AllocError>
    ensures value { IfOk result (λ found. front octets.now found ≡ fixed_sizes n octets.now) }
    ensures bounds { IfOk result
        (λ found. IfSome found (λ x. (x.1 ≤ length octets.now) × (length x.0 ≡ n))) }
{
    let count = n as usize + 1;
    if octets.len() % count != 0 {
        return Ok(None);
    }
    let size = (octets.len() / count) as u128;
    let sizes = vec![in alloc; size; n as usize]?;
    Ok(Some((Sizes::from_vec(sizes), 0)))
}

/// The sizes of all frames of a lace but the last, and how many octets they take.
pub(crate) fn lace_sizes(
    alloc: Global,
    lacing: Lacing,
    n: u8,
    octets: &[u8],
) -> Result<Option<(Sizes, usize)>, AllocError>
    ensures value { IfOk result (λ found. front octets.now found ≡ lace_sizes lacing n octets.now) }
    ensures bounds { IfOk result
        (λ found. IfSome found (λ x. (x.1 ≤ length octets.now) × (length x.0 ≡ n))) }
{
    match lacing {
        Lacing::Fixed => fixed_sizes(alloc, n, octets),
        _ => coded_sizes(alloc, lacing, n, octets),
    }
}
