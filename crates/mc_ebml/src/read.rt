ghost use Rattle.std.specs.Prelude.{◌≡◌, ◌+◌, ◌-◌, ◌*◌, ◌%◌, ◌^◌, ◌<◌, ◌≤◌, length, IfOk, MatchResult, position, ◌==◌, Ok, Err};
ghost use Rattle.std.specs.List.{before_first, position_or_len};
ghost use Rattle.mc_ebml.specs.Element.{width, size_of, id_at, coded_at, size_at, head_at, uint_of, text_of, whole_text, IsSmall};

use byteorder::{BigEndian, ByteOrder};

/// The data size of an element (RFC 8794, section 6).
#[derive(Clone, Copy, Debug, PartialEq, Eq)]
pub enum Size {
    /// So many octets, fewer than 2^56.
    Known(u64),
    /// All value bits are ones.
    Unknown,
}

/// The head of an element (RFC 8794, sections 5 and 6).
#[derive(Clone, Copy, Debug, PartialEq, Eq)]
pub struct Head {
    /// Its ID with the marker bit, of one to four octets.
    pub id: u32,
    /// The size of its body.
    pub size: Size,
    /// The offset at which its body begins, counted as the offset that was handed in.
    pub body: usize,
}

/// A number coded like a size (RFC 8794, section 4).
#[derive(Clone, Copy, Debug, PartialEq, Eq)]
pub struct Coded {
    /// The number without its marker bit, below 2^56.
    pub value: u64,
    /// How many octets it takes, from 1 to 8.
    pub width: usize,
}

/// Why a part of an element cannot be read.
#[derive(Clone, Copy, Debug, PartialEq, Eq)]
pub enum EbmlError {
    /// Octets are wanting.
    Short,
    /// An ID of more than 4 octets: its first octet is below 0x10.
    BadId,
    /// A coded number of more than 8 octets: its first octet is 0.
    BadSize,
    /// An unsigned integer of more than 8 octets.
    BadUint,
    /// A text that is not UTF-8.
    BadText,
}

// How many octets a coded number takes that begins with this one.
fn width_of(first: u8) -> usize
    ensures value { result ≡ width first }
    ensures bounds { (1 ≤ result) × (result ≤ 8) }
{
    match first {
        128.. => 1,
        64..=127 => 2,
        32..=63 => 3,
        16..=31 => 4,
        8..=15 => 5,
        4..=7 => 6,
        2..=3 => 7,
        _ => 8,
    }
}

/// The ID at offset `at`, and the offset behind it (RFC 8794, section 5).
///
/// `BadId` exactly where the first octet is below 0x10, `Short` exactly where octets are wanting.
#[tactic(auto, unfolding(crate::specs::Element::id_at))]
pub fn read_id(bytes: &[u8], at: usize) -> Result<(u32, usize), EbmlError>
    requires { at ≤ length bytes.now }
    ensures value { result ≡ id_at bytes.now at }
    ensures bounds { IfOk result (λ x. (at < x.1) × (x.1 ≤ length bytes.now)) }
{
    let (_, rest) = bytes.split_at(at);
    let Some(first) = rest.first() else {
        return Err(EbmlError::Short);
    };
    if *first < 16 {
        return Err(EbmlError::BadId);
    }
    let width = width_of(*first);
    if rest.len() < width {
        return Err(EbmlError::Short);
    }
    Ok((BigEndian::read_uint(rest, width) as u32, at + width))
}

// The largest value of a coded number of so many octets.
pub(crate) fn all_ones(width: usize) -> u64
    requires { (1 ≤ width) × (width ≤ 8) }
    ensures value { result ≡ 2 ^ (7 * width) - 1 }
    ensures small { result < 2 ^ 56 }
{
    match width {
        1 => 0x7f,
        2 => 0x3fff,
        3 => 0x1f_ffff,
        4 => 0xfff_ffff,
        5 => 0x7_ffff_ffff,
        6 => 0x3ff_ffff_ffff,
        7 => 0x1_ffff_ffff_ffff,
        _ => 0xff_ffff_ffff_ffff,
    }
}

/// The number coded like a size at offset `at`, as sizes, a block's track number and the sizes of
/// an EBML lace are (RFC 8794, section 4).
///
/// `BadSize` exactly where the first octet is 0, `Short` exactly where octets are wanting.
#[tactic(auto, unfolding(crate::specs::Element::coded_at))]
pub fn read_coded(bytes: &[u8], at: usize) -> Result<Coded, EbmlError>
    requires { at ≤ length bytes.now }
    ensures value { result ≡ coded_at bytes.now at }
    ensures bounds { IfOk result
        (λ x. (at + x.width ≤ length bytes.now) × (1 ≤ x.width) × (x.width ≤ 8)) }
    ensures small { IfOk result (λ x. x.value < 2 ^ 56) }
{
    let (_, rest) = bytes.split_at(at);
    let Some(first) = rest.first() else {
        return Err(EbmlError::Short);
    };
    if *first == 0 {
        return Err(EbmlError::BadSize);
    }
    let width = width_of(*first);
    if rest.len() < width {
        return Err(EbmlError::Short);
    }
    Ok(Coded {
        value: unmarked(BigEndian::read_uint(rest, width), width),
        width,
    })
}

// The value bits of a coded number.
fn unmarked(number: u64, width: usize) -> u64
    requires { (1 ≤ width) × (width ≤ 8) }
    ensures value { result ≡ number % 2 ^ (7 * width) }
    ensures small { result < 2 ^ 56 }
{
    number % (all_ones(width) + 1)
}

/// The data size at offset `at`, and the offset behind it (RFC 8794, section 6).
///
/// `BadSize` exactly where the first octet is 0, `Short` exactly where octets are wanting.
#[tactic(auto, unfolding(crate::specs::Element::size_at))]
pub fn read_size(bytes: &[u8], at: usize) -> Result<(Size, usize), EbmlError>
    requires { at ≤ length bytes.now }
    ensures value { result ≡ size_at bytes.now at }
    ensures bounds { IfOk result (λ x. (at < x.1) × (x.1 ≤ length bytes.now)) }
    ensures small { IfOk result (λ x. IsSmall x.0) }
{
    let coded = read_coded(bytes, at)?;
    Ok((size_with(coded), at + coded.width))
}

// A size whose value bits are all ones is unknown.
fn size_with(coded: Coded) -> Size
    requires wide { (1 ≤ coded.width) × (coded.width ≤ 8) }
    requires small { coded.value < 2 ^ 56 }
    ensures value { result ≡ size_of coded }
    ensures small { IsSmall result }
{
    if coded.value == all_ones(coded.width) {
        Size::Unknown
    } else {
        Size::Known(coded.value)
    }
}

/// The head of the element at offset `at` (RFC 8794, sections 5 and 6).
///
/// A fault of the ID comes before one of the size.
#[tactic(auto, unfolding(crate::specs::Element::head_at))]
pub fn read_head(bytes: &[u8], at: usize) -> Result<Head, EbmlError>
    requires { at ≤ length bytes.now }
    ensures value { result ≡ head_at bytes.now at }
    ensures bounds { IfOk result (λ x. (at < x.body) × (x.body ≤ length bytes.now)) }
    ensures small { IfOk result (λ x. IsSmall x.size) }
{
    let (id, at) = read_id(bytes, at)?;
    let (size, body) = read_size(bytes, at)?;
    Ok(Head { id, size, body })
}

/// An unsigned integer, the highest octet first (RFC 8794, section 7.2); without an octet it is 0.
///
/// `BadUint` exactly where it has more than 8 octets.
#[tactic(auto, unfolding(crate::specs::Element::uint_of))]
pub fn read_uint(body: &[u8]) -> Result<u64, EbmlError>
    ensures { result ≡ uint_of body.now }
{
    match body.len() {
        0 => Ok(0),
        width @ 1..=8 => Ok(BigEndian::read_uint(body, width)),
        _ => Err(EbmlError::BadUint),
    }
}

/// A text (RFC 8794, sections 7.4 and 7.5): what stands before the first zero octet.
///
/// `BadText` exactly where that part is not UTF-8.
#[tactic(auto, unfolding(crate::specs::Element::text_of))]
pub fn read_text(body: &[u8]) -> Result<&str, EbmlError>
    ensures { MatchResult result
        (λ s. text_of body.now ≡ Ok s.now)
        (λ e. text_of body.now ≡ Err e) }
{
    checked_text(before_zero(body))
}

// What stands before the first zero octet, or all where there is none.
fn before_zero(body: &[u8]) -> &[u8]
    ensures { result.now ≡ before_first (λ b. b == 0) body.now }
{
    body.split_at(zero_place(body)).0
}

// The place of the first zero octet, or the end.
fn zero_place(body: &[u8]) -> usize
    ensures value { result ≡ position_or_len (λ b. b == 0) body.now }
    ensures within { result ≤ length body.now }
{
    first_zero(body).unwrap_or(body.len())
}

// The place of the first zero octet.
fn first_zero(body: &[u8]) -> Option<usize>
    ensures { result ≡ position (λ b. b == 0) body.now }
{
    body.iter().position(|b| *b == 0)
}

// The octets as a text.
#[tactic(auto, using(crate::proofs::Texts::as_text))]
fn checked_text(octets: &[u8]) -> Result<&str, EbmlError>
    ensures { MatchResult result
        (λ s. whole_text octets.now ≡ Ok s.now)
        (λ e. whole_text octets.now ≡ Err e) }
{
    match std::str::from_utf8(octets) {
        Ok(text) => Ok(text),
        Err(_) => Err(EbmlError::BadText),
    }
}
