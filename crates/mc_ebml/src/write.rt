ghost use Rattle.std.specs.Prelude.{◌≡◌, ◌+◌, ◌-◌, ◌*◌, ◌^◌, ◌<◌, ◌≤◌, ◌++◌, length, drop, IsTrue, OnOk, OnErr, Ok, vec_len, vec_capacity};
ghost use Rattle.std.specs.Prelude.{not, ◌==◌};
ghost use Rattle.std.specs.List.{list_any};
ghost use Rattle.byteorder.specs.Endian.{big_bytes};
ghost use Rattle.mc_ebml.specs.Written.{is_id, octets_of, coded_width, coded_octets, marked, IsSize, size_width, size_octets, head_octets, element_octets, has_no_zero, HasElement, HasCoded, HasHead, HasText, HasUint, uint_octets, text_octets};

use crate::read::{Size, all_ones};
use byteorder::{BigEndian, ByteOrder};
use std::alloc::AllocError;

/// A call wanted memory that was not there.
pub type NoMemory = AllocError;

// The fewest octets that hold a number, one at the least.
fn octets_of(n: u64) -> usize
    ensures value { result ≡ octets_of n }
    ensures bounds { (1 ≤ result) × (result ≤ 8) }
    ensures holds { n < 256 ^ result }
{
    match n {
        ..=0xff => 1,
        ..=0xffff => 2,
        ..=0xff_ffff => 3,
        ..=0xffff_ffff => 4,
        ..=0xff_ffff_ffff => 5,
        ..=0xffff_ffff_ffff => 6,
        ..=0xff_ffff_ffff_ffff => 7,
        _ => 8,
    }
}

// The fewest octets whose value bits hold a number.
fn coded_width(n: u64) -> usize
    requires { n < 2 ^ 56 }
    ensures value { result ≡ coded_width n }
    ensures bounds { (1 ≤ result) × (result ≤ 8) }
    ensures holds { n < 2 ^ (7 * result) }
{
    match n {
        ..=0x7f => 1,
        ..=0x3fff => 2,
        ..=0x1f_ffff => 3,
        ..=0xfff_ffff => 4,
        ..=0x7_ffff_ffff => 5,
        ..=0x3ff_ffff_ffff => 6,
        ..=0x1_ffff_ffff_ffff => 7,
        _ => 8,
    }
}

// Appends the lowest octets of a number, the highest of them first.
fn push_number(out: &mut Vec<u8>, n: u64, width: usize) -> Result<(), NoMemory>
    requires wide { (1 ≤ width) × (width ≤ 8) }
    requires fits { n < 256 ^ width }
    ensures ok { OnOk result (out.new.items ≡ out.old.items ++ big_bytes width n) }
    ensures err { OnErr result (out.new.items ≡ out.old.items) }
    ensures full { OnErr result (vec_capacity out.old < vec_len out.old + width) }
    ensures capacity { vec_capacity out.old ≤ vec_capacity out.new }
{
    let mut octets = [0u8; 8];
    BigEndian::write_uint(&mut octets, n, width);
    push_octets(out, &octets[..width])
}

// Appends octets.
fn push_octets(out: &mut Vec<u8>, octets: &[u8]) -> Result<(), NoMemory>
    ensures ok { OnOk result (out.new.items ≡ out.old.items ++ octets.now) }
    ensures err { OnErr result (out.new.items ≡ out.old.items) }
    ensures full { OnErr result (vec_capacity out.old < vec_len out.old + length octets.now) }
    ensures capacity { vec_capacity out.old ≤ vec_capacity out.new }
{
    out.extend_from_slice(octets)
}

// Appends a number behind its marker bit.
fn push_marked(out: &mut Vec<u8>, n: u64, width: usize) -> Result<(), NoMemory>
    requires wide { (1 ≤ width) × (width ≤ 8) }
    requires fits { n < 2 ^ (7 * width) }
    ensures ok { OnOk result (out.new.items ≡ out.old.items ++ marked width n) }
    ensures err { OnErr result (out.new.items ≡ out.old.items) }
    ensures full { OnErr result (vec_capacity out.old < vec_len out.old + width) }
    ensures capacity { vec_capacity out.old ≤ vec_capacity out.new }
{
    push_number(out, all_ones(width) + 1 + n, width)
}

// How many octets a size takes.
fn size_width(size: Size) -> usize
    requires { IsSize size }
    ensures value { result ≡ size_width size }
    ensures bounds { (1 ≤ result) × (result ≤ 8) }
{
    match size {
        Size::Unknown => 1,
        Size::Known(n) => coded_width(n + 1),
    }
}

// Appends a size.
fn push_size(out: &mut Vec<u8>, size: Size) -> Result<(), NoMemory>
    requires { IsSize size }
    ensures ok { OnOk result (out.new.items ≡ out.old.items ++ size_octets size) }
    ensures err { OnErr result (out.new.items ≡ out.old.items) }
    ensures full { OnErr result (vec_capacity out.old < vec_len out.old + size_width size) }
    ensures capacity { vec_capacity out.old ≤ vec_capacity out.new }
{
    match size {
        Size::Unknown => push_number(out, 0xff, 1),
        Size::Known(n) => push_marked(out, n, coded_width(n + 1)),
    }
}

/// Appends a number coded like a size, in the fewest octets whose value bits hold it, as a block's
/// track number is (RFC 8794, section 4). All its value bits may be ones. `read_coded` gives it
/// back.
///
/// `NoMemory` comes only where the room for it was not there, and leaves the content as it was.
#[tactic(auto, unfolding(crate::specs::Written::coded_octets))]
pub fn write_coded(out: &mut Vec<u8>, n: u64) -> Result<(), NoMemory>
    requires { n < 2 ^ 56 }
    ensures ok { OnOk result (out.new.items ≡ out.old.items ++ coded_octets n) }
    ensures err { OnErr result (out.new.items ≡ out.old.items) }
    ensures full { OnErr result
        (vec_capacity out.old < vec_len out.old + length (coded_octets n)) }
    ensures capacity { vec_capacity out.old ≤ vec_capacity out.new }
    ensures reads_back { OnOk result (HasCoded out.old.items out.new.items n) }
{
    push_marked(out, n, coded_width(n))
}

/// How many octets `write_coded` appends.
#[tactic(auto, unfolding(crate::specs::Written::coded_octets))]
pub fn coded_len(n: u64) -> usize
    requires { n < 2 ^ 56 }
    ensures value { result ≡ length (coded_octets n) }
    ensures bounds { (1 ≤ result) × (result ≤ 8) }
{
    coded_width(n)
}

/// Appends the head of an element (RFC 8794, sections 5 and 6): its ID, and its size in the fewest
/// octets, of which one is one more where all value bits would be ones. An unknown size is the
/// octet FF. Whatever follows, `read_head` gives it back.
///
/// `NoMemory` comes only where the room for it was not there, and leaves the content as it was.
#[tactic(auto, unfolding(crate::specs::Written::head_octets))]
pub fn write_head(out: &mut Vec<u8>, id: u32, size: Size) -> Result<(), NoMemory>
    // an ID that can be read, and a size that can be written
    requires id { IsTrue (is_id id) }
    requires size { IsSize size }
    // what is appended, or nothing where the room is wanting
    ensures ok { OnOk result (out.new.items ≡ out.old.items ++ head_octets id size) }
    ensures err { OnErr result (out.new.items ≡ out.old.items) }
    ensures full { OnErr result
        (vec_capacity out.old < vec_len out.old + length (head_octets id size)) }
    ensures capacity { vec_capacity out.old ≤ vec_capacity out.new }
    // and how it is read back
    ensures reads_back { OnOk result (HasHead out.old.items out.new.items id size) }
{
    let id_width = octets_of(id as u64);
    out.reserve(id_width + size_width(size))?;
    push_number(out, id as u64, id_width)?;
    push_size(out, size)
}

/// How many octets `write_head` appends.
#[tactic(auto, unfolding(crate::specs::Written::head_octets))]
pub fn head_len(id: u32, size: Size) -> usize
    requires { IsSize size }
    ensures value { result ≡ length (head_octets id size) }
    ensures small { result ≤ 16 }
{
    octets_of(id as u64) + size_width(size)
}

/// Appends an element of known size (RFC 8794, section 6) with that body. Whatever follows,
/// `read_head` gives its head back, and behind that stands the body.
///
/// `NoMemory` comes only where the room for it was not there, and leaves the content as it was.
#[tactic(auto, unfolding(crate::specs::Written::element_octets))]
pub fn write_element(out: &mut Vec<u8>, id: u32, body: &[u8]) -> Result<(), NoMemory>
    // an ID that can be read, and a size that can be written
    requires id { IsTrue (is_id id) }
    requires size { length body.now < 2 ^ 56 - 1 }
    // what is appended, or nothing where the room is wanting
    ensures ok { OnOk result (out.new.items ≡ out.old.items ++ element_octets id body.now) }
    ensures err { OnErr result (out.new.items ≡ out.old.items) }
    ensures full { OnErr result
        (vec_capacity out.old < vec_len out.old + length (element_octets id body.now)) }
    ensures capacity { vec_capacity out.old ≤ vec_capacity out.new }
    // and how it is read back
    ensures reads_back { OnOk result (HasElement out.old.items out.new.items id (length body.now)
        (λ octets. octets ≡ body.now)) }
{
    let size = Size::Known(body.len() as u64);
    out.reserve(head_len(id, size) + body.len())?;
    write_head(out, id, size)?;
    push_octets(out, body)
}

/// Appends an element whose body is an unsigned integer in the fewest octets (RFC 8794, section
/// 7.2); 0 takes one. Whatever follows, `read_head` and `read_uint` give it back.
///
/// `NoMemory` comes only where the room for it was not there, and leaves the content as it was.
pub fn write_uint(out: &mut Vec<u8>, id: u32, n: u64) -> Result<(), NoMemory>
    requires id { IsTrue (is_id id) }
    ensures ok { OnOk result (out.new.items ≡ out.old.items ++ uint_octets id n) }
    ensures err { OnErr result (out.new.items ≡ out.old.items) }
    ensures full { OnErr result
        (vec_capacity out.old < vec_len out.old + length (uint_octets id n)) }
    ensures capacity { vec_capacity out.old ≤ vec_capacity out.new }
    ensures reads_back { OnOk result (HasUint out.old.items out.new.items id n) }
{
    let mut octets = [0u8; 8];
    let width = octets_of(n);
    BigEndian::write_uint(&mut octets, n, width);
    write_element(out, id, &octets[..width])
}

/// How many octets `write_uint` appends.
#[tactic(auto, unfolding(crate::specs::Written::element_octets))]
pub fn uint_len(id: u32, n: u64) -> usize
    ensures value { result ≡ length (uint_octets id n) }
    ensures small { result ≤ 24 }
{
    let width = octets_of(n);
    head_len(id, Size::Known(width as u64)) + width
}

/// Appends an element whose body is a text (RFC 8794, sections 7.4 and 7.5), which has no zero
/// octet. Whatever follows, `read_head` and `read_text` give it back.
///
/// `NoMemory` comes only where the room for it was not there, and leaves the content as it was.
pub fn write_text(out: &mut Vec<u8>, id: u32, text: &str) -> Result<(), NoMemory>
    // an ID that can be read, and a text that can be written and does not end early
    requires id { IsTrue (is_id id) }
    requires size { length text.now < 2 ^ 56 - 1 }
    requires text { IsTrue (has_no_zero text.now) }
    // what is appended, or nothing where the room is wanting
    ensures ok { OnOk result (out.new.items ≡ out.old.items ++ text_octets id text.now) }
    ensures err { OnErr result (out.new.items ≡ out.old.items) }
    ensures full { OnErr result
        (vec_capacity out.old < vec_len out.old + length (text_octets id text.now)) }
    ensures capacity { vec_capacity out.old ≤ vec_capacity out.new }
    // and how it is read back
    ensures reads_back { OnOk result (HasText out.old.items out.new.items id text.now) }
{
    write_element(out, id, text.as_bytes())
}
