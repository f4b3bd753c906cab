ghost use Rattle.std.specs.Prelude.{◌≡◌, ◌%◌, ◌^◌};
ghost use Rattle.mc_packet.specs.Payload.{checksum, checksum_from, polynomial};

// 31^8 and 31^16 modulo 2^32: what eight and sixteen octets multiply the sum by.
const EIGHT_STEPS: u32 = 2_487_512_833;

const SIXTEEN_STEPS: u32 = 1_353_309_697;

// Every second octet of a word, and every second pair of octets.
const OCTETS: u64 = 0x00ff_00ff_00ff_00ff;

const PAIRS: u64 = 0x0000_ffff_0000_ffff;

/// The checksum of a payload: 0 at first, and for each octet 31 times as much and the octet,
/// modulo 2^32. It takes no memory.
pub fn sum(body: &[u8]) -> u32
    ensures { result ≡ checksum body.now }
{
    let mut sum = 0;
    let mut rest = body;
    while let Some((front, more)) = rest.split_first_chunk::<8>() {
        let Some((back, more)) = more.split_first_chunk::<8>() else {
            break;
        };
        sum = add_sixteen(sum, *front, *back);
        rest = more;
    }
    add_each(sum, rest)
}

// The sum is a polynomial in 31, whose coefficients the octets are.
#[inline(always)]
fn add_sixteen(sum: u32, front: [u8; 8], back: [u8; 8]) -> u32
    ensures { result ≡ checksum_from (checksum_from sum front) back }
{
    let front = of_eight(front).wrapping_mul(EIGHT_STEPS);
    let sum = sum.wrapping_mul(SIXTEEN_STEPS).wrapping_add(front);
    sum.wrapping_add(of_eight(back))
}

// Eight octets at once: pairs of them side by side in a word, then pairs of pairs, then both halves.
#[inline(always)]
fn of_eight(octets: [u8; 8]) -> u32
    ensures { result ≡ polynomial 0 octets % 2 ^ 32 }
{
    let word = u64::from_le_bytes(octets);
    let pairs = (word & OCTETS) * 31 + ((word >> 8) & OCTETS);
    let fours = (pairs & PAIRS) * 961 + ((pairs >> 16) & PAIRS);
    let (high, low) = (fours >> 32, fours % (1 << 32));
    ((low * 923_521 + high) % (1 << 32)) as u32
}

fn add_each(sum: u32, octets: &[u8]) -> u32
    ensures { result ≡ checksum_from sum octets.now }
{
    let mut sum = sum;
    for octet in octets {
        sum = ((sum as u64 * 31 + *octet as u64) % (1 << 32)) as u32;
    }
    sum
}
