ghost use Rattle.std.specs.Prelude.{◌≡◌, ◌≤◌, ◌^◌};
ghost use Rattle.mc_value.specs.Numbers.{below_word, number_of, place_of, read_behind, signed, whole_number_of};

/// The number below 2^64 that decimal digits stand for, at least one of them; zeros may stand in
/// front. `None` for any other octets.
pub fn read_number(digits: &[u8]) -> Option<u64>
    ensures { result ≡ number_of digits.now }
{
    if digits.is_empty() {
        return None;
    }
    read_digits(digits)
}

fn read_digits(digits: &[u8]) -> Option<u64>
    ensures { result ≡ below_word (read_behind 0 digits.now) }
{
    let mut number = 0u64;
    for digit in digits {
        if !digit.is_ascii_digit() {
            return None;
        }
        number = number.checked_mul(10)?.checked_add((*digit - b'0') as u64)?;
    }
    Some(number)
}

/// The number of an optional `-` and decimal digits, where an `i64` holds it.
pub fn read_whole_number(text: &[u8]) -> Option<i64>
    ensures { result ≡ whole_number_of text.now }
{
    match text {
        [b'-', digits @ ..] => with_sign(true, read_number(digits)),
        digits => with_sign(false, read_number(digits)),
    }
}

fn with_sign(minus: bool, number: Option<u64>) -> Option<i64>
    ensures { result ≡ signed minus number }
{
    let number = number? as i128;
    if minus {
        if number <= 1 << 63 {
            Some((-number) as i64)
        } else {
            None
        }
    } else if number < 1 << 63 {
        Some(number as i64)
    } else {
        None
    }
}

/// A place in an array: decimal digits, with a `0` in front only of nothing else.
pub fn read_place(digits: &[u8]) -> Option<u64>
    ensures { result ≡ place_of digits.now }
{
    match digits {
        [b'0', _, ..] => None,
        _ => read_number(digits),
    }
}
