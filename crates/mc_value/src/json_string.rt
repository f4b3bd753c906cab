ghost use Rattle.std.specs.Prelude.{◌≡◌, ◌++◌, ◌<◌, ◌∷◌, [], IfOk, OnOk, string_bytes, flat_map, codes, ◌/◌, ◌%◌};
ghost use Rattle.std.specs.Str.{chars};
ghost use Rattle.std.specs.Fmt.{signed_decimal};
ghost use Rattle.mc_value.specs.Values.{escaped, hex_digit, json_string};

use crate::text::NoMemory;

/// Appends a text as a JSON string, with its quotes.
pub fn push_json_string(out: &mut String, text: &str) -> Result<(), NoMemory>
    ensures { OnOk result (string_bytes out.new ≡ string_bytes out.old ++ json_string text.now) }
{
    out.push('"')?;
    push_escaped_all(out, text)?;
    out.push('"')
}

fn push_escaped_all(out: &mut String, text: &str) -> Result<(), NoMemory>
    ensures { OnOk result (string_bytes out.new ≡
        string_bytes out.old ++ flat_map escaped (chars text.now)) }
{
    for c in text.chars() {
        push_escaped(out, c)?;
    }
    Ok(())
}

fn push_escaped(out: &mut String, c: char) -> Result<(), NoMemory>
    ensures { OnOk result (string_bytes out.new ≡ string_bytes out.old ++ escaped c) }
{
    if c == '"' || c == '\\' {
        out.push('\\')?;
        out.push(c)
    } else if c < ' ' {
        push_control(out, c as u8)
    } else {
        out.push(c)
    }
}

fn push_control(out: &mut String, code: u8) -> Result<(), NoMemory>
    ensures { OnOk result (string_bytes out.new ≡ string_bytes out.old
        ++ (codes "\\u00" ++ (hex_digit (code / 16) ∷ hex_digit (code % 16) ∷ []))) }
{
    out.push_str("\\u00")?;
    out.push(digit_of(code / 16))?;
    out.push(digit_of(code % 16))
}

fn digit_of(value: u8) -> char
    requires { value < 16 }
    ensures digit { result ≡ hex_digit value }
    ensures ascii { result < 128 }
{
    if value < 10 {
        (b'0' + value) as char
    } else {
        (b'a' + (value - 10)) as char
    }
}

/// Appends a number in decimal digits, behind a `-` where it is below 0.
pub fn push_number(out: &mut String, number: i64) -> Result<(), NoMemory>
    ensures { OnOk result (string_bytes out.new ≡ string_bytes out.old ++ signed_decimal number) }
{
    let alloc = *out.allocator();
    let text = format!(in alloc; "{number}")?;
    out.push_str(text.as_str())
}
