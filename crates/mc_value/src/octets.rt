ghost use Rattle.std.specs.Prelude.{◌≡◌, ◌<◌, ◌==◌, IfSome, length, position};

/// The first place of an octet.
pub fn find_octet(text: &[u8], octet: u8) -> Option<usize>
    ensures place { result ≡ position (λ c. c == octet) text.now }
    ensures within { IfSome result (λ i. i < length text.now) }
{
    text.iter().position(|c| *c == octet)
}
