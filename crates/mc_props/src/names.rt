ghost use Rattle.std.specs.Prelude.{◌≡◌, ◌<◌, ◌==◌, IfSome, MatchOption, length};
ghost use Rattle.std.specs.List.{position_or_len};
ghost use Rattle.mc_props.specs.Entries.{path_part, property_part};

/// The property that a name asks for: its part before the first slash, or all of it.
pub(crate) fn property_part(name: &str) -> &str
    ensures { result.now ≡ property_part name.now }
{
    match name.split_once('/') {
        Some((property, _)) => property,
        None => name,
    }
}

/// The path into the property's value: the part of a name behind its first slash, or nothing.
pub(crate) fn path_part(name: &str) -> &str
    ensures { result.now ≡ path_part name.now }
{
    match name.split_once('/') {
        Some((_, path)) => path,
        None => "",
    }
}

/// The part of a text behind its first slash, where it has one.
pub(crate) fn behind_slash(text: &str) -> Option<&str>
    ensures cases { MatchOption result
        (position_or_len (λ c. c == 47) text.now ≡ length text.now)
        (λ rest. (rest.now ≡ path_part text.now)
        × (position_or_len (λ c. c == 47) text.now < length text.now)) }
    ensures shorter { IfSome result (λ rest. length rest.now < length text.now) }
{
    match text.split_once('/') {
        Some((_, rest)) => Some(rest),
        None => None,
    }
}
