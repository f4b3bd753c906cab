//! Places in a list of films, counted from 0, and what a step makes of them.

ghost use Rattle.std.specs.Prelude.{◌≡◌, ◌<◌, ◌≤◌, ◌^◌, ◌+◌, ◌-◌, ℕ, IfSome};
ghost use Rattle.mc_playlist.specs.Records.{place_or_first};
ghost use Rattle.mc_playlist.specs.Steps.{kept_place, next_place, place_before, place_moved, place_without, pos_moved, pos_without};

/// A place, where an entry stands there.
pub fn kept_place(count: u32, place: u32) -> Option<u32>
    ensures value { result ≡ kept_place count place }
    ensures inside { IfSome result (λ p. p < count) }
{
    if place < count { Some(place) } else { None }
}

/// The list's place once entry `at` of so many is taken out.
pub fn pos_without(at: u32, count: u32, pos: Option<u32>) -> Option<u32>
    requires at { at < count }
    requires inside { IfSome pos (λ p. p < count) }
    ensures value { result ≡ pos_without at count pos }
    ensures inside { IfSome result (λ p. p + 1 < count) }
{
    let pos = pos?;
    if at < pos {
        Some(pos - 1)
    } else if at == pos {
        kept_place(count - 1, pos)
    } else {
        Some(pos)
    }
}

/// The list's place once entry `from` stands before what was entry `before`: that of its entry.
pub fn pos_moved(from: u32, before: u32, pos: Option<u32>) -> Option<u32>
    ensures value { result ≡ pos_moved from before pos }
    ensures inside { (n : ℕ) → from < n → before ≤ n → IfSome pos (λ p. p < n)
        → IfSome result (λ p. p < n) }
{
    Some(place_moved(from, before, pos?))
}

/// The place of entry `place` once entry `from` stands before what was entry `before`.
fn place_moved(from: u32, before: u32, place: u32) -> u32
    ensures value { result ≡ place_moved from before place }
    ensures inside { (n : ℕ) → from < n → before ≤ n → place < n → result < n }
{
    let to = place_without(from, before);
    let others = place_without(from, place);
    if from == place {
        to
    } else if to <= others {
        others + 1
    } else {
        others
    }
}

/// The place of an entry, or of the end, once entry `at` is taken out.
pub fn place_without(at: u32, place: u32) -> u32
    ensures { result ≡ place_without at place }
{
    if at < place { place - 1 } else { place }
}

/// The place behind the list's.
pub fn next_place(pos: Option<u32>) -> u32
    requires { IfSome pos (λ p. p < 2 ^ 32 - 1) }
    ensures { result ≡ next_place pos }
{
    match pos {
        Some(pos) => pos + 1,
        None => 0,
    }
}

/// The place before the list's.
pub fn place_before(pos: Option<u32>) -> Option<u32>
    ensures value { result ≡ place_before pos }
    ensures inside { (n : ℕ) → IfSome pos (λ p. p < n) → IfSome result (λ p. p < n) }
{
    pos?.checked_sub(1)
}

/// The list's place, or the first entry's where it has none.
pub fn place_or_first(pos: Option<u32>, count: u32) -> Option<u32>
    ensures value { result ≡ place_or_first pos count }
    ensures inside { IfSome pos (λ p. p < count) → IfSome result (λ p. p < count) }
{
    match pos {
        Some(pos) => Some(pos),
        None => kept_place(count, 0),
    }
}
