ghost use Rattle.std.specs.Prelude.{◌≡◌};
ghost use Rattle.playlist_example.specs.Left.{left_at};

use mc_playlist::ListFacts;
use mc_props::Reading;
use mc_value::Value;

/// How many films stand behind the list's place; all where it has none.
pub fn left(facts: &ListFacts) -> Reading
    ensures { result ≡ left_at 0 facts.now }
{
    let gone = match facts.pos {
        Some(pos) => pos as usize + 1,
        None => 0,
    };
    let left = facts.names.as_slice().len().saturating_sub(gone);
    Reading::Is(Value::Int(left.min(i64::MAX as usize) as i64))
}
