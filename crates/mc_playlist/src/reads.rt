ghost use Rattle.std.specs.Prelude.{◌≡◌, IfOk};
ghost use denote.Ref.{Bor};

use crate::facts::ListFacts;
use crate::meanings::ListMeaning;
use mc_props::Reading;
use mc_value::NoMemory;

/// A reader of a list's properties by their places, which answers the stated function of `M`. Each
/// closure over a place and facts is one, at the places at which it answers so.
pub trait ListReads<M: ListMeaning>: Drop {
    ghost use Rattle.std.specs.Prelude.{ℕ};

    /// It may be called at this place on any facts, and answers the stated function of them.
    ghost answers: { Self → ℕ → Type 0 };

    /// What the property at a place shows.
    fn read(&self, place: u32, facts: &ListFacts) -> Result<Reading, NoMemory>
        requires { answers self.now place }
        ensures { IfOk result (λ r. r ≡ M.value place facts.now) };
}

impl<M: ListMeaning, F: Fn(u32, &ListFacts) -> Result<Reading, NoMemory> + Drop> ListReads<M>
    for F {
    ghost use Rattle.std.specs.declared.result.Result.{Result};
    ghost use Rattle.std.specs.declared.alloc.AllocError.{AllocError};
    ghost use Rattle.mc_props.specs.declared.reading.Reading.{Reading};
    ghost use Rattle.mc_playlist.specs.declared.facts.ListFacts.{ListFacts};

    ghost answers = { λ f place. (p : Bor ListFacts) → F.pre f place p
        × ((r : Result Reading AllocError) → F.post f place p r
        → IfOk r (λ x. x ≡ M.value place p.now)) };

    fn read(&self, place: u32, facts: &ListFacts) -> Result<Reading, NoMemory> {
        self(place, facts)
    }
}
