// What a cell's type names: it keeps facts about it from turn to turn.
ghost use Rattle.std.specs.Prelude.{ℕ, List, Option};
ghost use Rattle.atomic_table.specs.Seated.{TableId};

use std::marker::Brand;

/// Names a film, or none.
pub trait FilmName {
    ghost film: { Option (List ℕ) };
}

/// Names none.
pub struct Unnamed;

impl FilmName for Unnamed {
    ghost use Rattle.std.specs.Prelude.{None};

    ghost film = { None };
}

/// Names a board. At a call that knows one, `Brand` is picked to name it.
pub trait BoardName {
    ghost board: { TableId };
}

impl BoardName for Brand {
    ghost use Rattle.turn_bench.specs.Boards.{no_board};

    ghost board = { no_board };
}
