//! What holds of told files and texts.
ghost use Rattle.std.specs.Prelude.{◌≡◌, ◌++◌, ◌^◌, ◌<◌, ℕ, List, length, Option, Some};
ghost use Rattle.mc_outside.specs.Shelf.{Files, Opened, AreBytes, AreShort, HoldBytes, content};
ghost use Rattle.mc_outside.specs.Sink.{Grows};

/// A text that grew twice grew by the one piece and the other behind it.
pub fn grows_more()
    ensures joined { (a b c : Option (List ℕ)) (x y : List ℕ)
        → Grows a b x → Grows b c y → Grows a c (x ++ y) }
{}

/// What a shelf tells of an opened file is fewer than 2^63 numbers, each of which is an octet.
pub fn told_content()
    ensures short { (files : Option Files) (opened : Opened) (file : ℕ) (octets : List ℕ)
        → AreShort files → content files opened file ≡ Some octets → length octets < 2 ^ 63 }
    ensures bytes { (files : Option Files) (opened : Opened) (file : ℕ) (octets : List ℕ)
        → HoldBytes files → content files opened file ≡ Some octets → AreBytes octets }
{}
