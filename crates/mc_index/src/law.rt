//! What holds of the marks at a film's blocks.
ghost use Rattle.std.specs.Prelude.{◌≡◌, ◌∷◌, ℕ, List};
ghost use Rattle.mc_packet.specs.declared.packet.Packet.{Packet};
ghost use Rattle.mc_packet.specs.declared.walk.Mark.{Mark};
ghost use Rattle.mc_walk.specs.declared.plan.Plan.{Plan};
ghost use Rattle.mc_walk.specs.Parts.{part_at, IsMark};
ghost use Rattle.mc_index.specs.Fronts.{Front};
ghost use Rattle.mc_filmed.specs.Marks.{mark_at};
ghost use Rattle.mc_index.specs.Scans.{IsPlan};

/// The mark at a place stands there. Where a part of the film, as it is read from its opening on,
/// ends with a block, the mark at that block is a mark of the film, from which the same part is
/// read.
pub fn block_marks()
    ensures place { (plan : Plan) (place : ℕ) → (mark_at plan place).pos ≡ place }
    ensures mark { (plan : Plan) (n : ℕ) (m : Mark) (before : List Packet)
        (p : Packet) (ps : List Packet)
        → IsPlan plan → Front plan n m before → (part_at plan m).packets ≡ p ∷ ps
        → IsMark plan (mark_at plan p.pos.block) }
    ensures part { (plan : Plan) (n : ℕ) (m : Mark) (before : List Packet)
        (p : Packet) (ps : List Packet)
        → IsPlan plan → Front plan n m before → (part_at plan m).packets ≡ p ∷ ps
        → part_at plan (mark_at plan p.pos.block) ≡ part_at plan m }
{}
