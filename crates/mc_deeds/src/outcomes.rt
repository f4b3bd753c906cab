//! What became of an order.
ghost use Rattle.std.specs.Prelude.{◌≡◌, IfOk};
ghost use Rattle.mc_player.specs.Effects.{restart_after};
ghost use Rattle.mc_player.specs.Facts.{after_did};
ghost use Rattle.mc_player.specs.Journals.{is_load, is_refusal};
ghost use Rattle.mc_deeds.specs.Changes.{outcome_mask};

use mc_player::{Order, Outcome};
use mc_props::Facts;
use mc_props::fields::{FILE, SELECTION};
use mc_value::NoMemory;

/// The fields of the facts that an outcome changes.
pub fn outcome_mask(outcome: &Outcome) -> u32
    ensures { result ≡ outcome_mask outcome.now }
{
    match outcome {
        Outcome::Loaded { .. } => FILE + SELECTION,
        Outcome::Selected { .. } => SELECTION,
        _ => 0,
    }
}

/// The facts as an outcome leaves them.
pub fn apply_outcome(facts: &mut Facts, outcome: Outcome)
    ensures { facts.new ≡ after_did outcome facts.old }
{
    match outcome {
        Outcome::Loaded { path, tracks, set } => {
            facts.path = Some(path);
            facts.tracks = tracks;
            facts.set = set;
            facts.loaded = true;
        }
        Outcome::Selected { set } => facts.set = set,
        _ => {}
    }
}

/// Whether a restart is still to be told, behind an outcome.
pub fn restart_after(outcome: &Outcome, before: bool) -> bool
    ensures { result ≡ restart_after outcome.now before }
{
    match outcome {
        Outcome::Loaded { .. } | Outcome::Sought => true,
        _ => before,
    }
}

pub fn is_refusal(outcome: &Outcome) -> bool
    ensures { result ≡ is_refusal outcome.now }
{
    matches!(outcome, Outcome::Refused(_))
}

pub fn is_load(order: Order) -> bool
    ensures { result ≡ is_load order }
{
    matches!(order, Order::Load)
}

/// An equal outcome.
pub fn copy_outcome(outcome: &Outcome) -> Result<Outcome, NoMemory>
    ensures { IfOk result (λ x. x ≡ outcome.now) }
{
    Ok(match outcome {
        Outcome::Loaded { path, tracks, set } => Outcome::Loaded {
            path: path.copy()?,
            tracks: tracks.copy()?,
            set: *set,
        },
        Outcome::Sought => Outcome::Sought,
        Outcome::Selected { set } => Outcome::Selected { set: *set },
        Outcome::Refused(why) => Outcome::Refused(*why),
    })
}
