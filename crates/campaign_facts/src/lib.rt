//! What a campaign tells of a run, counted cycle by cycle.
#![tactic(auto)]

ghost use Rattle.std.specs.Prelude.{◌≡◌, ◌∷◌, List};
ghost use Rattle.guards_model.specs.Faults.{FaultValue};
ghost use Rattle.campaign_facts.specs.Facts.{FactsValue, PastFacts};
ghost use Rattle.campaign_facts.specs.Tallies.{next_tally, tally_of};

mod facts;
mod kinds;
mod tally;

pub use facts::CycleFacts;
pub use kinds::{Kind, is_named, is_named_by, kind_count};
pub use tally::Tally;

/// What is kept cycle by cycle is what the rules tell of all cycles.
pub fn tallies_are_kept()
    ensures { (script : List FaultValue) (f : FactsValue) (past : PastFacts) →
        next_tally script f (tally_of script past) ≡ tally_of script (f ∷ past) }
{}
