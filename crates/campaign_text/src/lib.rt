//! The text of a campaign: a row for each run, and the lines of its summary.
#![tactic(auto)]

ghost use Rattle.std.specs.Prelude.{◌≡◌, ◌∷◌, List};
ghost use Rattle.campaign_text.specs.Summaries.{RunValue, totals_of, totals_with};

mod causes;
mod rows;
mod summary;

pub use rows::{Stop, head_row, row_text};
pub use summary::Totals;

/// What is added up run by run is what the runs add up to.
pub fn totals_are_kept()
    ensures { (run : RunValue) (runs : List RunValue) →
        totals_with run.counts run.stop (totals_of runs) ≡ totals_of (run ∷ runs) }
{}
