//! The faults of the runs of a campaign, drawn from a number, and the missions with them.
#![tactic(auto)]

ghost use Rattle.std.specs.Prelude.{◌≡◌, ◌≤◌, ℕ, None};
ghost use Rattle.guards_model.specs.ScriptFaults.{script_fault};
ghost use Rattle.campaign_draws.specs.declared.rates.Rates.{Rates};
ghost use Rattle.campaign_draws.specs.Drawing.{SizesValue, drawn_faults};

mod draws;
mod entries;
mod mission;
mod rates;
mod script;
mod sizes;

pub use draws::Draws;
pub use mission::{drawn_mission, sizes_of};
pub use rates::Rates;
pub use script::drawn_entries;
pub use sizes::Sizes;

/// Whatever the rates and the number, a drawn script keeps the rules of a script.
pub fn drawn_scripts_keep_their_rules()
    ensures { (sizes : SizesValue) (rates : Rates) (number : ℕ) → 3 ≤ sizes.channels → 1 ≤ sizes.blocks →
        sizes.outputs ≤ 8 →
        script_fault sizes.channels sizes.cycles sizes.blocks (drawn_faults sizes rates number) ≡ None }
{}
