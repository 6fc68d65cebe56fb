//! Laws of campaigns, each the contract of a function without a body.
#![tactic(auto)]

ghost use Rattle.std.specs.Prelude.{◌≡◌, ◌≤◌, ℕ, List, Option, Some};
ghost use Rattle.guards_model.specs.Missions.{MissionValue, IsMission, bus_rules};
ghost use Rattle.guards_model.specs.Texts.{TextValue};
ghost use Rattle.script_laws.specs.Scripts.{ForgesNoSweep};
ghost use Rattle.campaign_draws.specs.declared.rates.Rates.{Rates};
ghost use Rattle.campaign_draws.specs.Drawing.{drawn_mission};
ghost use Rattle.campaign_text.specs.Summaries.{RunValue, totals_of};
ghost use Rattle.campaign_run.specs.Campaigns.{AreRows, IsCampaign, bound_of};
ghost use Rattle.campaign_run.specs.Counting.{TellsRun};
ghost use Rattle.campaign_laws.specs.LawfulRows.{IsLawfulRow};

/// No drawn script forges a sweep frame: it forges vote frames alone.
pub fn drawn_scripts_forge_no_sweep()
    ensures { (M : MissionValue) (rates : Rates) (x : ℕ) → ForgesNoSweep (bus_rules (drawn_mission M rates x)) }
{}

/// Two runs of a drawn mission, each over a bus that does what the script says, are told by the same row, wherever the
/// copies of their transfers fell.
pub fn rows_are_alike()
    ensures { (M : MissionValue) (rates : Rates) (x run state : ℕ) (bound : Option ℕ) (s t : RunValue)
        (a b : TextValue) → TellsRun (drawn_mission M rates x) run state bound s a →
        TellsRun (drawn_mission M rates x) run state bound t b → a ≡ b }
{}

/// So the text of a campaign, its summary too, is a function of its mission, its rates, its number and how many runs it
/// has.
pub fn texts_are_alike()
    ensures { (M : MissionValue) (rates : Rates) (x n : ℕ) (a b : TextValue) → IsCampaign M rates x n a →
        IsCampaign M rates x n b → a ≡ b }
{}

/// The row of a run tells its cycles, of which 0 removals are false and the longest transfer has the length that the
/// mission's rules and its table tell.
pub fn rows_are_lawful()
    ensures { (M : MissionValue) (run state : ℕ) (bound : Option ℕ) (told : RunValue) (text : TextValue) →
        IsMission M → TellsRun M run state bound told text → IsLawfulRow M run state bound text }
{}

/// The summary of a campaign tells 0 false removals.
pub fn summaries_tell_no_false_removal()
    ensures { (M : MissionValue) (rates : Rates) (x n : ℕ) (runs : List RunValue) (text : TextValue) → IsMission M →
        AreRows M rates x n runs text → (totals_of runs).false_removals ≡ 0 }
{}

/// The longest transfer that the summary tells has no more cycles than the bound that it tells, where there is one.
pub fn summaries_keep_the_bound()
    ensures { (M : MissionValue) (rates : Rates) (x n bound : ℕ) (runs : List RunValue) (text : TextValue) →
        IsMission M → AreRows M rates x n runs text → bound_of M ≡ Some bound → (totals_of runs).longest ≤ bound }
{}
