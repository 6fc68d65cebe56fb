//! Laws of what is counted of a run, each the contract of a function without a body.
#![tactic(auto)]

ghost use Rattle.std.specs.Prelude.{◌≡◌, ◌≤◌, ℕ, Some};
ghost use Rattle.std.specs.List.{AllByRecursion};
ghost use Rattle.guards_model.specs.JoinBound.{join_bound, most_blocks};
ghost use Rattle.guards_model.specs.Missions.{MissionValue, IsMission, bus_rules};
ghost use Rattle.guards_model.specs.Network.{Log};
ghost use Rattle.guards_model.specs.ScriptedBus.{IsScripted};
ghost use Rattle.guards_runs.specs.Cycles.{cycles_before};
ghost use Rattle.guards_runs.specs.Promises.{HasRun};
ghost use Rattle.campaign_facts.specs.Facts.{facts_of, false_removals, longest_transfer};
ghost use Rattle.tally_laws.specs.ToldLengths.{longest_told};

/// No removal is false: in a run over a bus that does what the script says, each channel that is removed is named by an
/// entry, as its channel or as the sender, since it sent the request by which it last joined, or since the first cycle.
pub fn removals_are_named()
    ensures { (M : MissionValue) (L : Log) (n : ℕ) → IsMission M → n ≤ M.cycles → HasRun M L n →
        AllByRecursion (IsScripted (bus_rules M)) L → false_removals M.script (facts_of (cycles_before M L n)) ≡ 0 }
{}

/// The longest transfer of a run that ended by a join has the length that the mission's rules and its table tell of the
/// row of its start.
pub fn transfers_have_their_length()
    ensures { (M : MissionValue) (L : Log) (n : ℕ) → IsMission M → n ≤ M.cycles →
        longest_transfer (facts_of (cycles_before M L n)) ≡ longest_told M (facts_of (cycles_before M L n)) }
{}

/// Where a join has a bound, it has no more cycles.
pub fn transfers_keep_the_bound()
    ensures { (M : MissionValue) (L : Log) (n bound : ℕ) → IsMission M → n ≤ M.cycles →
        join_bound M.rules.blocks M.rules.sweep M.rules.last (most_blocks M.table) ≡ Some bound →
        longest_transfer (facts_of (cycles_before M L n)) ≤ bound }
{}
