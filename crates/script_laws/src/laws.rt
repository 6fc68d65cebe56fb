//! The report of a run over a scripted bus is a function of its mission. The definitions stand in `specs/`.

ghost use Rattle.std.specs.Prelude.{◌≡◌, ℕ, length};
ghost use Rattle.std.specs.List.{AllByRecursion};
ghost use Rattle.guards_model.specs.Missions.{MissionValue, bus_rules};
ghost use Rattle.guards_model.specs.Network.{Log};
ghost use Rattle.guards_model.specs.ScriptedBus.{IsScripted};
ghost use Rattle.guards_runs.specs.Cycles.{cycles_before};
ghost use Rattle.guards_runs.specs.Disturbed.{stop_of};
ghost use Rattle.guards_runs.specs.Promises.{IsRun, HasRun};
ghost use Rattle.guards_runs.specs.Report.{told_cycles, report};
ghost use Rattle.guards_runs.specs.SameFacts.{HaveSameFacts};
ghost use Rattle.script_laws.specs.Scripts.{ForgesNoSweep, IsScriptedRun};

/// Two runs of one mission over a bus that does what the script says have the same facts in every cycle but for the
/// entries, wherever copies fell; and the reports of two whole runs are the same text.
pub fn scripted_runs_are_alike()
    ensures facts { (M : MissionValue) (L K : Log) (n : ℕ) → AllByRecursion (IsScripted (bus_rules M)) L →
        AllByRecursion (IsScripted (bus_rules M)) K → HasRun M L n → HasRun M K n →
        HaveSameFacts (cycles_before M L n) (cycles_before M K n) }
    ensures reports { (M : MissionValue) (L K : Log) → AllByRecursion (IsScripted (bus_rules M)) L →
        AllByRecursion (IsScripted (bus_rules M)) K → IsRun M L M.cycles → IsRun M K M.cycles →
        report M L ≡ report M K }
{}

/// Two runs of one mission over a bus that does what the script says, each of which came to its last cycle or to its
/// stop, and wherever copies fell in them: where the script forges no sweep frame they stop in the same slot with the
/// same sets, or neither stops; the cycles before the stop have the same facts but for the entries; equally many frames
/// were carried; and their reports are the same text.
pub fn scripted_runs_end_alike()
    ensures stops { (M : MissionValue) (L K : Log) → ForgesNoSweep (bus_rules M) → IsScriptedRun M L →
        IsScriptedRun M K →
        stop_of (cycles_before M L M.cycles) ≡ stop_of (cycles_before M K M.cycles) }
    ensures facts { (M : MissionValue) (L K : Log) → ForgesNoSweep (bus_rules M) → IsScriptedRun M L →
        IsScriptedRun M K →
        HaveSameFacts (told_cycles (cycles_before M L M.cycles)) (told_cycles (cycles_before M K M.cycles)) }
    ensures frames { (M : MissionValue) (L K : Log) → ForgesNoSweep (bus_rules M) → IsScriptedRun M L →
        IsScriptedRun M K →
        length L ≡ length K }
    ensures reports { (M : MissionValue) (L K : Log) → ForgesNoSweep (bus_rules M) → IsScriptedRun M L →
        IsScriptedRun M K →
        report M L ≡ report M K }
{}
