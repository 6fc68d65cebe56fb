//! What the ideal machine tells is what the facts of a run without faults tell: the contract of a function without a
//! body.
ghost use Rattle.std.specs.Prelude.{◌≡◌};
ghost use Rattle.guards_model.specs.Missions.{MissionValue, IsMission};
ghost use Rattle.guards_model.specs.Network.{Log};
ghost use Rattle.guards_runs.specs.Faultless.{IsFaultless, HasDue};
ghost use Rattle.guards_runs.specs.Report.{report};
ghost use Rattle.guards_runs.specs.IdealReport.{ideal_report};

/// Where the script crashes and damages no channel and has no rule for the bus, the bus does what the script says, and
/// the entries of all cycles are the due ones, the report of the run is that of the ideal machine.
pub fn faultless_reports_are_ideal()
    ensures { (M : MissionValue) (L : Log) → IsMission M → IsFaultless M L → HasDue M L M.cycles →
        report M L ≡ ideal_report M }
{}
