//! The law of reports: every text that a run leaves is read back as the records of its cycles.
ghost use Rattle.run_laws.specs.Driving.{CyclesRan, RunStopped, cycles_told, told_text};
ghost use Rattle.guards_model.specs.Missions.{MissionValue, IsMission};
ghost use Rattle.guards_model.specs.Network.{Log};
ghost use Rattle.guards_model.specs.Rounds.{Histories};
ghost use Rattle.guards_model.specs.Texts.{StopValue};
ghost use Rattle.audit_laws.specs.ToldRuns.{run_told, words_of};
ghost use Rattle.guards_audit.specs.Reports.{report_of};
ghost use Rattle.run_laws.specs.Runs.{with_unfinished};
ghost use Rattle.std.specs.Prelude.{◌≡◌, ◌-◌, ℕ, Bool, Some, None};

/// The report of a run that came to its end, and that of a run that stopped, with and without trace lines, with an
/// actuator and without, is read back as the records of its cycles, its words and its stop.
pub fn reports_read_back()
    ensures whole { (trace : Bool) (M : MissionValue) (F : Log) (histories : Histories) →
        IsMission M → CyclesRan M.actuator M M.cycles F histories →
        report_of (told_text M.actuator trace M F histories)
        ≡ Some (run_told (words_of M.actuator M F) trace M histories (cycles_told M.actuator M F M.cycles) None) }
    ensures stopped { (trace : Bool) (M : MissionValue) (n : ℕ) (stop : StopValue) (F : Log) (histories : Histories) →
        IsMission M → RunStopped M.actuator M n stop F histories →
        report_of (told_text M.actuator trace M F (with_unfinished (M.cycles - n) histories))
        ≡ Some (run_told (words_of M.actuator M F) trace M histories (cycles_told M.actuator M F n) (Some stop)) }
{}
