//! What the laws of diagnosis and of transfers say of runs as the program makes them.
ghost use Rattle.std.specs.Prelude.{ℕ, Option};
ghost use Rattle.guards_model.specs.Missions.{MissionValue, ActuatorValue, IsMission};
ghost use Rattle.guards_model.specs.Network.{Log};
ghost use Rattle.guards_model.specs.Rounds.{Histories};
ghost use Rattle.guards_model.specs.Texts.{StopValue};
ghost use Rattle.guards_runs.specs.Promises.{HasRun};
ghost use Rattle.run_laws.specs.Driving.{CyclesRan, RunStopped, facts_log, cycles_told};
ghost use Rattle.run_laws.specs.RightDiagnosis.{DiagnosesRightly};

/// The cycles that ran, with an actuator or without one, are cycles of a run in the sense of the main theorem: of a run
/// whose cycles all ran, and of one that stopped those before the stop. The facts are those of the log without output
/// entries.
pub fn cycles_that_ran_are_runs()
    ensures ran { (o : Option ActuatorValue) (M : MissionValue) (n : ℕ) (F : Log) (histories : Histories) →
        CyclesRan o M n F histories → HasRun M (facts_log o F) n }
    ensures stopped { (o : Option ActuatorValue) (M : MissionValue) (stop : StopValue) (F : Log)
        (histories : Histories) →
        RunStopped o M stop.cycle stop F histories → HasRun M (facts_log o F) stop.cycle }
{}

/// So in each of these cycles who is undisturbed is left alone, who is removed was disturbed, who is silent or judged
/// is removed in time, a wrong vote is judged, who is judged seldom stays, and a transfer takes its length.
pub fn runs_diagnose_rightly()
    ensures ran { (o : Option ActuatorValue) (M : MissionValue) (n : ℕ) (F : Log) (histories : Histories) →
        IsMission M →
        CyclesRan o M n F histories → DiagnosesRightly M (cycles_told o M F n) }
    ensures stopped { (o : Option ActuatorValue) (M : MissionValue) (stop : StopValue) (F : Log)
        (histories : Histories) →
        IsMission M → RunStopped o M stop.cycle stop F histories → DiagnosesRightly M (cycles_told o M F stop.cycle) }
{}
