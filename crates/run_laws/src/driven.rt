//! Laws of runs with an actuator and without one, each the contract of a function without a body. The definitions stand
//! in `specs/`: without an actuator each says what is said of a run of nine slots.
ghost use Rattle.std.specs.Prelude.{◌≡◌, ◌<◌, ◌-◌, ◌++◌, [], ℕ, Bool, Option, Some, Result, Ok, Err, option_map, length};
ghost use Rattle.guards_model.specs.Missions.{MissionValue, IsMission, bus_rules, ActuatorValue};
ghost use Rattle.guards_model.specs.Network.{Log, BusValue};
ghost use Rattle.guards_model.specs.Rounds.{Histories};
ghost use Rattle.guards_model.specs.Texts.{RecordValue, StopValue, done_line, stop_line, text_of_parts};
ghost use Rattle.guards_runs.specs.ActedReport.{whole_report};
ghost use Rattle.guards_world.specs.Worlds.{HaltValue, WorldValue, first_world};
ghost use Rattle.guards_world.specs.WorldCycle.{PassesCycle};
ghost use Rattle.world_laws.specs.Fronts.{CarriesUpToStop};
ghost use Rattle.run_laws.specs.Runs.{with_unfinished};
ghost use Rattle.output_gate.specs.Gates.{GateValue};
ghost use Rattle.run_laws.specs.Driving.{CyclesRan, Drives, Exchanged, IsDriven, RunBroken, RunStopped, first_gate, parts_driven, told_text, with_part};

use icn_bus::Bus;

/// A run begins with the first world of a mission, over a bus that has the mission's rules; its actuator's gate, if it
/// has one, begins with the first words.
pub fn driven_runs_begin<B: Bus>()
    ensures { (M : MissionValue) (start : BusValue) (o : Option ActuatorValue) → IsMission M →
        start.script ≡ bus_rules M →
        ((a : ActuatorValue) → o ≡ Some a → length a.start ≡ length M.outputs) →
        IsDriven o B.may M start (first_world M) start (option_map first_gate o) [] [] }
{}

/// A cycle of the world that finished, and its exchange, go on with the run, stop it in the output slot, or break it
/// off; a cycle that halted stops the run or breaks it off.
pub fn cycles_drive_on<B: Bus>()
    ensures finished { (M : MissionValue) (start : BusValue) (w : WorldValue) (bus : BusValue) (gate : Option GateValue)
        (F : Log)
        (histories : Histories) (new : WorldValue) (mid : BusValue) → w.done < w.mission.cycles → (part : RecordValue) →
        PassesCycle B.may w.spent w bus (Ok part) new mid → (o : Option ActuatorValue) →
        IsDriven o B.may M start w bus gate F histories →
        (after : BusValue) (gate_after : Option GateValue) (result : Result (Unit {0}) HaltValue) →
        Exchanged B.may M.rules.version part new.settled mid after gate gate_after result →
        Drives o B.may M start w F histories (with_part part result) new after gate_after }
    ensures halted { (M : MissionValue) (start : BusValue) (w : WorldValue) (bus : BusValue) (gate : Option GateValue)
        (F : Log)
        (histories : Histories) (new : WorldValue) (after : BusValue) → w.done < w.mission.cycles →
        (o : Option ActuatorValue) →
        IsDriven o B.may M start w bus gate F histories → (halt : HaltValue) →
        PassesCycle B.may w.spent w bus (Err halt) new after →
        CarriesUpToStop w bus (Err halt) after → Drives o B.may M start w F histories (Err halt) new after gate }
{}

/// Between two cycles, those so far ran, and broke off nowhere else.
pub fn driven_cycles_ran<B: Bus>()
    ensures whole { (M : MissionValue) (start : BusValue) (w : WorldValue) (bus : BusValue) (gate : Option GateValue)
        (F : Log)
        (histories : Histories) (o : Option ActuatorValue) → IsDriven o B.may M start w bus gate F histories →
        CyclesRan o M w.done F histories }
    ensures broken { (M : MissionValue) (start : BusValue) (w : WorldValue) (bus : BusValue) (gate : Option GateValue)
        (F : Log)
        (histories : Histories) (o : Option ActuatorValue) → IsDriven o B.may M start w bus gate F histories →
        RunBroken o M w.done F histories }
{}

/// The text of a run that stopped nowhere is the head line, the parts of its cycles and the last line; where it
/// stopped, it is the parts of the cycles before, and the line of the stop.
pub fn driven_runs_are_told()
    ensures whole { (M : MissionValue) (F : Log) (histories : Histories) (trace : Bool) (o : Option ActuatorValue) →
        CyclesRan o M M.cycles F histories →
        told_text o trace M F histories
        ≡ text_of_parts (parts_driven o trace M F histories M.cycles) ++ done_line M.cycles }
    ensures stopped { (M : MissionValue) (F : Log) (histories : Histories) (trace : Bool) (o : Option ActuatorValue)
        (n : ℕ) (stop : StopValue) →
        RunStopped o M n stop F histories → told_text o trace M F (with_unfinished (M.cycles - n) histories)
        ≡ text_of_parts (parts_driven o trace M F histories n) ++ stop_line stop }
{}

/// The text that a run tells is the report of its log, by the mission's actuator.
pub fn told_texts_are_reports()
    ensures { (M : MissionValue) (L : Log) (histories : Histories) (trace : Bool) →
        told_text M.actuator trace M L histories ≡ whole_report trace M L histories }
{}
