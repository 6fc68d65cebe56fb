//! What a run tells is a trace that its mission may have, and a report that is read back.
#![tactic(auto)]

mod reports;

ghost use Rattle.run_laws.specs.Driving.{CyclesRan, told_text};
ghost use Rattle.guards_audit.specs.Consistency.{IsConsistent};
ghost use Rattle.guards_model.specs.Missions.{MissionValue, IsMission};
ghost use Rattle.guards_model.specs.Network.{Log};
ghost use Rattle.guards_model.specs.Rounds.{Histories};
ghost use Rattle.std.specs.Prelude.{true};

pub use reports::reports_read_back;

/// Whatever the bus delivered and however the steps fell: the traced text of a run that came to its end is consistent
/// with its mission, with an actuator or without.
pub fn traces_are_consistent()
    ensures { (M : MissionValue) (F : Log) (histories : Histories) → IsMission M →
        CyclesRan M.actuator M M.cycles F histories → IsConsistent M (told_text M.actuator true M F histories) }
{}
