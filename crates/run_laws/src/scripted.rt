//! The text of a run with an actuator over a scripted bus is a function of its mission. The definitions stand in
//! `specs/`.
ghost use Rattle.std.specs.Prelude.{◌≡◌, false, []};
ghost use Rattle.guards_model.specs.Missions.{ActuatorValue, MissionValue, bus_rules};
ghost use Rattle.guards_model.specs.Network.{Log, without_outputs};
ghost use Rattle.guards_runs.specs.ActedReport.{acted_cycles, acted_report};
ghost use Rattle.guards_runs.specs.Outputs.{acted_stop};
ghost use Rattle.script_laws.specs.Scripts.{ForgesNoSweep};
ghost use Rattle.run_laws.specs.ActedScripts.{IsScriptedActing};

/// Two runs of one mission with an actuator over a bus that does what the script says, each of which came to its last
/// cycle or to its stop: where the script forges no sweep frame they stop in the same slot with the same sets, or
/// neither stops, and their reports with the actuator's words are the same text.
pub fn scripted_actings_end_alike()
    ensures stops { (M : MissionValue) (F G : Log) → ForgesNoSweep (bus_rules M) → IsScriptedActing M F →
        IsScriptedActing M G →
        acted_stop F (acted_cycles M F) ≡ acted_stop G (acted_cycles M G) }
    ensures reports { (M : MissionValue) (a : ActuatorValue) (F G : Log) → ForgesNoSweep (bus_rules M) →
        IsScriptedActing M F →
        IsScriptedActing M G → acted_report false M a F [] ≡ acted_report false M a G [] }
{}
