//! What a sound cycle hands to the actuator.
ghost use Rattle.std.specs.Prelude.{◌≡◌, length, true};
ghost use Rattle.guards_model.specs.Frames.{is_set};
ghost use Rattle.guards_model.specs.Missions.{MissionValue, IsMission, output_words};
ghost use Rattle.guards_model.specs.Records.{shown};
ghost use Rattle.guards_model.specs.Rounds.{Steps};
ghost use Rattle.guards_model.specs.Texts.{RecordValue};
ghost use Rattle.guards_runs.specs.Cycles.{Past, Cycle, this_cycle};
ghost use Rattle.guards_runs.specs.Promises.{Agrees};
ghost use Rattle.guards_runs.specs.Report.{cycle_record};
ghost use Rattle.output_gate.specs.Exchanging.{MayExchange, VoteFor};
ghost use Rattle.guards_runs.specs.Disturbed.{settled_of};

/// The record of a cycle in which all agree may be exchanged with an actuator, and its lines vote for the output words
/// of the ideal context.
pub fn cycles_may_exchange()
    ensures allowed { (M : MissionValue) (steps : Steps) (past : Past) (e : Cycle) (part : RecordValue) → IsMission M →
        is_set e.active ≡ true → Agrees M past e →
        shown M.rules.channels M.width (length M.outputs) part ≡ cycle_record M steps (this_cycle past) e →
        MayExchange M.rules.version (length M.outputs) part (settled_of (this_cycle past) e) }
    ensures votes { (M : MissionValue) (steps : Steps) (past : Past) (e : Cycle) (part : RecordValue) → IsMission M →
        is_set e.active ≡ true → Agrees M past e →
        shown M.rules.channels M.width (length M.outputs) part ≡ cycle_record M steps (this_cycle past) e →
        VoteFor (output_words M e.ideal_context) part.lines }
{}
