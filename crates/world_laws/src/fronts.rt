//! What was carried of a cycle, wherever memory runs out in it.
ghost use Rattle.std.specs.Prelude.{◌≡◌, true, ℕ, ◌++◌, take};
ghost use Rattle.guards_model.specs.declared.Slot.{Slot};
ghost use Rattle.guards_model.specs.Slots.{slot_index, on_bus, stage_before};
ghost use Rattle.guards_model.specs.Missions.{MissionValue};
ghost use Rattle.guards_model.specs.Network.{Log};
ghost use Rattle.guards_model.specs.Rounds.{Steps};
ghost use Rattle.guards_runs.specs.Cycles.{cycle_at};
ghost use Rattle.guards_runs.specs.Due.{slot_carries};
ghost use Rattle.guards_world.specs.Worlds.{WorldValue};
ghost use Rattle.guards_world.specs.InCycle.{InCycle};
ghost use Rattle.guards_world.specs.Passing.{AreDueCarries};
ghost use Rattle.world_laws.specs.Fronts.{IsRunFront};

/// Within a slot, when only some of its entries were carried, what the log has of the cycle is a front of the run's due
/// entries: the slots before did not stop the run, and nothing of a later one was carried.
pub fn fronts_end_at_stops()
    ensures { (M : MissionValue) (earlier current new : Log) (steps : Steps) (slot : Slot) (w : WorldValue) (few : ℕ) →
        on_bus slot ≡ true →
        InCycle M earlier current steps slot (stage_before slot) (stage_before slot) w →
        AreDueCarries M (earlier ++ current) w.done steps
        (take few (slot_carries w.done (cycle_at M (earlier ++ current) w.done) slot)) new →
        IsRunFront M earlier (current ++ new) w.done }
{}
