//! How many entries there are.
ghost use Rattle.std.specs.Prelude.{◌≤◌, ℕ, ◌++◌, length};
ghost use Rattle.guards_model.specs.declared.Slot.{Slot};
ghost use Rattle.guards_model.specs.Missions.{MissionValue};
ghost use Rattle.guards_model.specs.Network.{Log};
ghost use Rattle.guards_model.specs.Rounds.{Steps};
ghost use Rattle.guards_runs.specs.Cycles.{cycle_at};
ghost use Rattle.guards_runs.specs.Due.{slot_carries};
ghost use Rattle.guards_world.specs.Worlds.{WorldValue};
ghost use Rattle.guards_world.specs.InCycle.{InCycle};

/// Within a cycle no more than a million entries were carried since the start, and a slot carries no more than 49.
pub fn entries_fit()
    ensures carried { (M : MissionValue) (earlier current : Log) (steps : Steps) (slot : Slot) (carried handed : ℕ)
        (w : WorldValue) →
        InCycle M earlier current steps slot carried handed w → w.carried ≤ 1000000 }
    ensures slot { (M : MissionValue) (earlier current : Log) (steps : Steps) (last slot : Slot) (carried handed : ℕ)
        (w : WorldValue) →
        InCycle M earlier current steps last carried handed w →
        length (slot_carries w.done (cycle_at M (earlier ++ current) w.done) slot) ≤ 49 }
{}
