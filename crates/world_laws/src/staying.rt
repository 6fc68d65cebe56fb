//! What the entries of later slots leave as it was.
ghost use Rattle.std.specs.Prelude.{◌≡◌, ◌<◌, true, ℕ, ◌++◌};
ghost use Rattle.guards_model.specs.declared.Slot.{Slot};
ghost use Rattle.guards_model.specs.declared.Slot.TheVariants.{Tasks};
ghost use Rattle.guards_model.specs.Slots.{slot_index, stage_after, stage_before};
ghost use Rattle.guards_model.specs.Channels.{Channel, has};
ghost use Rattle.guards_model.specs.Missions.{MissionValue};
ghost use Rattle.guards_model.specs.Modes.{up};
ghost use Rattle.guards_model.specs.Network.{Log};
ghost use Rattle.guards_model.specs.Rounds.{Steps};
ghost use Rattle.guards_runs.specs.Cycles.{cycles_before, cycle_at, mode_in};
ghost use Rattle.guards_runs.specs.SlotFacts.{AreFromPlace};
ghost use Rattle.guards_world.specs.Worlds.{WorldValue};
ghost use Rattle.guards_world.specs.InCycle.{InCycle};
ghost use Rattle.guards_world.specs.WorldCycle.{AreFull};
ghost use Rattle.world_laws.specs.Staying.{RoundsStay, VoteStays};

/// Entries from the tasks slot on change neither who worked in it nor what there was to do: full steps stay full.
pub fn full_stays()
    ensures { (M : MissionValue) (L new : Log) (n : ℕ) (steps : Steps) → AreFromPlace n 4 new →
        AreFull M (cycles_before M L n) (cycle_at M L n) steps →
        AreFull M (cycles_before M (L ++ new) n) (cycle_at M (L ++ new) n) steps }
{}

/// Entries from the tasks slot on leave what the rounds settled and what follows of it, and those from the sweep slot
/// on the votes too.
pub fn decisions_stay()
    ensures rounds { (M : MissionValue) (L new : Log) (n : ℕ) → AreFromPlace n 4 new → RoundsStay M L new n }
    ensures vote { (M : MissionValue) (L new : Log) (n : ℕ) → AreFromPlace n 6 new → VoteStays M L new n }
{}

/// Where so many slots of a cycle are carried, and later the same cycle has come further, the entries since are of the
/// slots that were not carried yet.
pub fn later_slots_follow()
    ensures { (M : MissionValue) (earlier current new : Log) (steps later : Steps) (slot last : Slot)
        (carried handed more given : ℕ)
        (w after : WorldValue) → after.done ≡ w.done → InCycle M earlier current steps slot carried handed w →
        InCycle M earlier (current ++ new) later last more given after → AreFromPlace w.done carried new }
{}

/// Up to the work of the tasks slot nothing in the world or in the log tells the steps of the cycle.
pub fn steps_come_later()
    ensures { (M : MissionValue) (earlier current : Log) (steps other : Steps) (w : WorldValue) →
        InCycle M earlier current steps Tasks (stage_after Tasks) (stage_before Tasks) w →
        InCycle M earlier current other Tasks (stage_after Tasks) (stage_before Tasks) w }
{}

/// In each slot that was carried and did not stop the run some active channel is up.
pub fn channels_run()
    ensures { (M : MissionValue) (earlier current : Log) (steps : Steps) (slot last : Slot) (carried handed : ℕ)
        (w : WorldValue) →
        InCycle M earlier current steps last carried handed w → slot_index slot < carried →
        (q : Channel) × (q < 7) × (mode_in (cycle_at M (earlier ++ current) w.done) q slot ≡ up)
        × (has (cycle_at M (earlier ++ current) w.done).active q ≡ true) }
{}
