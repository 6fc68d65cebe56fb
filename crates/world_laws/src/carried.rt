//! A slot that is carried.
ghost use Rattle.std.specs.Prelude.{◌≡◌, ◌<◌, ◌||◌, true, ℕ, ◌++◌};
ghost use Rattle.std.specs.List.{list_any};
ghost use Rattle.guards_model.specs.declared.Slot.{Slot};
ghost use Rattle.guards_model.specs.declared.Slot.TheVariants.{Switch};
ghost use Rattle.guards_model.specs.Slots.{slot_index, on_bus, stage_before};
ghost use Rattle.guards_model.specs.Channels.{Channel, ChannelSet, has};
ghost use Rattle.guards_model.specs.Missions.{MissionValue};
ghost use Rattle.guards_model.specs.Network.{Log};
ghost use Rattle.guards_model.specs.Rounds.{Steps};
ghost use Rattle.guards_runs.specs.Cycles.{cycle_at};
ghost use Rattle.guards_runs.specs.Disturbed.{is_charge};
ghost use Rattle.guards_runs.specs.Due.{slot_carries};
ghost use Rattle.guards_world.specs.Worlds.{WorldValue};
ghost use Rattle.guards_world.specs.InCycle.{InCycle};
ghost use Rattle.guards_world.specs.Passing.{AreDueCarries};
ghost use Rattle.world_laws.specs.Ended.{SlotEnds};

/// When all entries of a slot are carried, and the senders of whom one was not delivered as sent are marked beside
/// those who were charged before, what the world holds tells who is disturbed and whether the run stops in the slot.
pub fn slots_end()
    ensures { (M : MissionValue) (earlier current new : Log) (steps : Steps) (slot : Slot)
        (active charged marked : ChannelSet) (w : WorldValue) →
        on_bus slot ≡ true → InCycle M earlier current steps slot (stage_before slot) (stage_before slot) w →
        AreDueCarries M (earlier ++ current) w.done steps
        (slot_carries w.done (cycle_at M (earlier ++ current) w.done) slot) new →
        active ≡ (cycle_at M (earlier ++ current) w.done).active →
        ((q : Channel) → q < 7 → has charged q ≡ list_any (is_charge w.done Switch q) current) →
        ((q : Channel) → q < 7 → has marked q ≡ (has charged q || list_any (is_charge w.done slot q) new)) →
        SlotEnds M earlier current new steps slot active marked w }
{}
