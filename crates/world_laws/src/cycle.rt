//! How the world passes a cycle, slot by slot.
ghost use Rattle.std.specs.Prelude.{◌≡◌, ◌<◌, true, false, ℕ, suc, [], ◌++◌, length, take, None};
ghost use Rattle.std.specs.List.{AllZip, list_any};
ghost use Rattle.guards_model.specs.declared.Slot.{Slot};
ghost use Rattle.guards_model.specs.declared.Slot.TheVariants.{Request, Tasks, Switch};
ghost use Rattle.guards_model.specs.Slots.{slot_index, on_bus, stage_after, stage_before};
ghost use Rattle.guards_model.specs.Missions.{MissionValue};
ghost use Rattle.guards_model.specs.Network.{Log};
ghost use Rattle.guards_model.specs.Rounds.{Steps};
ghost use Rattle.guards_runs.specs.Cycles.{cycles_before, cycle_at, received_body};
ghost use Rattle.guards_runs.specs.Disturbed.{halts};
ghost use Rattle.guards_runs.specs.Due.{slot_carries};
ghost use Rattle.guards_runs.specs.Promises.{DecideAlike};
ghost use Rattle.guards_world.specs.Worlds.{WorldValue, StandsForWorld};
ghost use Rattle.guards_world.specs.InCycle.{InCycle};
ghost use Rattle.guards_world.specs.Passing.{world_after, world_carried, world_in, AreDueCarries, Arrives, is_carry_between, IsStopIn, IsFront};

/// A world for which a log stands, and which has a cycle left, enters it; and within a cycle its nodes and its ledger
/// enter a slot, or take what it carried.
pub fn slots_are_entered()
    ensures first { (w : WorldValue) (L : Log) (steps : Steps) → StandsForWorld w L → w.done < w.mission.cycles →
        w.spent ≡ None →
        InCycle w.mission L [] steps Request (stage_before Request) (stage_before Request)
        (world_in w.mission (L ++ []) steps Request 0 w) }
    ensures later { (M : MissionValue) (earlier current : Log) (steps : Steps) (slot next : Slot)
        (carried handed more : ℕ) (w : WorldValue) →
        InCycle M earlier current steps slot carried handed w →
        InCycle M earlier current steps next carried more (world_in M (earlier ++ current) steps next more w) }
{}

/// When the entries that are due in a slot by what was known before it are carried, they are those of the longer log,
/// and nothing that was known changes: so the cycle goes on or stops there. Where only some were carried, what the log
/// has of the cycle is a front of its due entries.
pub fn slots_are_carried()
    ensures goes_on { (M : MissionValue) (earlier current new : Log) (steps : Steps) (slot : Slot) (w : WorldValue) →
        on_bus slot ≡ true →
        InCycle M earlier current steps slot (stage_before slot) (stage_before slot) w →
        AreDueCarries M (earlier ++ current) w.done steps
        (slot_carries w.done (cycle_at M (earlier ++ current) w.done) slot) new →
        halts w.done (cycle_at M (earlier ++ (current ++ new)) w.done) slot ≡ false →
        InCycle M earlier (current ++ new) steps slot (stage_after slot) (stage_before slot)
        (world_carried (length new) w) }
    ensures stops { (M : MissionValue) (earlier current new : Log) (steps : Steps) (slot : Slot) (w : WorldValue) →
        on_bus slot ≡ true →
        InCycle M earlier current steps slot (stage_before slot) (stage_before slot) w →
        AreDueCarries M (earlier ++ current) w.done steps
        (slot_carries w.done (cycle_at M (earlier ++ current) w.done) slot) new →
        halts w.done (cycle_at M (earlier ++ (current ++ new)) w.done) slot ≡ true →
        IsStopIn M earlier (current ++ new) w.done steps slot }
    ensures breaks_off { (M : MissionValue) (earlier current new : Log) (steps : Steps) (slot : Slot) (w : WorldValue)
        (few : ℕ) → on_bus slot ≡ true →
        InCycle M earlier current steps slot (stage_before slot) (stage_before slot) w →
        AreDueCarries M (earlier ++ current) w.done steps
        (take few (slot_carries w.done (cycle_at M (earlier ++ current) w.done) slot)) new →
        IsFront M earlier (current ++ new) w.done }
{}

/// What was delivered of each entry of the slot is just what its receiver has received by the facts: the frame that the
/// piece spells, where it counts. The slot's entries alone say it, and between other pairs nothing is received.
pub fn pieces_arrive()
    ensures each { (M : MissionValue) (earlier current new : Log) (steps : Steps) (slot : Slot) (w : WorldValue) →
        on_bus slot ≡ true →
        InCycle M earlier current steps slot (stage_before slot) (stage_before slot) w →
        AreDueCarries M (earlier ++ current) w.done steps
        (slot_carries w.done (cycle_at M (earlier ++ current) w.done) slot) new →
        AllZip (Arrives M (cycle_at M (earlier ++ (current ++ new)) w.done).entries)
        (slot_carries w.done (cycle_at M (earlier ++ current) w.done) slot) new }
    ensures slot_alone { (M : MissionValue) (earlier current new : Log) (steps : Steps) (slot : Slot) (w : WorldValue)
        (from to : ℕ) →
        on_bus slot ≡ true → InCycle M earlier current steps slot (stage_before slot) (stage_before slot) w →
        AreDueCarries M (earlier ++ current) w.done steps
        (slot_carries w.done (cycle_at M (earlier ++ current) w.done) slot) new →
        received_body M (cycle_at M (earlier ++ (current ++ new)) w.done).entries w.done slot from to
        ≡ received_body M new w.done slot from to }
    ensures nothing_else { (M : MissionValue) (earlier current new : Log) (steps : Steps) (slot : Slot) (w : WorldValue)
        (from to : ℕ) →
        on_bus slot ≡ true → InCycle M earlier current steps slot (stage_before slot) (stage_before slot) w →
        AreDueCarries M (earlier ++ current) w.done steps
        (slot_carries w.done (cycle_at M (earlier ++ current) w.done) slot) new →
        list_any (is_carry_between from to) (slot_carries w.done (cycle_at M (earlier ++ current) w.done) slot)
        ≡ false →
        received_body M (cycle_at M (earlier ++ (current ++ new)) w.done).entries w.done slot from to ≡ None }
{}

/// Once the rounds are carried, all active channels decide alike, whoever crashes afterwards and wherever the run
/// stops.
pub fn rounds_settle_decisions()
    ensures { (M : MissionValue) (earlier current : Log) (steps : Steps) (slot : Slot) (handed : ℕ) (w : WorldValue) →
        InCycle M earlier current steps slot (stage_before Tasks) handed w →
        DecideAlike M (cycles_before M (earlier ++ current) w.done) (cycle_at M (earlier ++ current) w.done) }
{}

/// Where all slots of a cycle are done, and none of them halted, the log with the cycle's entries stands for the world
/// after it, in which one cycle more is done.
pub fn worlds_go_on()
    ensures { (M : MissionValue) (earlier current : Log) (steps : Steps) (w : WorldValue) →
        InCycle M earlier current steps Switch (stage_after Switch) (stage_after Switch) w →
        StandsForWorld (world_after M earlier current steps w.done w.carried) (earlier ++ current) }
{}
