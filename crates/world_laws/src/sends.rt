//! The law that what the nodes send in a slot is what is due there: the contract of a function without a body.
ghost use Rattle.std.specs.Prelude.{◌≡◌, ℕ, All, List, ◌++◌, take};
ghost use Rattle.std.specs.List.{AllZip};
ghost use Rattle.guards_model.specs.declared.Slot.{Slot};
ghost use Rattle.guards_model.specs.declared.Slot.TheVariants.{Sweep};
ghost use Rattle.guards_model.specs.Slots.{slot_index, stage_before};
ghost use Rattle.guards_model.specs.Missions.{MissionValue};
ghost use Rattle.guards_model.specs.Network.{Log};
ghost use Rattle.guards_model.specs.Rounds.{Steps};
ghost use Rattle.guards_runs.specs.Cycles.{cycles_before, cycle_at};
ghost use Rattle.guards_runs.specs.Due.{receivers, slot_carries};
ghost use Rattle.guards_world.specs.NodeFacts.{received_through};
ghost use Rattle.guards_world.specs.Worlds.{WorldValue};
ghost use Rattle.guards_world.specs.InCycle.{InCycle};
ghost use Rattle.guards_world.specs.WorldCycle.{AreFull};
ghost use Rattle.guards_world.specs.Passing.{AreDueCarries};
ghost use Rattle.guards_world.specs.NodeLists.{StandsForReceived};
ghost use Rattle.guards_world.specs.SlotSends.{MaySend, IsEntryOf, all_sends};

/// When the world has entered a slot: each node stands for what it received, each of its frames has a spelling, and
/// what all nodes send, one after the other, are the carries of the slot in their order, with the bytes that are due on
/// them. So are the first few. The steps of those who worked are full, where the slot is that of the sweep.
pub fn sends_are_due()
    ensures stands { (M : MissionValue) (earlier current : Log) (steps : Steps) (slot : Slot) (w : WorldValue) →
        InCycle M earlier current steps slot (stage_before slot) (stage_before slot) w →
        let past = cycles_before M (earlier ++ current) w.done in
        let e = cycle_at M (earlier ++ current) w.done in
        All (StandsForReceived (λ q. received_through M past e (stage_before slot) q)) w.nodes }
    ensures may_send { (M : MissionValue) (earlier current : Log) (steps : Steps) (slot : Slot) (w : WorldValue) →
        InCycle M earlier current steps slot (stage_before slot) (stage_before slot) w →
        let past = cycles_before M (earlier ++ current) w.done in
        let e = cycle_at M (earlier ++ current) w.done in
        (slot ≡ Sweep → AreFull M past e steps) →
        All (MaySend M w.done slot (λ q. received_through M past e (stage_before slot) q)) w.nodes }
    ensures whole { (M : MissionValue) (earlier current new : Log) (steps : Steps) (slot : Slot) (to : List ℕ)
        (w : WorldValue) →
        InCycle M earlier current steps slot (stage_before slot) (stage_before slot) w →
        let past = cycles_before M (earlier ++ current) w.done in
        let e = cycle_at M (earlier ++ current) w.done in
        (slot ≡ Sweep → AreFull M past e steps) → receivers e slot ≡ to →
        AllZip IsEntryOf (all_sends M w.done slot to (λ q. received_through M past e (stage_before slot) q) w.nodes)
        new →
        AreDueCarries M (earlier ++ current) w.done steps (slot_carries w.done e slot) new }
    ensures some { (M : MissionValue) (earlier current new : Log) (steps : Steps) (slot : Slot) (to : List ℕ) (few : ℕ)
        (w : WorldValue) →
        InCycle M earlier current steps slot (stage_before slot) (stage_before slot) w →
        let past = cycles_before M (earlier ++ current) w.done in
        let e = cycle_at M (earlier ++ current) w.done in
        (slot ≡ Sweep → AreFull M past e steps) → receivers e slot ≡ to →
        AllZip IsEntryOf (take few
        (all_sends M w.done slot to (λ q. received_through M past e (stage_before slot) q) w.nodes)) new →
        AreDueCarries M (earlier ++ current) w.done steps (take few (slot_carries w.done e slot)) new }
{}
