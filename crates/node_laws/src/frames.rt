//! What a node owes, and what later entries do not change.
ghost use Rattle.std.specs.Prelude.{◌≡◌, ◌≤◌, ◌<◌, ℕ, ◌++◌};
ghost use Rattle.guards_model.specs.declared.Slot.{Slot};
ghost use Rattle.guards_model.specs.Slots.{slot_index, stage_before};
ghost use Rattle.guards_model.specs.Channels.{Channel};
ghost use Rattle.guards_model.specs.Missions.{MissionValue, IsMission};
ghost use Rattle.guards_model.specs.Network.{Log};
ghost use Rattle.guards_model.specs.Rounds.{Steps};
ghost use Rattle.guards_runs.specs.Cycles.{cycles_before, cycle_at};
ghost use Rattle.guards_runs.specs.Promises.{HasRun};
ghost use Rattle.guards_runs.specs.SlotFacts.{AreFromPlace};
ghost use Rattle.guards_nodes.specs.NodeSteps.{StandsFor};
ghost use Rattle.guards_world.specs.NodeFacts.{received_through, state_in};
ghost use Rattle.guards_world.specs.OwedFrames.{body_of, body_due};
ghost use Rattle.guards_world.specs.InCycle.{node_in};

/// Entries of slots that are not done, and of later cycles, change nothing that a node holds.
pub fn nodes_stay()
    ensures { (M : MissionValue) (L new : Log) (n : ℕ) (steps : Steps) (slot : Slot) (done : ℕ) (q : Channel) →
        AreFromPlace n done new → node_in M (L ++ new) n steps slot done q ≡ node_in M L n steps slot done q }
{}

/// What a node owes in a slot, by its state and what it received, is what is due there; and it owes none exactly where
/// none is due.
pub fn nodes_owe_due_frames()
    ensures stands { (M : MissionValue) (L : Log) (n : ℕ) (steps : Steps) (slot : Slot) (done : ℕ) (q : Channel) →
        let past = cycles_before M L n in
        let e = cycle_at M L n in
        StandsFor (state_in M past e steps slot done q) (received_through M past e done q) }
    ensures owed { (M : MissionValue) (L : Log) (n : ℕ) (steps : Steps) (slot : Slot) (q : Channel) (to : ℕ) →
        IsMission M → n ≤ M.cycles → HasRun M L n → q < 7 →
        let past = cycles_before M L n in
        let e = cycle_at M L n in
        body_of M (received_through M past e (stage_before slot) q) slot to
        (state_in M past e steps slot (stage_before slot) q)
        ≡ body_due M past e steps slot q to }
{}
