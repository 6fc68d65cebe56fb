//! How a node passes from one cycle to the next.
ghost use Rattle.std.specs.Prelude.{◌≡◌, ◌≤◌, ◌<◌, true, ℕ, suc, ◌∷◌, if◌then◌else◌};
ghost use Rattle.guards_model.specs.declared.Slot.{Slot};
ghost use Rattle.guards_model.specs.declared.Slot.TheVariants.{Request, Sweep, Final, Switch};
ghost use Rattle.guards_model.specs.Slots.{up_to, on_bus, stage_after, stage_before};
ghost use Rattle.guards_model.specs.Channels.{Channel, has};
ghost use Rattle.guards_model.specs.Missions.{MissionValue, IsMission, written_blocks};
ghost use Rattle.guards_model.specs.Network.{Log};
ghost use Rattle.guards_model.specs.Ledgers.{is_down};
ghost use Rattle.guards_model.specs.Controls.{closed_by};
ghost use Rattle.guards_model.specs.Rounds.{Steps};
ghost use Rattle.guards_runs.specs.Cycles.{this_cycle, cycles_before, cycle_at, active_set, mode_in};
ghost use Rattle.guards_runs.specs.ControlFacts.{closed_of};
ghost use Rattle.guards_runs.specs.Promises.{HasRun};
ghost use Rattle.guards_nodes.specs.NodeStates.{StateValue, fallen, between_cycles};
ghost use Rattle.guards_nodes.specs.NodeSteps.{kept_of, plan_in, after_close};
ghost use Rattle.guards_world.specs.NodeFacts.{state_at, held_in, running_value_in, state_in, state_at_opening};
ghost use Rattle.guards_world.specs.SlotSteps.{opened_state, ended_state};

/// At a cycle's start the restarts, the damages and the source words take each node to what the facts say there.
pub fn nodes_open_cycles()
    ensures { (M : MissionValue) (L : Log) (n : ℕ) (steps : Steps) (q : Channel) (state : StateValue) → q < 7 →
        let past = cycles_before M L n in
        between_cycles state ≡ state_at M past q →
        opened_state M past q state ≡ state_at_opening M past (cycle_at M L n) steps q }
{}

/// From slot to slot the nodes of channels that are down fall, and the others stay.
pub fn crashes_fell()
    ensures first { (M : MissionValue) (L : Log) (n : ℕ) (steps : Steps) (q : Channel) → q < 7 →
        let past = cycles_before M L n in
        let e = cycle_at M L n in
        state_in M past e steps Request (stage_before Request) q
        ≡ (if is_down (mode_in e q Request) then fallen else state_at_opening M past e steps q) }
    ensures later { (M : MissionValue) (L : Log) (n : ℕ) (steps : Steps) (before slot : Slot) (done : ℕ) (q : Channel) →
        q < 7 →
        up_to before slot ≡ true → on_bus slot ≡ true →
        let past = cycles_before M L n in
        let e = cycle_at M L n in
        state_in M past e steps slot done q
        ≡ (if is_down (mode_in e q slot) then fallen else state_in M past e steps before done q) }
{}

/// Closing a cycle leaves the control of the next one, and answers what the facts say; the last two slots leave it so.
pub fn cycles_are_closed()
    ensures state { (M : MissionValue) (L : Log) (n : ℕ) (steps : Steps) (q : Channel) →
        let past = cycles_before M L n in
        let e = cycle_at M L n in
        after_close M.rules (written_blocks M (this_cycle past)) (kept_of e.decision e.inputs)
        (running_value_in M past e steps (stage_before Sweep) q)
        ≡ running_value_in M past e steps (stage_before Final) q }
    ensures answer { (M : MissionValue) (L : Log) (n : ℕ) (q : Channel) →
        let past = cycles_before M L n in
        let e = cycle_at M L n in
        closed_by M.rules.last (plan_in M.rules (held_in M past e (stage_before Sweep) q))
        (written_blocks M (this_cycle past)) (held_in M past e (stage_before Sweep) q).control
        ≡ closed_of e }
    ensures last_copies { (M : MissionValue) (L : Log) (n : ℕ) (steps : Steps) (q : Channel) →
        running_value_in M (cycles_before M L n) (cycle_at M L n) steps (stage_before Final) q
        ≡ running_value_in M (cycles_before M L n) (cycle_at M L n) steps (stage_before Switch) q }
    ensures switches { (M : MissionValue) (L : Log) (n : ℕ) (steps : Steps) (q : Channel) →
        running_value_in M (cycles_before M L n) (cycle_at M L n) steps (stage_before Switch) q
        ≡ running_value_in M (cycles_before M L n) (cycle_at M L n) steps (stage_after Switch) q }
{}

/// At the end of a cycle of a run the nodes that are switched off rest and those that took a final content rise: each
/// holds then what the facts say at the start of the next cycle.
pub fn nodes_end_cycles()
    ensures { (M : MissionValue) (L : Log) (n : ℕ) (steps : Steps) (q : Channel) → IsMission M → suc n ≤ M.cycles →
        HasRun M L (suc n) → q < 7 →
        let past = cycles_before M L n in
        let e = cycle_at M L n in
        between_cycles (ended_state (has (active_set M (e ∷ past)) q)
        (state_in M past e steps Switch (stage_after Switch) q)) ≡ state_at M (e ∷ past) q }
{}
