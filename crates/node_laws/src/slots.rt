//! What each call of a node within a cycle does, by the facts.
ghost use Rattle.std.specs.Prelude.{◌≡◌, ◌≤◌, ◌<◌, ◌==◌, true, false, ℕ, suc, List, [], ◌∷◌, Some, None};
ghost use Rattle.guards_model.specs.declared.Slot.TheVariants.{Request, Round1, Round3, Tasks, Vote, Sweep, Final, Switch};
ghost use Rattle.guards_model.specs.Channels.{Channel, has, without, place_or, every_channel};
ghost use Rattle.guards_model.specs.Contexts.{ContextValue};
ghost use Rattle.guards_model.specs.Missions.{MissionValue, IsMission, cycle_writes, written_blocks};
ghost use Rattle.guards_model.specs.Network.{Log, have_of, ballot_of};
ghost use Rattle.guards_model.specs.Voting.{Ballots};
ghost use Rattle.guards_model.specs.Rounds.{Steps, steps_of};
ghost use Rattle.guards_model.specs.Slots.{stage_after, stage_before};
ghost use Rattle.guards_runs.specs.Cycles.{Past, Cycle, this_cycle, cycles_before, cycle_at, received_body, received_items, items_in};
ghost use Rattle.guards_runs.specs.Due.{is_round, due_origin};
ghost use Rattle.guards_runs.specs.Promises.{DecidesAlike};
ghost use Rattle.guards_runs.specs.Report.{line_of};
ghost use Rattle.guards_runs.specs.Restoration.{sweeps_at, finals_at};
ghost use Rattle.guards_nodes.specs.NodeSteps.{kept_of, after_decision, origin_by, after_steps, after_votes, line_by, after_sweep_frames, after_final_frames};
ghost use Rattle.guards_world.specs.NodeFacts.{received_through, tree_value_in, held_in, progress_in, running_value_in, joiner_in};
ghost use Rattle.guards_world.specs.SlotSteps.{after_requests, with_round};

/// The requests that count in the request slot, each heard in turn.
pub fn requests_are_heard()
    ensures { (M : MissionValue) (L : Log) (n : ℕ) (steps : Steps) (q : Channel) → q < 7 →
        let past = cycles_before M L n in
        let e = cycle_at M L n in
        after_requests (λ j. have_of (received_body M e.entries (this_cycle past) Request j q)) every_channel
        (running_value_in M past e steps (stage_before Request) q)
        ≡ running_value_in M past e steps (stage_before Round1) q }
{}

/// The exchanges of the other members in a round, each received in turn, make the list that the facts name; where there
/// is no such round, nothing is received.
pub fn exchanges_are_received()
    ensures round { (M : MissionValue) (past : Past) (e : Cycle) (q : Channel) (round : ℕ) → 1 ≤ round →
        is_round e round ≡ true →
        with_round round (items_in (received_items M e.entries (this_cycle past) q) round) (without e.active (q ∷ []))
        (received_through M past e round q)
        ≡ received_through M past e (suc round) q }
    ensures none { (M : MissionValue) (past : Past) (e : Cycle) (q : Channel) (round : ℕ) → is_round e round ≡ false →
        received_through M past e round q ≡ received_through M past e (suc round) q }
{}

/// A channel that resolves the words as the facts say decides from what it received as they say.
pub fn nodes_decide()
    ensures { (M : MissionValue) (L : Log) (n : ℕ) (steps : Steps) (q : Channel) →
        let past = cycles_before M L n in
        let e = cycle_at M L n in
        DecidesAlike M past e q →
        after_decision M.rules (this_cycle past) (received_through M past e (stage_before Tasks) q)
        (record {
          held = held_in M past e (stage_before Round3) q;
          progress = record (progress_in M past e steps (stage_before Round3) q) {
            tree =
                Some (tree_value_in M past e (stage_before Tasks) q);
          };
        })
        ≡ running_value_in M past e steps (stage_before Tasks) q }
{}

/// Its round begins with the origin that the facts name, and by the steps that it makes it holds the context after the
/// writes, and the copies that are due.
pub fn nodes_work()
    ensures origin { (M : MissionValue) (L : Log) (n : ℕ) (q : Channel) →
        let past = cycles_before M L n in
        let e = cycle_at M L n in
        origin_by M.rules (cycle_writes M (this_cycle past)) (this_cycle past) (held_in M past e (stage_before Tasks) q)
        (kept_of e.decision e.inputs)
        ≡ due_origin M past e q }
    ensures state { (M : MissionValue) (L : Log) (n : ℕ) (steps : Steps) (q : Channel) → q < 7 →
        let past = cycles_before M L n in
        let e = cycle_at M L n in
        after_steps M.rules (cycle_writes M (this_cycle past)) (this_cycle past) (steps_of steps q)
        (kept_of e.decision e.inputs)
        (running_value_in M past e steps (stage_before Tasks) q)
        ≡ running_value_in M past e steps (stage_before Vote) q }
{}

/// With the ballots that count at it, it keeps the accusations of the facts, and its line is the one of the report.
pub fn votes_are_taken()
    ensures state { (M : MissionValue) (L : Log) (n : ℕ) (steps : Steps) (q : Channel) (ctx : ContextValue)
        (ballots : Ballots) →
        let past = cycles_before M L n in
        let e = cycle_at M L n in
        q < 7 → has e.active q ≡ true → place_or e.contexts_after q None ≡ Some ctx →
        ((j : Channel) → j < 7 → (j == q) ≡ false →
        place_or ballots j None ≡ ballot_of (received_body M e.entries (this_cycle past) Vote j q)) →
        after_votes q M.outputs ballots (running_value_in M past e steps (stage_before Vote) q)
        ≡ running_value_in M past e steps (stage_before Sweep) q }
    ensures line { (M : MissionValue) (L : Log) (n : ℕ) (steps : Steps) (q : Channel) (ctx : ContextValue)
        (ballots : Ballots) →
        let past = cycles_before M L n in
        let e = cycle_at M L n in
        q < 7 → has e.active q ≡ true → place_or e.contexts_after q None ≡ Some ctx →
        ((j : Channel) → j < 7 → (j == q) ≡ false →
        place_or ballots j None ≡ ballot_of (received_body M e.entries (this_cycle past) Vote j q)) →
        line_by M.rules q M.outputs (running_value_in M past e steps (stage_before Vote) q)
        (kept_of e.decision e.inputs) ballots ≡ line_of M e q }
{}

/// A joining channel's replica takes the sweep frames that count, and then the final content.
pub fn joiners_are_filled()
    ensures sweep { (M : MissionValue) (past : Past) (e : Cycle) (q : Channel) →
        after_sweep_frames M.rules.blocks (this_cycle past) (sweeps_at M past e q)
        (joiner_in M past e (stage_before Sweep) q) ≡ joiner_in M past e (stage_before Final) q }
    ensures last_copies { (M : MissionValue) (past : Past) (e : Cycle) (q : Channel) →
        after_final_frames (finals_at M past e q) (joiner_in M past e (stage_before Final) q)
        ≡ joiner_in M past e (stage_before Switch) q }
    ensures switches { (M : MissionValue) (past : Past) (e : Cycle) (q : Channel) →
        joiner_in M past e (stage_before Switch) q ≡ joiner_in M past e (stage_after Switch) q }
{}
