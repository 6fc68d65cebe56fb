//! Laws by which what the world does to its nodes takes them from slot to slot of a cycle, by the facts: each is the
//! contract of a function without a body.
ghost use Rattle.std.specs.Prelude.{◌≡◌, ◌<◌, true, ℕ, List, ◌∷◌, ◌++◌, map, All};
ghost use Rattle.guards_model.specs.declared.Slot.{Slot};
ghost use Rattle.guards_model.specs.declared.Slot.TheVariants.{Request, Vote, Sweep, Final, Switch};
ghost use Rattle.guards_model.specs.Slots.{up_to, on_bus, stage_after, stage_before};
ghost use Rattle.guards_model.specs.Channels.{Channel, ChannelSet, has};
ghost use Rattle.guards_model.specs.Missions.{MissionValue, IsMission, channels_of};
ghost use Rattle.guards_model.specs.Network.{Log};
ghost use Rattle.guards_model.specs.Rounds.{Steps};
ghost use Rattle.guards_model.specs.Ledgers.{turned_down, ledger_at_start};
ghost use Rattle.guards_runs.specs.Cycles.{cycles_before, cycle_at, active_set};
ghost use Rattle.guards_nodes.specs.NodeStates.{NodeValue, without_progress};
ghost use Rattle.guards_world.specs.NodeFacts.{node_at, ledger_at};
ghost use Rattle.guards_world.specs.SlotSteps.{begins_to_join};
ghost use Rattle.guards_world.specs.Worlds.{WorldValue, StandsForWorld};
ghost use Rattle.guards_world.specs.InCycle.{ledger_in};
ghost use Rattle.guards_world.specs.NodeLists.{Bodies, MayOpen, opened_with, fallen_if, with_requests, with_votes, with_sweeps, closed_in, with_finals, ended_on};
ghost use Rattle.guards_world.specs.Passing.{world_after};
ghost use Rattle.guards_world.specs.Arrivals.{AreArrivals, HaveWorked, nodes_in, nodes_opened};

/// What is known of a node at a cycle's start is true of all nodes of a world for which a log stands.
pub fn worlds_may_open()
    ensures { (w : WorldValue) (L : Log) → StandsForWorld w L → All (MayOpen w.mission) w.nodes }
{}

/// At a cycle's start the restarts, the damages and the source words take the nodes of the cycle before to those that
/// the facts name; and without those that the first slot's crashes fell, they are the nodes of the request slot.
pub fn nodes_open_cycle()
    ensures opened { (M : MissionValue) (L : Log) (n : ℕ) (steps : Steps) (nodes : List NodeValue)
        (joining : ChannelSet) → IsMission M →
        map without_progress nodes ≡ map (node_at M (cycles_before M L n)) (channels_of M) →
        ((q : Channel) → q < 7 → has joining q ≡ begins_to_join M (cycles_before M L n) q) →
        map (opened_with M n joining) nodes ≡ nodes_opened M L n steps }
    ensures entered { (M : MissionValue) (L : Log) (n : ℕ) (steps : Steps) → IsMission M →
        map (fallen_if (turned_down (ledger_at_start M.script n (ledger_at M (cycles_before M L n)))
        (ledger_in M (cycle_at M L n) Request)))
        (nodes_opened M L n steps)
        ≡ nodes_in M L n steps Request (stage_before Request) }
{}

/// From slot to slot, the nodes of the channels that the ledger tells fell are those of the slot.
pub fn nodes_enter_slots()
    ensures { (M : MissionValue) (L : Log) (n : ℕ) (steps : Steps) (before slot : Slot) (handed : ℕ) → IsMission M →
        up_to before slot ≡ true → on_bus slot ≡ true →
        map (fallen_if (turned_down (ledger_in M (cycle_at M L n) before) (ledger_in M (cycle_at M L n) slot)))
        (nodes_in M L n steps before handed)
        ≡ nodes_in M L n steps slot handed }
{}

/// With the requests that arrived, the nodes are those of the request slot handed over.
pub fn nodes_hear_requests()
    ensures { (M : MissionValue) (L : Log) (n : ℕ) (steps : Steps) (got : Bodies) → IsMission M →
        AreArrivals M L n Request got →
        map (with_requests got) (nodes_in M L n steps Request (stage_before Request))
        ≡ nodes_in M L n steps Request (stage_after Request) }
{}

/// With the ballots that arrived, where the running channels have worked, the nodes are those of the vote slot handed
/// over.
pub fn nodes_take_votes()
    ensures { (M : MissionValue) (L : Log) (n : ℕ) (steps : Steps) (got : Bodies) → IsMission M →
        AreArrivals M L n Vote got → HaveWorked M L n →
        map (with_votes M got) (nodes_in M L n steps Vote (stage_before Vote))
        ≡ nodes_in M L n steps Vote (stage_after Vote) }
{}

/// With the sweep frames that arrived, and the cycle closed, the nodes are those of the sweep slot handed over.
pub fn nodes_take_sweeps()
    ensures { (M : MissionValue) (L : Log) (n : ℕ) (steps : Steps) (got : Bodies) → IsMission M →
        AreArrivals M L n Sweep got →
        map (closed_in M n) (map (with_sweeps n (cycle_at M L n).active got)
        (nodes_in M L n steps Sweep (stage_before Sweep))) ≡ nodes_in M L n steps Sweep (stage_after Sweep) }
{}

/// With the final frames that arrived, the nodes are those of the final slot handed over.
pub fn nodes_take_finals()
    ensures { (M : MissionValue) (L : Log) (n : ℕ) (steps : Steps) (got : Bodies) → IsMission M →
        AreArrivals M L n Final got →
        map (with_finals (cycle_at M L n).active got) (nodes_in M L n steps Final (stage_before Final))
        ≡ nodes_in M L n steps Final (stage_after Final) }
{}

/// The switch slot hands nothing to the nodes; at the cycle's end those that are switched off rest, and those that took
/// a content run: they are the nodes of the world after the cycle.
pub fn nodes_are_switched()
    ensures handed { (M : MissionValue) (L : Log) (n : ℕ) (steps : Steps) → IsMission M →
        nodes_in M L n steps Switch (stage_before Switch) ≡ nodes_in M L n steps Switch (stage_after Switch) }
    ensures after { (M : MissionValue) (earlier current : Log) (n : ℕ) (steps : Steps) (carried : ℕ) → IsMission M →
        map (ended_on (active_set M (cycle_at M (earlier ++ current) n ∷ cycles_before M (earlier ++ current) n)))
        (nodes_in M (earlier ++ current) n steps Switch (stage_after Switch))
        ≡ (world_after M earlier current steps n carried).nodes }
{}
