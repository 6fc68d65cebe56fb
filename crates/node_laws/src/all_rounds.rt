//! The rounds of the exchange, and the decision.
ghost use Rattle.std.specs.Prelude.{◌≡◌, ◌<◌, true, false, ℕ, map};
ghost use Rattle.guards_model.specs.declared.Slot.TheVariants.{Round1, Round2, Round3, Tasks};
ghost use Rattle.guards_model.specs.Channels.{Channel};
ghost use Rattle.guards_model.specs.Missions.{MissionValue, IsMission};
ghost use Rattle.guards_model.specs.Modes.{up};
ghost use Rattle.guards_model.specs.Network.{Log};
ghost use Rattle.guards_model.specs.Rounds.{Steps};
ghost use Rattle.guards_model.specs.Slots.{stage_after, stage_before};
ghost use Rattle.guards_runs.specs.Cycles.{cycles_before, cycle_at, mode_in};
ghost use Rattle.guards_runs.specs.Due.{is_round};
ghost use Rattle.guards_runs.specs.Promises.{DecidesAlike};
ghost use Rattle.guards_world.specs.NodeFacts.{received_through};
ghost use Rattle.guards_world.specs.NodeLists.{Bodies, with_exchanges, with_decisions};
ghost use Rattle.guards_world.specs.Arrivals.{AreArrivals, nodes_in};

/// With the exchanges that arrived in the first two rounds, the nodes are those of the round handed over; where there
/// is no second round, nothing is received in it.
pub fn nodes_receive_rounds()
    ensures first { (M : MissionValue) (L : Log) (n : ℕ) (steps : Steps) (got : Bodies) → IsMission M →
        AreArrivals M L n Round1 got →
        let e = cycle_at M L n in
        is_round e 1 ≡ true →
        map (with_exchanges 1 e.active got (received_through M (cycles_before M L n) e (stage_before Round1)))
        (nodes_in M L n steps Round1 (stage_before Round1))
        ≡ nodes_in M L n steps Round1 (stage_after Round1) }
    ensures second { (M : MissionValue) (L : Log) (n : ℕ) (steps : Steps) (got : Bodies) → IsMission M →
        AreArrivals M L n Round2 got →
        let e = cycle_at M L n in
        is_round e 2 ≡ true →
        map (with_exchanges 2 e.active got (received_through M (cycles_before M L n) e (stage_before Round2)))
        (nodes_in M L n steps Round2 (stage_before Round2))
        ≡ nodes_in M L n steps Round2 (stage_after Round2) }
    ensures no_second { (M : MissionValue) (L : Log) (n : ℕ) (steps : Steps) → IsMission M →
        is_round (cycle_at M L n) 2 ≡ false →
        nodes_in M L n steps Round2 (stage_before Round2) ≡ nodes_in M L n steps Round2 (stage_after Round2) }
{}

/// With the exchanges of the last round and the decision, where all running channels decide alike, the nodes are those
/// of the last round handed over; also where there is no third round.
pub fn nodes_decide_alike()
    ensures third { (M : MissionValue) (L : Log) (n : ℕ) (steps : Steps) (got : Bodies) → IsMission M →
        AreArrivals M L n Round3 got →
        let past = cycles_before M L n in
        let e = cycle_at M L n in
        is_round e 3 ≡ true → ((q : Channel) → q < 7 → mode_in e q Round3 ≡ up → DecidesAlike M past e q) →
        map (with_decisions M n (received_through M past e (stage_before Tasks)))
        (map (with_exchanges 3 e.active got (received_through M past e (stage_before Round3)))
        (nodes_in M L n steps Round3 (stage_before Round3)))
        ≡ nodes_in M L n steps Round3 (stage_after Round3) }
    ensures no_third { (M : MissionValue) (L : Log) (n : ℕ) (steps : Steps) → IsMission M →
        let past = cycles_before M L n in
        let e = cycle_at M L n in
        is_round e 3 ≡ false → ((q : Channel) → q < 7 → mode_in e q Round3 ≡ up → DecidesAlike M past e q) →
        map (with_decisions M n (received_through M past e (stage_before Tasks)))
        (nodes_in M L n steps Round3 (stage_before Round3)) ≡ nodes_in M L n steps Round3 (stage_after Round3) }
{}
