//! Laws of a return: how long it takes from the restart of a channel until it is declared joined.
ghost use Rattle.std.specs.Prelude.{◌≡◌, ℕ, suc, ◌+◌, ◌<◌, ◌≤◌, length, Some, false, IsTrue};
ghost use Rattle.guards_model.specs.declared.Slot.TheVariants.{Request};
ghost use Rattle.guards_model.specs.Channels.{Channel, has};
ghost use Rattle.guards_model.specs.Missions.{MissionValue, IsMission};
ghost use Rattle.guards_model.specs.Network.{Log};
ghost use Rattle.guards_model.specs.Diagnosis.{asks};
ghost use Rattle.guards_runs.specs.Cycles.{cycles_before, cycle_at, joins_from};
ghost use Rattle.guards_runs.specs.Promises.{HasRun};
ghost use Rattle.recovery_laws.specs.Lengths.{transfer_length, row_of};
ghost use Rattle.recovery_laws.specs.Returning.{IsHeardByAll, IsAlone, ComesBack, IsReturned};

/// In a run, a request that every other active channel receives stands in the next cycle: where its sender is still
/// joining then, was not declared joined, and no transfer is to anyone else.
pub fn requests_that_arrive_stand()
    ensures { (M : MissionValue) (L : Log) (n c : ℕ) (q : Channel) → IsMission M → n ≤ M.cycles → HasRun M L n →
        suc c < n → q < 7 →
        IsTrue (joins_from Request (cycle_at M L (suc c)) q) → IsAlone (cycle_at M L c) q →
        IsHeardByAll M (cycles_before M L c) (cycle_at M L c) q →
        has (cycle_at M L c).joined q ≡ false →
        IsTrue (asks (cycle_at M L (suc c)).active (cycle_at M L (suc c)).fresh (cycle_at M L (suc c)).agreed q) }
{}

/// In a run, a channel that is restarted in cycle c, active still in the next cycle, and joining from then on is
/// removed in cycle c + 1, its transfer starts in cycle c + 2, and in cycle c + 1 + k it is declared joined and is
/// whole, where k is the length of a transfer that starts in cycle c + 2: if its requests arrive, nobody else is
/// removed or restored meanwhile, and more than three channels are active.
pub fn returns_take_their_time()
    ensures { (M : MissionValue) (L : Log) (n c k : ℕ) (q : Channel) → IsMission M → n ≤ M.cycles → HasRun M L n →
        suc (c + k) < n →
        IsTrue (has (cycle_at M L c).active q) → IsTrue (has (cycle_at M L (suc c)).active q) →
        3 < length (cycle_at M L (suc c)).active →
        transfer_length M (row_of M (suc (suc c))) ≡ Some k → ComesBack M L q c (suc (c + k)) → IsReturned M L q c k }
{}
