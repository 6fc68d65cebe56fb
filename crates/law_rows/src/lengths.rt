//! Worked lengths of transfers, which the definitions compute.
ghost use Rattle.std.specs.Prelude.{◌≡◌, ℕ, suc, ◌≤◌, ◌*◌, length, Some, None, true, false, IsTrue};
ghost use Rattle.guards_model.specs.declared.Slot.TheVariants.{Request};
ghost use Rattle.guards_model.specs.Channels.{has};
ghost use Rattle.guards_model.specs.Missions.{IsMission};
ghost use Rattle.guards_model.specs.JoinBound.{most_blocks, join_bound};
ghost use Rattle.guards_runs.specs.Cycles.{cycle_at, cycles_before, joins_from, is_whole};
ghost use Rattle.guards_runs.specs.Promises.{is_transfer_to};
ghost use Rattle.model_rows.specs.Restored as restored_row;
ghost use Rattle.demo_mission.specs.Demo.{demo_mission};
ghost use Rattle.recovery_laws.specs.Lengths.{fits_after, transfer_length, GoesRound, IsKeptTo};
ghost use Rattle.recovery_laws.specs.Endless.{never_ends};
ghost use Rattle.law_rows.specs.Missions.{four_writes, late_fit};

/// A transfer of the mission in which a channel crashes and returns takes three cycles, which is its bound.
pub fn crash_and_return()
    ensures bound { let rules = restored_row.mission.rules in
        join_bound rules.blocks rules.sweep rules.last (most_blocks restored_row.mission.table) ≡ Some 3 }
    ensures length { transfer_length restored_row.mission 0 ≡ Some 3 }
    ensures ends { never_ends restored_row.mission 0 ≡ false }
{}

/// In its worked run, whose transfer starts in cycle 3, no cycle drops the target, which is joined in the third cycle.
pub fn crash_and_return_runs()
    ensures starts { IsTrue (is_transfer_to 4 3 (cycle_at restored_row.mission restored_row.log 3).transfer) }
    ensures kept { IsKeptTo restored_row.mission restored_row.log 4 3 5 }
    ensures joined { IsTrue (has (cycle_at restored_row.mission restored_row.log 5).joined 4) }
{}

/// The channel of that run is restarted in cycle 1, removed in cycle 2, and its transfer starts in cycle 3. So it is
/// joined one cycle and the length of the transfer after its restart, and not a cycle earlier.
pub fn restart_to_join()
    ensures still_active { has (cycle_at restored_row.mission restored_row.log 2).active 4 ≡ true }
    ensures restarted { joins_from Request (cycle_at restored_row.mission restored_row.log 1) 4 ≡ true }
    ensures removed { has (cycle_at restored_row.mission restored_row.log 2).removed 4 ≡ true }
    ensures not_yet { has (cycle_at restored_row.mission restored_row.log 4).joined 4 ≡ false }
    ensures whole { is_whole 4 (cycles_before restored_row.mission restored_row.log 6) ≡ true }
{}

/// A transfer of a mission that writes four blocks in each cycle goes round from the third cycle on, and never ends.
pub fn four_writes_never_end()
    ensures mission { IsMission four_writes }
    ensures bound { let rules = four_writes.rules in
        join_bound rules.blocks rules.sweep rules.last (most_blocks four_writes.table) ≡ None }
    ensures round { GoesRound four_writes 0 3 4 }
    ensures never { (n : ℕ) → fits_after four_writes 0 (suc n) ≡ false }
    ensures length { transfer_length four_writes 0 ≡ None }
    ensures decided { never_ends four_writes 0 ≡ true }
{}

/// A transfer that starts in the first of two rows, with four blocks, takes ten cycles: more than there are pairs of a
/// row and a block. So these are too few to decide that one never ends.
pub fn late_fits()
    ensures mission { IsMission late_fit }
    ensures bound { let rules = late_fit.rules in
        join_bound rules.blocks rules.sweep rules.last (most_blocks late_fit.table) ≡ None }
    ensures pairs { length late_fit.table * late_fit.rules.blocks ≡ 8 }
    ensures length { transfer_length late_fit 0 ≡ Some 10 }
    ensures ends { never_ends late_fit 0 ≡ false }
{}

/// A transfer of demo mission 9 takes nine cycles from each of its four rows, one fewer than its bound.
pub fn demo_of_nine()
    ensures bound { let rules = (demo_mission 9).rules in
        join_bound rules.blocks rules.sweep rules.last (most_blocks (demo_mission 9).table) ≡ Some 10 }
    ensures row_0 { transfer_length (demo_mission 9) 0 ≡ Some 9 }
    ensures row_1 { transfer_length (demo_mission 9) 1 ≡ Some 9 }
    ensures row_2 { transfer_length (demo_mission 9) 2 ≡ Some 9 }
    ensures row_3 { transfer_length (demo_mission 9) 3 ≡ Some 9 }
{}
