//! Laws of the length of a transfer.

ghost use Rattle.std.specs.Prelude.{◌≡◌, ℕ, suc, ◌+◌, ◌-◌, max, ◌<◌, ◌≤◌, ◌↔◌, length, Some, None, false, true, IsTrue};
ghost use Rattle.std.specs.Int.{div_ceil};
ghost use Rattle.guards_model.specs.Channels.{Channel, has};
ghost use Rattle.guards_model.specs.Missions.{MissionValue, IsMission, written_blocks};
ghost use Rattle.guards_model.specs.Network.{Log};
ghost use Rattle.guards_model.specs.JoinBound.{distinct, most_blocks, join_bound};
ghost use Rattle.guards_runs.specs.Cycles.{cycles_before, cycle_at};
ghost use Rattle.guards_runs.specs.Promises.{EachCycle, is_transfer_to};
ghost use Rattle.recovery_laws.specs.Lengths.{fits_after, transfer_length, row_of, counted_length, most_cycles, GoesRound, TakeLength, IsKeptTo, RunsForLength};
ghost use Rattle.recovery_laws.specs.Endless.{never_ends, FitsFirst, EndsOrGoesRound};

/// Whatever the log holds, a transfer plans, writes and leaves in each of its cycles what the row of its start cycle
/// tells, has no more cycles than its length, and its targets are declared joined in the last of these and in no other.
pub fn transfers_take_their_length()
    ensures { (M : MissionValue) (L : Log) (n : ℕ) → IsMission M → n ≤ M.cycles →
        EachCycle (TakeLength M) (cycles_before M L n) }
{}

/// A transfer runs in just the cycles from its start on that its length counts, while no cycle drops the target, and in
/// the last of them the target is declared joined. Where it has no length it runs on, and the target is not declared.
/// And where it still runs to a target, it started with it, and no cycle since dropped it.
pub fn transfers_run_for_their_length()
    ensures runs { (M : MissionValue) (L : Log) (q : Channel) (s c : ℕ) → IsMission M → s ≤ c → c < M.cycles →
        IsTrue (is_transfer_to q s (cycle_at M L s).transfer) → IsKeptTo M L q s c → RunsForLength M L q s c }
    ensures kept { (M : MissionValue) (L : Log) (q : Channel) (s c : ℕ) → s ≤ c →
        IsTrue (is_transfer_to q s (cycle_at M L c).transfer) →
        IsTrue (is_transfer_to q s (cycle_at M L s).transfer) × IsKeptTo M L q s c }
    ensures ends { (M : MissionValue) (L : Log) (q : Channel) (s c k : ℕ) → IsMission M → s ≤ c → c < M.cycles →
        IsTrue (is_transfer_to q s (cycle_at M L s).transfer) → IsKeptTo M L q s c →
        transfer_length M (row_of M s) ≡ Some k → suc c ≡ s + k → IsTrue (has (cycle_at M L c).joined q) }
    ensures endless { (M : MissionValue) (L : Log) (q : Channel) (s c : ℕ) → IsMission M → s ≤ c → c < M.cycles →
        IsTrue (is_transfer_to q s (cycle_at M L s).transfer) → IsKeptTo M L q s c →
        transfer_length M (row_of M s) ≡ None →
        IsTrue (is_transfer_to q s (cycle_at M L c).transfer) × (has (cycle_at M L c).joined q ≡ false) }
{}

/// Where a join has a bound, a transfer from any row ends, and takes no more cycles than the bound. And any transfer
/// that ends takes no fewer cycles than its plans need to leave no more blocks than a final frame has.
pub fn lengths_are_bounded()
    ensures most { (M : MissionValue) (row bound : ℕ) → IsMission M →
        join_bound M.rules.blocks M.rules.sweep M.rules.last (most_blocks M.table) ≡ Some bound →
        (k : ℕ) × (transfer_length M row ≡ Some k) × (k ≤ bound) }
    ensures fewest { (M : MissionValue) (row k : ℕ) → IsMission M → transfer_length M row ≡ Some k →
        max 1 (div_ceil (M.rules.blocks - M.rules.last) M.rules.sweep) ≤ k }
{}

/// What the last cycle of a transfer writes fits a final frame. So where each row writes more blocks than a final frame
/// has, the rest fits after no number of cycles, and no transfer ever ends.
pub fn last_writes_fit()
    ensures last { (M : MissionValue) (row n : ℕ) → IsMission M → fits_after M row (suc n) ≡ true →
        length (distinct (written_blocks M (row + n))) ≤ M.rules.last }
    ensures never { (M : MissionValue) (row n : ℕ) → IsMission M →
        ((c : ℕ) → M.rules.last < length (distinct (written_blocks M c))) → fits_after M row (suc n) ≡ false }
{}

/// The length is counted along by the tags, and depends on the row alone. A transfer that goes round has none, and its
/// rest fits after no number of cycles.
pub fn lengths_are_counted()
    ensures counts { (M : MissionValue) (row : ℕ) → transfer_length M row ≡ counted_length M row most_cycles }
    ensures fewer { (M : MissionValue) (row most k : ℕ) → most ≤ most_cycles → counted_length M row most ≡ Some k →
        transfer_length M row ≡ Some k }
    ensures row_alone { (M : MissionValue) (c : ℕ) → transfer_length M (row_of M c) ≡ transfer_length M c }
    ensures endless { (M : MissionValue) (row i d n : ℕ) → GoesRound M row i d → fits_after M row (suc n) ≡ false }
    ensures none { (M : MissionValue) (row i d : ℕ) → GoesRound M row i d → transfer_length M row ≡ None }
{}

/// The length is the first number of cycles, of as many as the longest run has, after which the rest fits; and there is
/// none just where it fits after none of these.
pub fn lengths_are_first()
    ensures some { (M : MissionValue) (row k : ℕ) →
        (transfer_length M row ≡ Some k) ↔ (FitsFirst M row k × (k ≤ most_cycles)) }
    ensures none { (M : MissionValue) (row : ℕ) →
        (transfer_length M row ≡ None) ↔ ((j : ℕ) → 1 ≤ j → j ≤ most_cycles → fits_after M row j ≡ false) }
{}

/// Of every mission and row it is decided whether a transfer ever ends, whatever number of cycles it is given: it never
/// does just where the rest fits after no number of cycles, and just where the transfer goes round; and it ends just
/// where there is a first number of cycles after which the rest fits. A search for the one or the other comes to it
/// within as many cycles as a transfer has states. One that never ends has no length.
pub fn never_is_decided()
    ensures never { (M : MissionValue) (row : ℕ) → IsMission M →
        IsTrue (never_ends M row) ↔ ((n : ℕ) → fits_after M row (suc n) ≡ false) }
    ensures ends { (M : MissionValue) (row : ℕ) → IsMission M →
        (never_ends M row ≡ false) ↔ ((k : ℕ) × FitsFirst M row k) }
    ensures round { (M : MissionValue) (row : ℕ) → IsMission M →
        IsTrue (never_ends M row) ↔ ((i : ℕ) × (d : ℕ) × GoesRound M row i d) }
    ensures search { (M : MissionValue) (row : ℕ) → IsMission M → EndsOrGoesRound M row }
    ensures no_length { (M : MissionValue) (row : ℕ) → IsMission M → IsTrue (never_ends M row) →
        transfer_length M row ≡ None }
    ensures row_alone { (M : MissionValue) (c : ℕ) → never_ends M (row_of M c) ≡ never_ends M c }
{}
