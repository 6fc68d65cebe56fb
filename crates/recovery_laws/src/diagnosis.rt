//! Laws of diagnosis, each the contract of a function without a body.

ghost use Rattle.std.specs.Prelude.{ℕ, suc, ◌+◌, ◌*◌, ◌≤◌, ◌<◌, ◌≡◌, ◌↔◌, ◌⊎◌, [], false, Some, None, IsTrue};
ghost use Rattle.guards_model.specs.declared.Slot.TheVariants.{Switch};
ghost use Rattle.guards_model.specs.Channels.{Channel, has};
ghost use Rattle.guards_model.specs.Modes.{is_up};
ghost use Rattle.guards_model.specs.Missions.{MissionValue, IsMission};
ghost use Rattle.guards_model.specs.Network.{Log};
ghost use Rattle.guards_runs.specs.Cycles.{cycles_before, cycle_at, mode_in};
ghost use Rattle.guards_runs.specs.Promises.{EachCycle, HasRun, is_undisturbed};
ghost use Rattle.recovery_laws.specs.Diagnosed.{LeavesAlone, SparesSpotless, RaisesJudged, RemovesJudged, FindsSilent, RemovesSilent, CostsTwo, RemovesForCause, IsActiveFor, is_silent, IsRemovedInTime};
ghost use Rattle.recovery_laws.specs.CountHistories.{CountsJudgements, KeepsSeldomJudged, peak_of, IsPeak};
ghost use Rattle.recovery_laws.specs.WrongVotes.{VotesWrong, SendsWrong, IsJudgedByVote};
ghost use Rattle.recovery_laws.specs.PeaksDecided.{PeakOrReached};
ghost use Rattle.recovery_laws.specs.LeastPeriods.{StaysBelow, ReachesThreshold, stays_below, least_period, decays, KeepsFromLeastPeriod};
ghost use Rattle.guards_model.specs.declared.Law.{Law};

/// In the cycles of every run a channel that is undisturbed up to the third round, and was undisturbed in the cycle
/// before or not active in it, is accused by no active channel and not judged, no request of it stands, and its count
/// decays. One that was undisturbed in every cycle since it last became active has a count of 0, is not removed and
/// stays active.
pub fn undisturbed_are_left_alone()
    ensures alone { (M : MissionValue) (L : Log) (n : ℕ) → IsMission M → n ≤ M.cycles → HasRun M L n →
        EachCycle (LeavesAlone M) (cycles_before M L n) }
    ensures spotless { (M : MissionValue) (L : Log) (n : ℕ) → IsMission M → n ≤ M.cycles → HasRun M L n →
        EachCycle (SparesSpotless M) (cycles_before M L n) }
{}

/// Whatever the log holds, the count of an active channel that is judged in each of some cycles grows by 1 in each; it
/// is a candidate at the latest where that reaches the threshold, and is removed then, unless just three would stay.
pub fn judged_are_removed_in_time()
    ensures raised { (M : MissionValue) (L : Log) → IsMission M → (n : ℕ) →
        EachCycle (RaisesJudged M) (cycles_before M L n) }
    ensures removed { (M : MissionValue) (L : Log) → IsMission M → (n : ℕ) →
        EachCycle (RemovesJudged M) (cycles_before M L n) }
{}

/// In the cycles of every run an active channel that tells no word is judged, and its count grows by 1 in each of them;
/// it is a candidate at the latest where that reaches the threshold, and is removed then, unless just three would stay.
pub fn silent_are_removed_in_time()
    ensures found { (M : MissionValue) (L : Log) (n : ℕ) → IsMission M → n ≤ M.cycles → HasRun M L n →
        EachCycle (FindsSilent M) (cycles_before M L n) }
    ensures removed { (M : MissionValue) (L : Log) (n : ℕ) → IsMission M → n ≤ M.cycles → HasRun M L n →
        EachCycle (RemovesSilent M) (cycles_before M L n) }
{}

/// Whatever the log holds, the count of an active channel is that of its judgements since it last became active.
pub fn counts_are_of_judgements()
    ensures { (M : MissionValue) (L : Log) → IsMission M → (n : ℕ) →
        EachCycle (CountsJudgements M) (cycles_before M L n) }
{}

/// The peak, where one is found, is the highest count of a channel that is judged at most once in so many cycles in a
/// row.
pub fn peaks_are_highest()
    ensures { (law : Law) (keep decrement few period peak : ℕ) → keep ≤ 65536 →
        peak_of law keep decrement few period ≡ Some peak → IsPeak law keep decrement few period peak }
{}

/// Of every mission and every period it is decided whether there is a peak below the threshold: as many steps as the
/// threshold has units find the peak, or a channel that is judged so seldom can reach the threshold.
pub fn peaks_are_decided()
    ensures { (M : MissionValue) (period : ℕ) → IsMission M → PeakOrReached M period }
{}

/// Of every mission and every period it is computed whether the count of a channel that is judged at most once in so
/// many cycles in a row stays below the threshold: it does whatever the judgements, or some of them reach it. And of
/// every mission there is a least such period, or there is none: from it on each stays, and below it each reaches the
/// threshold. There is one just where the threshold takes more than one judgement and counts decay at all.
pub fn least_periods_are_exact()
    ensures stays { (M : MissionValue) (period : ℕ) → IsMission M →
        IsTrue (stays_below M period) ↔ StaysBelow M period }
    ensures reaches { (M : MissionValue) (period : ℕ) → IsMission M →
        (stays_below M period ≡ false) ↔ ReachesThreshold M period }
    ensures from_least { (M : MissionValue) (least period : ℕ) → IsMission M → least_period M ≡ Some least →
        least ≤ period → StaysBelow M period }
    ensures under_least { (M : MissionValue) (least period : ℕ) → IsMission M → least_period M ≡ Some least →
        1 ≤ period → period < least → ReachesThreshold M period }
    ensures none { (M : MissionValue) (period : ℕ) → IsMission M → least_period M ≡ None → ReachesThreshold M period }
    ensures there { (M : MissionValue) → IsMission M →
        ((least : ℕ) × (least_period M ≡ Some least))
        ↔ ((65536 < M.rules.threshold) × IsTrue (decays M.rules.law M.rules.keep M.rules.decrement)) }
{}

/// Whatever the log holds, a channel that is judged at most once in so many cycles in a row, no fewer than the least
/// period, is not removed for its count.
pub fn least_periods_are_kept()
    ensures { (M : MissionValue) (L : Log) → IsMission M → (n : ℕ) →
        EachCycle (KeepsFromLeastPeriod M) (cycles_before M L n) }
{}

/// Whatever the log holds, a channel that is judged at most once in so many cycles in a row keeps its count at
/// the peak or below, and is not removed for it where the peak is below the threshold.
pub fn seldom_judged_stay()
    ensures { (M : MissionValue) (L : Log) → IsMission M → (n : ℕ) →
        EachCycle (KeepsSeldomJudged M) (cycles_before M L n) }
{}

/// In the cycles of every run a disturbed cycle adds 2 at most to the count of its channel, and a channel is removed
/// only where it was disturbed since it last became active, and as often as its count takes, unless a request of it
/// stands.
pub fn removals_have_causes()
    ensures costs { (M : MissionValue) (L : Log) (n : ℕ) → IsMission M → n ≤ M.cycles → HasRun M L n →
        EachCycle (CostsTwo M) (cycles_before M L n) }
    ensures causes { (M : MissionValue) (L : Log) (n : ℕ) → IsMission M → n ≤ M.cycles → HasRun M L n →
        EachCycle (RemovesForCause M) (cycles_before M L n) }
{}

/// Whatever the log holds, an active channel that is not up at the end of a cycle is silent in the next one, where it
/// is active in it; so in a run it is removed once it was silent in as many cycles as the threshold takes, unless just
/// three would stay.
pub fn crashed_go_in_time()
    ensures stays_silent { (M : MissionValue) (L : Log) (c : ℕ) (q : Channel) → IsMission M →
        IsActiveFor M L q c 1 → is_up (mode_in (cycle_at M L c) q Switch) ≡ false →
        IsTrue (is_silent (cycle_at M L (c + 1)) q) }
    ensures goes { (M : MissionValue) (L : Log) (n c more : ℕ) (q : Channel) → IsMission M → n ≤ M.cycles →
        HasRun M L n →
        c + more < n → IsActiveFor M L q c more → is_up (mode_in (cycle_at M L c) q Switch) ≡ false →
        M.rules.threshold ≤ 65536 * more →
        IsRemovedInTime M (cycles_before M L (c + more)) (cycle_at M L (c + more)) q }
{}

/// In a run, where damage has reached the output words of a channel that is up, and nothing that it sent was lost or
/// forged, every other active channel receives a wrong ballot of it. A damaged channel of which every other one does,
/// or receives none, is judged in the next cycle, if it is active in it. So is any other one of which they do, if it is
/// disturbed in the next cycle too, or nobody was declared joined. And just who is judged after a vote is told by who
/// counts against it: an undisturbed channel by what it found in the vote, and a disturbed one by what is agreed that
/// it says.
pub fn wrong_votes_are_judged()
    ensures reaches { (M : MissionValue) (L : Log) (n c : ℕ) (q : Channel) → IsMission M → n ≤ M.cycles → HasRun M L n →
        c < n → IsTrue (has (cycle_at M L c).active q) → SendsWrong M (cycles_before M L c) (cycle_at M L c) q →
        VotesWrong M (cycles_before M L c) (cycle_at M L c) q }
    ensures damaged { (M : MissionValue) (L : Log) (n c : ℕ) (q : Channel) → IsMission M → n ≤ M.cycles → HasRun M L n →
        suc c < n → IsTrue (has (cycle_at M L c).active q) → IsTrue (has (cycle_at M L (suc c)).active q) →
        IsTrue (has (cycle_at M L c).damaged q) → VotesWrong M (cycles_before M L c) (cycle_at M L c) q →
        IsTrue (has (cycle_at M L (suc c)).judged q) }
    ensures judged { (M : MissionValue) (L : Log) (n c : ℕ) (q : Channel) → IsMission M → n ≤ M.cycles → HasRun M L n →
        suc c < n → IsTrue (has (cycle_at M L c).active q) → IsTrue (has (cycle_at M L (suc c)).active q) →
        (is_undisturbed (suc c) (cycle_at M L (suc c)) q ≡ false) ⊎ ((cycle_at M L c).joined ≡ []) →
        VotesWrong M (cycles_before M L c) (cycle_at M L c) q → IsTrue (has (cycle_at M L (suc c)).judged q) }
    ensures exactly { (M : MissionValue) (L : Log) (n c : ℕ) (q : Channel) → IsMission M → n ≤ M.cycles → HasRun M L n →
        suc c < n → IsJudgedByVote M (cycles_before M L c) (cycle_at M L c) (cycle_at M L (suc c)) q }
{}
