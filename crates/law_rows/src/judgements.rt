//! Worked missions, and what the definitions of recovery_laws compute of them.
ghost use Rattle.std.specs.Prelude.{◌≡◌, ◌*◌, true, false, [], ◌∷◌, count_by, Some, None};
ghost use Rattle.std.specs.List.{list_all};
ghost use Rattle.guards_model.specs.declared.Law.TheVariants.{Multiply, Subtract};
ghost use Rattle.guards_model.specs.declared.Slot.TheVariants.{Vote, Switch};
ghost use Rattle.guards_model.specs.Modes.{is_up};
ghost use Rattle.guards_model.specs.Diagnosis.{asks};
ghost use Rattle.guards_runs.specs.Cycles.{mode_in, is_damaged};
ghost use Rattle.guards_model.specs.Channels.{has, place_or, tolerated_faults};
ghost use Rattle.guards_runs.specs.Promises.{is_undisturbed, was_undisturbed_or_absent};
ghost use Rattle.model_rows.specs.Worked.{IsWorked, past_of, cycle_of};
ghost use Rattle.model_rows.specs.ThreeRemain as three_remain_row;
ghost use Rattle.model_rows.specs.SilentSender as silent_sender_row;
ghost use Rattle.model_rows.specs.DownAtTheEnd as down_at_the_end_row;
ghost use Rattle.model_rows.specs.DamageFound as damage_found_row;
ghost use Rattle.recovery_laws.specs.Diagnosed.{is_spotless, is_silent, is_judged, in_a_row, count_before_row, candidates_in, disturbed_cycles};
ghost use Rattle.recovery_laws.specs.CountHistories.{peak_of};
ghost use Rattle.recovery_laws.specs.WrongVotes.{finds_wrong, counts_against};
ghost use Rattle.recovery_laws.specs.LeastPeriods.{least_period};
ghost use Rattle.law_rows.specs.LawsOfDecay.{decaying};
ghost use Rattle.law_rows.specs.TooFewAccusers as too_few_accusers_row;
ghost use Rattle.law_rows.specs.JudgedTwice as judged_twice_row;
ghost use Rattle.law_rows.specs.GoneInTime as gone_in_time_row;

/// A channel whose vote was lost in cycle 0 is judged in cycle 1, in which it is undisturbed; it is a candidate, and
/// stays since a lower candidate leaves three channels active. Another one was never disturbed.
pub fn three_remain()
    ensures undisturbed { is_undisturbed 1 (cycle_of three_remain_row.run 1) 1 ≡ true }
    ensures not_before { was_undisturbed_or_absent (past_of three_remain_row.run 1) 1 ≡ false }
    ensures judged { has (cycle_of three_remain_row.run 1).judged 1 ≡ true }
    ensures one_cycle { disturbed_cycles 1 (past_of three_remain_row.run 2) ≡ 1 }
    ensures candidate { has (candidates_in three_remain_row.mission (cycle_of three_remain_row.run 1)) 1 ≡ true }
    ensures stays { has (cycle_of three_remain_row.run 1).removed 1 ≡ false }
    ensures spotless { is_spotless 2 (past_of three_remain_row.run 3) ≡ true }
{}

/// A channel that is down from cycle 0 is silent in three cycles, and is then removed by its request, far below the
/// threshold.
pub fn silent_sender()
    ensures silent { in_a_row is_silent 4 (past_of silent_sender_row.run 3) ≡ 3 }
    ensures from_none { count_before_row is_silent 4 silent_sender_row.mission (past_of silent_sender_row.run 3) ≡ 0 }
    ensures count { place_or (cycle_of silent_sender_row.run 2).counts 4 0 ≡ 196608 }
    ensures disturbed { disturbed_cycles 4 (past_of silent_sender_row.run 3) ≡ 3 }
    ensures removed { has (cycle_of silent_sender_row.run 2).removed 4 ≡ true }
{}

/// A channel that is declared joined while it is down is silent anew, and its count begins at 0.
pub fn down_at_the_end()
    ensures silent { in_a_row is_silent 4 (past_of down_at_the_end_row.run 8) ≡ 2 }
    ensures judged { in_a_row is_judged 4 (past_of down_at_the_end_row.run 8) ≡ 2 }
    ensures from_none { count_before_row is_silent 4 down_at_the_end_row.mission (past_of down_at_the_end_row.run 8)
        ≡ 0 }
{}

/// One disturbed cycle costs a channel two judgements: in cycle 0 its word is lost, and its vote, which is judged in
/// cycle 1, where it is undisturbed. So its count is 131072 times its disturbed cycles, and it is removed without a
/// request.
pub fn judged_twice()
    ensures run { IsWorked judged_twice_row.run }
    ensures undisturbed { is_undisturbed 1 (cycle_of judged_twice_row.run 1) 3 ≡ true }
    ensures one_cycle { disturbed_cycles 3 (past_of judged_twice_row.run 2) ≡ 1 }
    ensures count { place_or (cycle_of judged_twice_row.run 1).counts 3 0 ≡ 131072 }
    ensures unasked { let e = cycle_of judged_twice_row.run 1 in asks e.active e.fresh e.agreed 3 ≡ false }
    ensures removed { has (cycle_of judged_twice_row.run 1).removed 3 ≡ true }
{}

/// A channel that crashes after its vote in cycle 0, where the threshold takes two judgements, is silent in cycles 1
/// and 2. It is removed in cycle 2 and not in cycle 1, and cycle 0 does not count.
pub fn gone_in_time()
    ensures run { IsWorked gone_in_time_row.run }
    ensures crashed { is_up (mode_in (cycle_of gone_in_time_row.run 0) 4 Switch) ≡ false }
    ensures voted { is_up (mode_in (cycle_of gone_in_time_row.run 0) 4 Vote) ≡ true }
    ensures silent { in_a_row is_silent 4 (past_of gone_in_time_row.run 3) ≡ 2 }
    ensures enough { gone_in_time_row.mission.rules.threshold ≡ 65536 * 2 }
    ensures not_yet { has (cycle_of gone_in_time_row.run 1).removed 4 ≡ false }
    ensures removed { has (cycle_of gone_in_time_row.run 2).removed 4 ≡ true }
{}

/// A channel that is damaged in cycle 1 votes wrong in it, is damaged in cycle 2 too, and is judged there; nobody had
/// joined.
pub fn damage_found()
    ensures damaged { is_damaged (cycle_of damage_found_row.run 1) 2 Vote ≡ true }
    ensures found { list_all (finds_wrong damage_found_row.mission (past_of damage_found_row.run 1)
        (cycle_of damage_found_row.run 1) 2) (0 ∷ 1 ∷ 3 ∷ 4 ∷ []) ≡ true }
    ensures none_joined { (cycle_of damage_found_row.run 1).joined ≡ [] }
    ensures disturbed { is_undisturbed 2 (cycle_of damage_found_row.run 2) 2 ≡ false }
    ensures not_before { has (cycle_of damage_found_row.run 1).judged 2 ≡ false }
    ensures judged { has (cycle_of damage_found_row.run 2).judged 2 ≡ true }
{}

/// Peaks under both laws: with a half kept, of a channel that is judged in every cycle, which has none, in every second
/// one and in every third one; where as much is taken as a judgement adds; and where less is taken, so that there is
/// none.
pub fn peaks()
    ensures each { peak_of Multiply 32768 0 64 1 ≡ None }
    ensures second { peak_of Multiply 32768 0 64 2 ≡ Some 131071 }
    ensures third { peak_of Multiply 32768 0 64 3 ≡ Some 87381 }
    ensures balanced { peak_of Subtract 0 16384 64 5 ≡ Some 65536 }
    ensures growing { peak_of Subtract 0 16384 64 4 ≡ None }
{}

/// In cycle 2 the vote of channel 1 is lost, as channels 0, 2 and 3 find; 3 is removed in it, and 4 is declared joined.
/// In cycle 3 channel 1 is undisturbed, and 2 is silent: so of four active channels one counts against 1, where it
/// takes two, and it is not judged.
pub fn too_few_accusers()
    ensures run { IsWorked too_few_accusers_row.run }
    ensures found { list_all (finds_wrong too_few_accusers_row.mission (past_of too_few_accusers_row.run 2)
        (cycle_of too_few_accusers_row.run 2) 1) (0 ∷ 2 ∷ 3 ∷ []) ≡ true }
    ensures removed { (cycle_of too_few_accusers_row.run 2).removed ≡ 3 ∷ [] }
    ensures joined { (cycle_of too_few_accusers_row.run 2).joined ≡ 4 ∷ [] }
    ensures undisturbed { is_undisturbed 3 (cycle_of too_few_accusers_row.run 3) 1 ≡ true }
    ensures one { count_by (counts_against too_few_accusers_row.mission (past_of too_few_accusers_row.run 2)
        (cycle_of too_few_accusers_row.run 2) (cycle_of too_few_accusers_row.run 3) 1)
        (cycle_of too_few_accusers_row.run 3).active ≡ 1 }
    ensures tolerated { tolerated_faults (cycle_of too_few_accusers_row.run 3).active ≡ 1 }
    ensures unjudged { has (cycle_of too_few_accusers_row.run 3).judged 1 ≡ false }
{}

/// Where the threshold takes two judgements, the least period is 2 if a half is kept, and 5 if a quarter of a judgement
/// is subtracted; where nothing decays there is none.
pub fn least_periods()
    ensures half { least_period (decaying Multiply 32768 0) ≡ Some 2 }
    ensures quarter { least_period (decaying Subtract 0 16384) ≡ Some 5 }
    ensures whole { least_period (decaying Multiply 65536 0) ≡ None }
{}
