//! Worked missions: whole runs that the definitions compute. Each function's contract says of one run that its
//! report, every piece on the bus, its switches and each join are just these, and that it is a run of which the main
//! theorem speaks. Missions, logs and texts come from tools/worked_runs.py, which shares nothing with the definitions.
#![tactic(auto)]

pub mod frames;
pub mod held_nodes;
pub mod moved_outputs;
pub mod verdicts;

ghost use Rattle.std.specs.Prelude.{◌≡◌, true, false, Some, None};
ghost use Rattle.guards_model.specs.declared.Slot.TheVariants.{Tasks, Vote};
ghost use Rattle.guards_model.specs.Modes.{down, joining};
ghost use Rattle.guards_runs.specs.Cycles.{mode_after, is_damaged, held_start, joins_since};
ghost use Rattle.guards_runs.specs.Report.{traced};
ghost use Rattle.model_rows.specs.Worked.{IsWorked, IsWorkedStop, Joins, IsNotWhole, past_of, cycle_of, all_of};
ghost use Rattle.model_rows.specs.TwoCycles as two_cycles_row;
ghost use Rattle.model_rows.specs.LowerMedian as lower_median_row;
ghost use Rattle.model_rows.specs.ForgedWord as forged_word_row;
ghost use Rattle.model_rows.specs.MissingWord as missing_word_row;
ghost use Rattle.model_rows.specs.OneAccuser as one_accuser_row;
ghost use Rattle.model_rows.specs.LostRelays as lost_relays_row;
ghost use Rattle.model_rows.specs.SevenChannels as seven_channels_row;
ghost use Rattle.model_rows.specs.SevenStop as seven_stop_row;
ghost use Rattle.model_rows.specs.ThreeStop as three_stop_row;
ghost use Rattle.model_rows.specs.CountDecays as count_decays_row;
ghost use Rattle.model_rows.specs.CountSubtracts as count_subtracts_row;
ghost use Rattle.model_rows.specs.ThreeRemain as three_remain_row;
ghost use Rattle.model_rows.specs.Restored as restored_row;
ghost use Rattle.model_rows.specs.RestoredBySubtraction as restored_by_subtraction_row;
ghost use Rattle.model_rows.specs.SilentSender as silent_sender_row;
ghost use Rattle.model_rows.specs.JoinedAtOnce as joined_at_once_row;
ghost use Rattle.model_rows.specs.CrashedTarget as crashed_target_row;
ghost use Rattle.model_rows.specs.NotWhole as not_whole_row;
ghost use Rattle.model_rows.specs.DamageFound as damage_found_row;
ghost use Rattle.model_rows.specs.TwoReturn as two_return_row;
ghost use Rattle.model_rows.specs.OneDropped as one_dropped_row;
ghost use Rattle.model_rows.specs.OneByOne as one_by_one_row;
ghost use Rattle.model_rows.specs.LostRequests as lost_requests_row;
ghost use Rattle.model_rows.specs.DamagedAndCrashed as damaged_and_crashed_row;
ghost use Rattle.model_rows.specs.DownAtTheEnd as down_at_the_end_row;

/// Two cycles without faults.
pub fn two_cycles()
    ensures { IsWorked two_cycles_row.run }
{}

/// The input is the lower median of the four sensors.
pub fn lower_median()
    ensures { IsWorked lower_median_row.run }
{}

/// A word that one source sends differently to one channel is settled alike by all.
pub fn forged_word()
    ensures { IsWorked forged_word_row.run }
{}

/// A word that no majority of the branches tells is missing, and its source is judged.
pub fn missing_word()
    ensures { IsWorked missing_word_row.run }
{}

/// A channel that one other accuses is not judged, since one accusation is not enough.
pub fn one_accuser()
    ensures { IsWorked one_accuser_row.run }
{}

/// A channel whose relays are lost agrees with the others.
pub fn lost_relays()
    ensures { IsWorked lost_relays_row.run }
{}

/// Seven channels agree although two of them are disturbed.
pub fn seven_channels()
    ensures { IsWorked seven_channels_row.run }
{}

/// Seven channels of which three are disturbed stop in the slot of the third.
pub fn seven_stop()
    ensures { IsWorkedStop seven_stop_row.run 0 Vote }
{}

/// Three channels stop where one is disturbed.
pub fn three_stop()
    ensures { IsWorkedStop three_stop_row.run 0 Vote }
{}

/// An alpha-count rises, decays, is rounded down and reaches the threshold.
pub fn count_decays()
    ensures { IsWorked count_decays_row.run }
{}

/// An alpha-count under the law of subtraction, in frames of version 2.
pub fn count_subtracts()
    ensures { IsWorked count_subtracts_row.run }
{}

/// Three channels stay active, whatever the counts.
pub fn three_remain()
    ensures { IsWorked three_remain_row.run }
{}

/// A channel crashes, asks, is restored while the tasks run, and votes with the others.
pub fn restored()
    ensures run { IsWorked restored_row.run }
    ensures traces { traced restored_row.mission restored_row.log restored_row.histories ≡ restored_row.traced_text }
    ensures joined_4 { Joins restored_row.run restored_row.joined_4 }
{}

/// A channel is restored in frames of version 2, whose control word names the law.
pub fn restored_by_subtraction()
    ensures run { IsWorked restored_by_subtraction_row.run }
    ensures joined_4 { Joins restored_by_subtraction_row.run restored_by_subtraction_row.joined_4 }
{}

/// Lost sweep frames and a forged final frame of one channel change nothing.
pub fn silent_sender()
    ensures run { IsWorked silent_sender_row.run }
    ensures joined_4 { Joins silent_sender_row.run silent_sender_row.joined_4 }
{}

/// Where two blocks remain at most, the first cycle of the transfer is its last.
pub fn joined_at_once()
    ensures run { IsWorked joined_at_once_row.run }
    ensures joined_4 { Joins joined_at_once_row.run joined_at_once_row.joined_4 }
{}

/// A channel that crashes at the start of its transfer asks anew, and the next one restores it.
pub fn crashed_target()
    ensures run { IsWorked crashed_target_row.run }
    ensures joined_4 { Joins crashed_target_row.run crashed_target_row.joined_4 }
{}

/// A channel that crashed during its transfer is declared joined, is not whole, and comes back later.
pub fn not_whole()
    ensures run { IsWorked not_whole_row.run }
    ensures joined_4 { Joins not_whole_row.run not_whole_row.joined_4 }
    ensures not_whole { IsNotWhole not_whole_row.run 4 5 joining }
{}

/// A damaged context is found by its votes; the channel is removed and restored.
pub fn damage_found()
    ensures run { IsWorked damage_found_row.run }
    ensures joined_2 { Joins damage_found_row.run damage_found_row.joined_2 }
{}

/// One transfer restores two channels.
pub fn two_return()
    ensures run { IsWorked two_return_row.run }
    ensures joined_5 { Joins two_return_row.run two_return_row.joined_5 }
    ensures joined_6 { Joins two_return_row.run two_return_row.joined_6 }
{}

/// One of two targets crashes; the transfer goes on for the other.
pub fn one_dropped()
    ensures run { IsWorked one_dropped_row.run }
    ensures joined_5 { Joins one_dropped_row.run one_dropped_row.joined_5 }
    ensures joined_6 { Joins one_dropped_row.run one_dropped_row.joined_6 }
{}

/// Where a transfer restores one channel, two come back one after the other.
pub fn one_by_one()
    ensures run { IsWorked one_by_one_row.run }
    ensures joined_5 { Joins one_by_one_row.run one_by_one_row.joined_5 }
    ensures joined_6 { Joins one_by_one_row.run one_by_one_row.joined_6 }
{}

/// A transfer is aborted since its requests are lost, and its target, still joining, names the old start.
pub fn lost_requests()
    ensures run { IsWorked lost_requests_row.run }
    ensures joined_4 { Joins lost_requests_row.run lost_requests_row.joined_4 }
    ensures aborted { (cycle_of lost_requests_row.run 4).transfer ≡ None }
    ensures names_old_start { held_start 4 (past_of lost_requests_row.run 5) ≡ Some 3 }
    ensures stays_joining { joins_since 4 3 (past_of lost_requests_row.run 7) ≡ true }
{}

/// A channel is damaged and crashes in one cycle; the crash ends the mark of damage.
pub fn damaged_and_crashed()
    ensures run { IsWorked damaged_and_crashed_row.run }
    ensures joined_2 { Joins damaged_and_crashed_row.run damaged_and_crashed_row.joined_2 }
    ensures marked { is_damaged (cycle_of damaged_and_crashed_row.run 1) 2 Tasks ≡ true }
    ensures mark_ends { is_damaged (cycle_of damaged_and_crashed_row.run 1) 2 Vote ≡ false }
{}

/// A channel that is declared joined is down, and stays so to the end of the run.
pub fn down_at_the_end()
    ensures run { IsWorked down_at_the_end_row.run }
    ensures not_whole { IsNotWhole down_at_the_end_row.run 4 5 down }
    ensures at_the_end { mode_after down_at_the_end_row.run.mission (all_of down_at_the_end_row.run) 4 ≡ down }
{}
