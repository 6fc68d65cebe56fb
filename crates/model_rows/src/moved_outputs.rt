//! Worked missions with an actuator: the definitions compute the words, the texts and the stops.
ghost use Rattle.std.specs.Prelude.{◌≡◌, false, pos, [], ◌∷◌, Some, None, map};
ghost use Rattle.guards_model.specs.declared.Slot.TheVariants.{Output};
ghost use Rattle.guards_runs.specs.Cycles.{cycle_at};
ghost use Rattle.guards_runs.specs.Promises.{IsRun};
ghost use Rattle.guards_model.specs.Actuators.{words_moved};
ghost use Rattle.guards_model.specs.Missions.{IsMission};
ghost use Rattle.guards_model.specs.Network.{without_outputs};
ghost use Rattle.guards_runs.specs.ActedReport.{first_stop, whole_report};
ghost use Rattle.guards_runs.specs.Outputs.{AreOutputsDue, ballot_taken, output_disturbed, output_stop, words_after};
ghost use Rattle.model_rows.specs.DamageFound as damaged;
ghost use Rattle.model_rows.specs.DamagedAndCrashed as crashed;
ghost use Rattle.model_rows.specs.Worked.{cycle_of, scripted};
ghost use Rattle.model_rows.specs.Outputs as row;

/// The word moves by 3 towards 5, and then by 3 towards 10.
pub fn moves_by_steps()
    ensures is_mission { IsMission row.acting }
    ensures words { words_after row.acting row.by_three row.whole 1 ≡ pos 3 ∷ [] }
    ensures last { words_after row.acting row.by_three row.whole 2 ≡ pos 6 ∷ [] }
    ensures is_run { IsRun row.acting (without_outputs row.whole) 2 }
    ensures due { AreOutputsDue 1 0 (cycle_at row.acting row.whole 0) row.outputs_0 }
    ensures due_last { AreOutputsDue 1 1 (cycle_at row.acting row.whole 1) row.outputs_1 }
    ensures text { whole_report false row.acting row.whole [] ≡ row.whole_text }
{}

/// So it does where one of four output frames is lost.
pub fn loss_is_borne()
    ensures text { whole_report false row.losing row.with_loss [] ≡ row.whole_text }
    ensures delivered { map (scripted row.losing) row.with_loss ≡ map (λ e. e.delivered) row.with_loss }
{}

/// One of three lost output frames stops the run in the output slot.
pub fn loss_stops_three()
    ensures text { whole_report false row.of_three row.stopped [] ≡ row.stopped_text }
    ensures stop { first_stop row.of_three row.stopped
        ≡ Some (record { cycle = 0; slot = Output; set = 2 ∷ []; active = 0 ∷ 1 ∷ 2 ∷ [] }) }
    ensures delivered { map (scripted row.of_three) row.stopped ≡ map (λ e. e.delivered) row.stopped }
{}

/// A gate at 3 that takes the ballots 9 and 4 stays at 3.
pub fn no_majority_stays()
    ensures { words_moved (pos 3 ∷ []) (pos 3 ∷ []) row.two_words ≡ pos 3 ∷ [] }
{}

/// Where another piece arrives in place of one of four output frames, it counts where it is a vote frame of the sender
/// and the cycle with so many words, and moves nothing.
pub fn forgery_is_borne()
    ensures word { ballot_taken 1 1 (row.with_piece row.another_word) 0 1 ≡ Some (pos 9 ∷ []) }
    ensures cycle { ballot_taken 1 1 (row.with_piece row.another_cycle) 0 1 ≡ None }
    ensures sender { ballot_taken 1 1 (row.with_piece row.another_sender) 0 1 ≡ None }
    ensures number { ballot_taken 1 1 (row.with_piece row.another_number) 0 1 ≡ None }
    ensures kind { ballot_taken 1 1 (row.with_piece row.another_kind) 0 1 ≡ None }
    ensures text { whole_report false row.acting (row.run_with row.another_word) [] ≡ row.whole_text }
    ensures text_without { whole_report false row.acting (row.run_with row.another_kind) [] ≡ row.whole_text }
{}

/// A channel that is damaged sends the words of its vote like the others, and counts as disturbed: one lost output
/// frame more stops five channels.
pub fn damage_counts()
    ensures due { AreOutputsDue 1 1 (cycle_of damaged.run 1) row.of_damaged }
    ensures disturbed { output_disturbed 1 (cycle_of damaged.run 1) row.of_damaged ≡ 2 ∷ [] }
    ensures goes_on { output_stop 1 (cycle_of damaged.run 1) row.of_damaged ≡ None }
    ensures stops { output_stop 1 (cycle_of damaged.run 1) row.of_damaged_with_loss
        ≡ Some (record { cycle = 1; slot = Output; set = 0 ∷ 2 ∷ []; active = 0 ∷ 1 ∷ 2 ∷ 3 ∷ 4 ∷ [] }) }
{}

/// A channel that crashed in the cycle has no line, sends nothing, and counts as disturbed.
pub fn crash_counts()
    ensures due { AreOutputsDue 1 1 (cycle_of crashed.run 1) row.of_crashed }
    ensures disturbed { output_disturbed 1 (cycle_of crashed.run 1) row.of_crashed ≡ 2 ∷ [] }
{}
