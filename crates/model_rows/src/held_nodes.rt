//! Worked nodes: of two worked runs, what the definitions say that nodes hold. Each function's contract says it of one
//! run.
ghost use Rattle.std.specs.Prelude.{◌≡◌, Some, true};
ghost use Rattle.guards_model.specs.Slots.{stage_before};
ghost use Rattle.guards_model.specs.declared.Slot.TheVariants.{Switch};
ghost use Rattle.model_rows.specs.Worked.{past_of, cycle_of};
ghost use Rattle.model_rows.specs.TwoCycles as two_cycles_row;
ghost use Rattle.model_rows.specs.Restored as restored_row;
ghost use Rattle.guards_world.specs.NodeFacts.{state_at, joiner_in};
ghost use Rattle.model_rows.specs.Nodes as held;

/// After two cycles without faults, which added the input 5 twice, a channel holds 10 and nothing against anyone.
pub fn nodes_of_two_cycles()
    ensures { state_at two_cycles_row.mission (past_of two_cycles_row.run 2) 2 ≡ held.after_two_cycles }
{}

/// While channel 4 is restored from cycle 3 on: before cycle 5 a running channel has the transfer with its tags, and
/// heard that the target has its start; the target has this start, and then takes the last block and the control of
/// cycle 6, with which it runs.
pub fn nodes_of_a_restoration()
    ensures sender { state_at restored_row.mission (past_of restored_row.run 5) 0 ≡ held.sender_before_five }
    ensures target { state_at restored_row.mission (past_of restored_row.run 5) 4 ≡ held.target_before_five }
    ensures takes { joiner_in restored_row.mission (past_of restored_row.run 5) (cycle_of restored_row.run 5)
        (stage_before Switch) 4 ≡ held.target_that_took }
    ensures runs { state_at restored_row.mission (past_of restored_row.run 6) 4 ≡ held.target_that_runs }
{}
