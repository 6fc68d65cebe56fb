//! The cycles of a run without faults.
ghost use Rattle.std.specs.Prelude.{◌≡◌, ◌<◌, ◌+◌, ◌-◌, ◌++◌, length, replicate, pos};
ghost use Rattle.guards_model.specs.Tasks.{whole};
ghost use Rattle.guards_runs.specs.IdealMachine.{ideal, ideal_inputs, sensed, sensed_at, sensed_word};
ghost use Rattle.task_table.specs.Tables.{table_writes};

use context_blocks::Context;
use guards_base::{Chan, ChanSet, SourceWord};
use mission_type::Mission;
use native_calls::Calls;
use task_table::Table;
use voter::consolidate;

/// What a channel brings to a cycle where it accuses nobody and nobody asked.
fn source_word(mission: &Mission, chan: Chan, cycle: u32) -> SourceWord
    requires { chan < mission.now.rules.channels }
    ensures { result ≡ sensed_word mission.now cycle chan }
{
    mission.prove_mission();
    mission.prove_sizes();
    SourceWord {
        width: mission.width,
        words: mission.sensor(chan, cycle),
        accuse: ChanSet::empty(),
        heard: [0; 7],
    }
}

/// The same for a place of the table of channels, if there is the channel.
fn word_at(mission: &Mission, number: u8, cycle: u32) -> Option<SourceWord>
    ensures { result ≡ sensed_at mission.now cycle number }
{
    mission.prove_sizes();
    if number >= mission.rules.channels {
        return None;
    }
    match Chan::new(number) {
        Some(chan) => Some(source_word(mission, chan, cycle)),
        None => None,
    }
}

/// What each channel brings to a cycle.
fn sensed(mission: &Mission, cycle: u32) -> [Option<SourceWord>; 7]
    ensures { result ≡ sensed mission.now cycle }
{
    let mut words = [None; 7];
    for number in 0..7u8 {
        words[number as usize] = word_at(mission, number, cycle);
    }
    words
}

/// The words that the tasks of a cycle read: per place the lower median of the channels' sensor words, and 0 past the
/// mission's width.
#[tactic(auto, unfolding(guards_runs::specs::IdealMachine::ideal_inputs))]
fn inputs_of(mission: &Mission, cycle: u32) -> [i64; 4]
    ensures { result ≡ ideal_inputs mission.now cycle ++ replicate (4 - mission.now.width) (pos 0) }
{
    mission.prove_sizes();
    let words = sensed(mission, cycle);
    let active = ChanSet::below(mission.rules().channels);
    let width = mission.width();
    consolidate(&words, active, width)
}

/// Does all writes of a cycle's row.
fn work<C: Calls>(table: &Table, cycle: u32, context: &mut Context, inputs: &[i64; 4], natives: &C)
    requires { length context.old ≡ table.now.blocks }
    ensures { context.new ≡ whole (table_writes table.now cycle) context.old cycle inputs.now }
{
    for step in 0..table.steps(cycle) {
        table.apply_write(cycle, step, context, inputs, natives);
    }
}

/// Runs a cycle on the context that stands before it, and gives the words that its tasks read, with 0 past the width.
pub fn run_cycle<C: Calls>(
    mission: &Mission,
    cycle: u32,
    context: &mut Context,
    natives: &C,
) -> [i64; 4]
    requires { context.old ≡ ideal mission.now cycle }
    ensures context { context.new ≡ ideal mission.now (cycle + 1) }
    ensures inputs { result ≡ ideal_inputs mission.now cycle ++ replicate (4 - mission.now.width) (pos 0) }
{
    mission.prove_sizes();
    let inputs = inputs_of(mission, cycle);
    work(mission.table(), cycle, context, &inputs, natives);
    inputs
}
