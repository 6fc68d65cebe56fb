//! The context that the told cycles give.
ghost use Rattle.std.specs.Prelude.{◌≡◌, ◌≤◌, ◌==◌, length, map, take, count_by, Some};
ghost use Rattle.guards_base.specs.Padding.{padded};
ghost use Rattle.guards_model.specs.Missions.{ActuatorValue, cycle_writes, output_words};
ghost use Rattle.guards_model.specs.Actuators.{limited, words_towards};
ghost use Rattle.guards_model.specs.Contexts.{word_of};
ghost use Rattle.guards_model.specs.Records.{actor_of_step};
ghost use Rattle.guards_model.specs.Rounds.{is_sweep, is_task};
ghost use Rattle.guards_model.specs.Tasks.{whole};
ghost use Rattle.guards_audit.specs.Tests.{same_votes};
ghost use Rattle.task_table.specs.Tables.{table_writes};

use crate::lines::are_same_votes;
use context_blocks::Context;
use guards_base::{Chan, ChannelLine, TraceLine};
use mission_type::Mission;
use native_calls::{Calls, Code};
use task_table::Table;

/// The words in use, and 0 past them.
fn padded(words: &[i64; 4], width: u8) -> [i64; 4]
    requires { width ≤ 4 }
    ensures { result ≡ padded 4 (take width words.now) }
{
    let mut used = [0; 4];
    let width = usize::from(width);
    used[..width].copy_from_slice(&words[..width]);
    used
}

/// Whether a line has as many inputs as the mission's width.
pub fn has_width(mission: &Mission, line: &ChannelLine) -> bool
    ensures { result ≡ (length (take mission.now.width line.now.inputs) == mission.now.width) }
{
    mission.prove_sizes();
    let width = usize::from(mission.width());
    line.inputs[..width].len() == width
}

/// Does all writes of a cycle's row.
fn do_writes<C: Calls>(
    table: &Table,
    cycle: u32,
    context: &mut Context,
    inputs: &[i64; 4],
    natives: &C,
)
    requires { length context.old ≡ table.now.blocks }
    ensures { context.new ≡ whole (table_writes table.now cycle) context.old cycle inputs.now }
{
    for step in 0..table.steps(cycle) {
        table.apply_write(cycle, step, context, inputs, natives);
    }
}

/// Runs a cycle on printed inputs.
fn run_cycle<C: Calls>(
    mission: &Mission,
    cycle: u32,
    context: &mut Context,
    inputs: &[i64; 4],
    natives: &C,
)
    requires { length context.old ≡ mission.now.rules.blocks }
    ensures { context.new
        ≡ whole (cycle_writes mission.now cycle) context.old cycle (take mission.now.width inputs.now) }
{
    mission.prove_sizes();
    let inputs = padded(inputs, mission.width());
    do_writes(mission.table(), cycle, context, &inputs, natives);
}

/// Runs a cycle on the inputs of a line.
pub fn run_line<C: Calls>(
    mission: &Mission,
    cycle: u32,
    context: &mut Context,
    line: &ChannelLine,
    natives: &C,
)
    requires { length context.old ≡ mission.now.rules.blocks }
    ensures value { context.new
        ≡ whole (cycle_writes mission.now cycle) context.old cycle (take mission.now.width line.now.inputs) }
    ensures blocks { length context.new ≡ mission.now.rules.blocks }
{
    run_cycle(mission, cycle, context, &line.inputs, natives);
}

/// Words as votes.
fn cast(words: &[i64]) -> [Option<i64>; 8]
    requires { length words.now ≤ 8 }
    ensures { take (length words.now) result ≡ map (λ w. Some w) words.now }
{
    let mut votes = [None; 8];
    for place in 0..words.len() {
        votes[place] = Some(words[place]);
    }
    votes
}

/// Whether the votes of a line are the output words of a context.
pub fn votes_fit(mission: &Mission, context: &Context, line: &ChannelLine) -> bool
    requires { length context.now ≡ mission.now.rules.blocks }
    ensures { result
        ≡ same_votes (take (length mission.now.outputs) line.now.votes)
        (map (λ w. Some w) (output_words mission.now context.now)) }
{
    mission.prove_sizes();
    let outputs = mission.outputs().len();
    let votes = cast(mission.output_words(context).in_use());
    are_same_votes(&line.votes[..outputs], &votes[..outputs])
}

fn count_zeros(steps: &[u8]) -> usize
    ensures { result ≡ count_by (λ step. step == 0) steps.now }
{
    steps.iter().filter(|step| **step == 0).count()
}

/// How many steps are writes.
fn count_writes(steps: &[u8]) -> usize
    ensures { result ≡ count_by is_task (map actor_of_step steps.now) }
{
    count_zeros(steps)
}

/// How many steps are copies.
fn count_copies(steps: &[u8]) -> usize
    ensures { result ≡ count_by is_sweep (map actor_of_step steps.now) }
{
    steps.len() - count_writes(steps)
}

/// How many writes a line of steps tells.
pub fn writes_told(trace: &TraceLine) -> usize
    ensures { result ≡ count_by is_task trace.now.steps }
{
    count_writes(trace.steps.as_slice())
}

/// How many copies.
pub fn copies_told(trace: &TraceLine) -> usize
    ensures { result ≡ count_by is_sweep trace.now.steps }
{
    count_copies(trace.steps.as_slice())
}

/// The channel of a line of steps.
pub fn worker_of(trace: &TraceLine) -> Chan
    ensures { result ≡ trace.now.channel }
{
    trace.chan
}

/// The channel of a line.
pub fn teller_of(line: &ChannelLine) -> Chan
    ensures { result ≡ line.now.channel }
{
    line.chan
}

/// The words of an actuator before the first cycle; 0 where there is none.
pub fn first_words(mission: &Mission) -> [i64; 8]
    ensures { (actuator : ActuatorValue) → mission.now.actuator ≡ Some actuator →
        take (length mission.now.outputs) result ≡ actuator.start }
{
    match mission.actuator() {
        Some(actuator) => actuator.start,
        None => [0; 8],
    }
}

/// The word at a place, or 0 past the end.
fn word_at(words: &[i64], place: usize) -> i64
    ensures { result ≡ word_of words.now place }
{
    words.get(place).copied().unwrap_or(0)
}

/// The last word, moved towards the wanted one by at most the step.
fn limited<C: Calls>(last: i64, wanted: i64, step: i64, natives: &C) -> i64
    ensures { result ≡ limited last wanted step }
{
    natives.call(Code::Ramp, last, wanted, step)
}

/// The word at a place after a move.
fn moved_at<C: Calls>(
    steps: &[i64; 8],
    last: &[i64; 8],
    wanted: &[i64],
    place: usize,
    natives: &C,
) -> i64
    ensures { result ≡ limited (word_of last.now place) (word_of wanted.now place) (word_of steps.now place) }
{
    let last = word_at(last, place);
    let wanted = word_at(wanted, place);
    let step = word_at(steps, place);
    limited(last, wanted, step, natives)
}

/// Words that move towards the wanted ones.
fn moved<C: Calls>(steps: &[i64; 8], last: &[i64; 8], wanted: &[i64], natives: &C) -> [i64; 8]
    requires { length wanted.now ≤ 8 }
    ensures { take (length wanted.now) result
        ≡ words_towards (take (length wanted.now) steps.now) (take (length wanted.now) last.now) wanted.now }
{
    let mut next = [0; 8];
    for place in 0..wanted.len() {
        next[place] = moved_at(steps, last, wanted, place, natives);
    }
    next
}

/// The words of an actuator after a cycle with this context.
pub fn words_after<C: Calls>(
    mission: &Mission,
    context: &Context,
    last: &[i64; 8],
    natives: &C,
) -> [i64; 8]
    requires { length context.now ≡ mission.now.rules.blocks }
    ensures { (actuator : ActuatorValue) → mission.now.actuator ≡ Some actuator →
        take (length mission.now.outputs) result
        ≡ words_towards actuator.steps (take (length mission.now.outputs) last.now)
        (output_words mission.now context.now) }
{
    mission.prove_sizes();
    let wanted = mission.output_words(context);
    match mission.actuator() {
        Some(actuator) => moved(&actuator.steps, last, wanted.in_use(), natives),
        None => [0; 8],
    }
}
