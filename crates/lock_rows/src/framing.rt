//! A framer beside the two workers of its channel.
ghost use Rattle.std.specs.Prelude.{◌≡◌, ◌<◌, [], All};
ghost use Rattle.sweep_round.specs.Rounds.{round_history};

use crate::chain::{BLOCKS, Plain};
use context_blocks::Context;
use ctx_lock::OpenGate;
use dirty_tags::Plan;
use frame_pipe::{Framer, MOST_COPIES, pipe};
use native_calls::Calls;
use std::alloc::Global;
use std::sync::Wait;
use std::thread::Threads;
use sweep_round::{Crew, Finished, Round, work_ended};
use task_table::Table;

// Works a round to its end.
fn run<'a, C: Calls + Sync, R: Threads + Wait + Sync>(
    rt: &R,
    round: Round<'a, C>,
    crew: Crew,
) -> (Option<(Finished, Crew)>, Option<Context>)
    requires { round_history round ≡ [] }
{
    work_ended(rt, round, crew, &OpenGate)
}

// How many copies a framer left in the pipe.
fn left(mut framer: Framer) -> usize {
    let mut left: usize = 0;
    for _ in 0..MOST_COPIES {
        if framer.take() {
            left = left.saturating_add(1);
        }
    }
    left
}

/// How many copies of a plan the framer took when the workers have ended, where it tries as often as a channel lets it.
/// Where memory runs out, 0.
pub fn taken<R: Threads + Wait + Sync>(rt: &R, alloc: Global, table: &Table, plan: Plan) -> usize
    requires blocks { table.now.blocks ≡ 64 }
    requires planned { All (λ b. b < 64) plan }
{
    let planned = plan.len();
    let Ok(ctx) = Context::zeroed(alloc, BLOCKS) else {
        return 0;
    };
    let Ok((feed, framer)) = pipe(alloc, planned.max(1) as u16) else {
        return 0;
    };
    let inputs = [5, 0, 0, 0];
    let Ok(round) = Round::begin(alloc, ctx, table, &Plain, 9, inputs, plan, feed) else {
        return 0;
    };
    let crew = Crew::new(alloc, 1, framer, 4 * (planned + 1));
    let (ended, refused) = run(rt, round, crew);
    drop(refused);
    match ended {
        Some((finished, crew)) => {
            drop(finished);
            planned.saturating_sub(left(crew.into_framer()))
        }
        None => 0,
    }
}
