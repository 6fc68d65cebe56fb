//! A channel's work in a cycle as one call: the round under the lock, two workers, a framer, and what they leave.
ghost use Rattle.std.specs.Prelude.{◌≡◌, ◌<◌, ◌≤◌, [], length, All, None, IfOk, IfErr, IfSome, IsSome};
ghost use Rattle.guards_model.specs.Rounds.{IsFull, copies_of_replay};
ghost use Rattle.guards_model.specs.Tasks.{whole};
ghost use Rattle.sweep_round.specs.Replay.{origin_of};
ghost use Rattle.sweep_round.specs.Rounds.{round_start, round_history};
ghost use Rattle.sweep_round.specs.Trails.{trail_cycle, trail_steps};
ghost use Rattle.sweep_round.specs.Endings.{IsEnded};

use crate::trail::{Finished, Trail};
use crate::turns::Round;
use crate::workers::{Crew, work_ended};
use context_blocks::Context;
use ctx_lock::Gate;
use dirty_tags::Plan;
use frame_pipe::pipe;
use guards_base::Refused;
use icn_frames::Copies;
use native_calls::Calls;
use std::alloc::Global;
use std::sync::Wait;
use std::thread::Threads;
use task_table::Table;

/// A round that was worked: the context after all writes, all copies in their order, and the history.
#[derive(Drop)]
pub struct WorkedRound {
    pub context: Context,
    pub copies: Copies,
    pub history: Trail,
}

// Works a round to its end.
fn run_round<'a, C: Calls + Sync, G: Gate, R: Threads + Wait + Sync>(
    rt: &R,
    round: Round<'a, C>,
    crew: Crew,
    gate: &G,
) -> (Option<(Finished, Crew)>, Option<Context>)
    requires { round_history round ≡ [] }
    ensures ended { IfSome result.0 (λ r. IsEnded (round_start round.entry) r.0 × (r.1 ≡ crew)) }
    ensures refused { IfSome result.1 (λ c. c ≡ (round_start round.entry).context) }
    ensures either { result.0 ≡ None → IsSome result.1 }
{
    work_ended(rt, round, crew, gate)
}

/// Does a cycle's writes and copies by two workers under the lock, with a framer beside them that tries at most four
/// times a copy and four times more; where no copies are due, by this thread alone. Whatever the order of the steps,
/// they are all that are due, the context is the whole row's effect, and the copies are the replay of just these steps.
/// For want of memory the context comes back as it was.
pub fn work_round<'a, C: Calls + Sync, G: Gate, R: Threads + Wait + Sync>(
    rt: &R,
    alloc: Global,
    ctx: Context,
    table: &'a Table,
    natives: &'a C,
    cycle: u32,
    inputs: [i64; 4],
    plan: Plan,
    chan: u8,
    gate: &G,
) -> Result<WorkedRound, Refused<Context>>
    requires blocks { length ctx ≡ table.now.blocks }
    requires planned { All (λ b. b < length ctx) plan }
    ensures full { IfOk result (λ w. IsFull (origin_of ctx table.now cycle inputs plan) (trail_steps w.history)) }
    ensures cycle { IfOk result (λ w. trail_cycle w.history ≡ cycle) }
    ensures context { IfOk result
        (λ w. let o = origin_of ctx table.now cycle inputs plan in w.context ≡ whole o.row o.context o.cycle o.inputs) }
    ensures copies { IfOk result
        (λ w. w.copies.items ≡ copies_of_replay (origin_of ctx table.now cycle inputs plan) (trail_steps w.history)) }
    ensures refused { IfErr result (λ e. e.value ≡ ctx) }
{
    let planned = plan.len();
    let Ok((feed, framer)) = pipe(alloc, planned.max(1) as u16) else {
        return Err(Refused { value: ctx });
    };
    let round = Round::begin(alloc, ctx, table, natives, cycle, inputs, plan, feed)?;
    let tries = if planned == 0 { 0 } else { 4 * (planned + 1) };
    let crew = Crew::new(alloc, chan, framer, tries);
    let (ended, refused) = run_round(rt, round, crew, gate);
    match ended {
        Some((finished, crew)) => {
            let Finished {
                context,
                feed,
                history,
            } = finished;
            Ok(WorkedRound {
                context,
                copies: crew.gather(feed),
                history,
            })
        }
        None => Err(Refused {
            value: refused.unwrap(),
        }),
    }
}
