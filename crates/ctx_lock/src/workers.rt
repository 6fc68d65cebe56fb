//! The two workers.
ghost use Rattle.std.specs.Prelude.{◌≡◌, ◌≤◌, IfOk, IfErr};
ghost use Rattle.guards_model.specs.declared.Actor.{Actor};
ghost use Rattle.ctx_lock.specs.History.{times};
ghost use Rattle.ctx_lock.specs.Handles.{closed_value, closed_from, IsPassOf, IsWorkedOut};

use crate::gate::Gate;
use crate::shared::{Closed, Pass, Shared};
use crate::turned::Turned;
use guards_base::Refused;
use std::alloc::Global;
use std::sync::Wait;
use std::thread::{Threads, join};

/// Steps until all that are due of the pass's actor are made.
pub fn work<T: Turned, G: Gate, R: Wait>(
    rt: &R,
    shared: &Shared<T>,
    chan: u8,
    mut pass: Pass<T>,
    gate: &G,
) -> Pass<T>
    requires { IsPassOf shared.now pass }
    ensures { IsWorkedOut T.due pass result }
{
    for _ in rt.forever() {
        if !shared.take_step(rt, chan, &mut pass, gate) {
            return pass;
        }
    }
    unreachable!()
}

/// Two workers side by side, each with its pass, until all steps that are due are made. The passes come back in the
/// order in which they were handed in.
pub fn pair<T: Turned, G: Gate, R: Threads + Wait + Sync>(
    rt: &R,
    shared: &Shared<T>,
    chan: u8,
    task: Pass<T>,
    sweep: Pass<T>,
    gate: &G,
) -> (Pass<T>, Pass<T>)
    requires task { IsPassOf shared.now task }
    requires sweep { IsPassOf shared.now sweep }
    ensures task { IsWorkedOut T.due task result.0 }
    ensures sweep { IsWorkedOut T.due sweep result.1 }
{
    join(
        rt,
        || -> Pass<T>
            requires { IsPassOf shared.now task }
            ensures { IsWorkedOut T.due task result }
        { work(rt, shared, chan, task, gate) },
        || -> Pass<T>
            requires { IsPassOf shared.now sweep }
            ensures { IsWorkedOut T.due sweep result }
        { work(rt, shared, chan, sweep, gate) },
    )
}

/// The same by this thread alone: all steps of the first pass, and then all of the second.
pub fn in_turn<T: Turned, G: Gate, R: Wait>(
    rt: &R,
    shared: &Shared<T>,
    chan: u8,
    task: Pass<T>,
    sweep: Pass<T>,
    gate: &G,
) -> (Pass<T>, Pass<T>)
    requires task { IsPassOf shared.now task }
    requires sweep { IsPassOf shared.now sweep }
    ensures task { IsWorkedOut T.due task result.0 }
    ensures sweep { IsWorkedOut T.due sweep result.1 }
{
    let task = work(rt, shared, chan, task, gate);
    let sweep = work(rt, shared, chan, sweep, gate);
    (task, sweep)
}

/// Two workers side by side make all steps that are due. The value comes closed; for want of memory it comes back as
/// it was.
pub fn both<T: Turned, G: Gate, R: Threads + Wait + Sync>(
    rt: &R,
    alloc: Global,
    value: T,
    chan: u8,
    gate: &G,
) -> Result<Closed<T>, Refused<T>>
    requires { (a : Actor) → times a (T.history value) ≤ T.due (T.origin value) a }
    ensures begun { IfOk result (λ c. closed_from c ≡ value) }
    ensures origin { IfOk result (λ c. T.origin (closed_value c) ≡ T.origin value) }
    ensures full { IfOk result (λ c. (a : Actor) → times a (T.history (closed_value c)) ≡ T.due (T.origin value) a) }
    ensures refused { IfErr result (λ r. r.value ≡ value) }
{
    let (shared, task, sweep) = Shared::begin(rt, alloc, value)?;
    let (task, sweep) = pair(rt, &shared, chan, task, sweep, gate);
    Ok(shared.close(task, sweep))
}
