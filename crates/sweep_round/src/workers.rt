//! A whole round: two workers under the context lock, and a framer that takes the copies out of the pipe meanwhile.
ghost use Rattle.std.specs.Prelude.{◌≡◌, ◌≤◌, [], None, IfOk, IfErr, IfSome, IsSome};
ghost use Rattle.guards_model.specs.declared.Actor.{Actor};
ghost use Rattle.ctx_lock.specs.History.{times};
ghost use Rattle.ctx_lock.specs.Handles.{closed_value, closed_from, IsWorkedOut, IsPassOf};
ghost use Rattle.frame_pipe.specs.Pipes.{framer_name};
ghost use Rattle.sweep_round.specs.Endings.{IsEndOf};

use crate::ending::{Finishing, end_round};
use crate::trail::Finished;
use context_blocks::Context;
use ctx_lock::{Closed, Gate, Pass, Shared, Turned, in_turn, pair};
use frame_pipe::{Feed, Framer, gather};
use guards_base::Refused;
use icn_frames::Copies;
use std::alloc::Global;
use std::marker::Model;
use std::sync::Wait;
use std::thread::{self, Threads, join};

/// What the workers of a channel need beside the value: its number for the gate, where memory for the lock comes from,
/// and the framer of a pipe, which tries so often to take a copy while they work, and never waits. Where it is not to
/// try at all, no copies are due, and the workers need no threads of their own. Contracts see the name of the pipe.
#[derive(Drop)]
pub struct Crew {
    alloc: Global,
    chan: u8,
    framer: Framer,
    tries: usize,
}

impl Model for Crew {
    ghost use Rattle.frame_pipe.specs.declared.feed.PipeName.{PipeName};
    ghost use Rattle.frame_pipe.specs.Pipes.{framer_name};

    ghost Value = { PipeName };

    ghost view = { λ t. framer_name t.framer };
}

impl Crew {
    ghost use Rattle.frame_pipe.specs.Pipes.{feed_name, framer_name, sent};

    /// The two workers of a channel, before their first round.
    pub fn new(alloc: Global, chan: u8, framer: Framer, tries: usize) -> Crew
        ensures { result ≡ framer_name framer }
    {
        Crew {
            alloc,
            chan,
            framer,
            tries,
        }
    }

    fn alloc(&self) -> Global {
        self.alloc
    }

    fn chan(&self) -> u8 {
        self.chan
    }

    /// The framer, with what it has taken.
    pub fn into_framer(self) -> Framer
        ensures { framer_name result ≡ self }
    {
        let Crew {
            alloc: _,
            chan: _,
            framer,
            tries: _,
        } = self;
        framer
    }

    /// All copies that were put into its pipe, once the feed is back. It takes no memory.
    pub fn gather(self, feed: Feed) -> Copies
        requires { feed_name feed ≡ self }
        ensures { result.items ≡ sent feed }
    {
        gather(feed, self.into_framer())
    }

    // Whether there is a copy to wait for.
    fn is_idle(&self) -> bool {
        self.tries == 0
    }

    fn try_all(self) -> Crew
        ensures { result ≡ self }
    {
        let Crew {
            alloc,
            chan,
            framer,
            tries,
        } = self;
        Crew {
            alloc,
            chan,
            framer: try_often(framer, tries),
            tries,
        }
    }
}

// Tries so often to take a copy. Where there is none, the processor goes to whoever is ready to run.
fn try_often(mut framer: Framer, tries: usize) -> Framer
    ensures { framer_name result ≡ framer_name framer }
{
    for _ in 0..tries {
        if !framer.take() {
            thread::yield_now();
        }
    }
    framer
}

/// Two workers side by side make all steps that are due, and beside them a framer, which starts first, tries to take
/// copies; where it is not to try, this thread makes all the steps. The value comes closed, with the framer; for want
/// of memory the value comes back as it was.
pub fn work_beside<T: Turned, G: Gate, R: Threads + Wait + Sync>(
    rt: &R,
    value: T,
    crew: Crew,
    gate: &G,
) -> Result<(Closed<T>, Crew), Refused<T>>
    requires { (a : Actor) → times a (T.history value) ≤ T.due (T.origin value) a }
    ensures begun { IfOk result (λ r. closed_from r.0 ≡ value) }
    ensures origin { IfOk result (λ r. T.origin (closed_value r.0) ≡ T.origin value) }
    ensures full { IfOk result (λ r. (a : Actor) → times a (T.history (closed_value r.0)) ≡ T.due (T.origin value) a) }
    ensures pipe { IfOk result (λ r. r.1 ≡ crew) }
    ensures refused { IfErr result (λ r. r.value ≡ value) }
{
    let chan = crew.chan();
    let (shared, task, sweep) = Shared::begin(rt, crew.alloc(), value)?;
    if crew.is_idle() {
        let (task, sweep) = in_turn(rt, &shared, chan, task, sweep, gate);
        return Ok((shared.close(task, sweep), crew));
    }
    let (crew, (task, sweep)) = join(
        rt,
        || -> Crew
            ensures { result ≡ crew }
        { crew.try_all() },
        || -> (Pass<T>, Pass<T>)
            requires { IsPassOf shared task × IsPassOf shared sweep }
            ensures { IsWorkedOut T.due task result.0 × IsWorkedOut T.due sweep result.1 }
        { pair(rt, &shared, chan, task, sweep, gate) },
    );
    Ok((shared.close(task, sweep), crew))
}

/// The same, and the value's end: what is left of it after all steps that are due, with the framer; or, for want of
/// memory, the context from which it began. Two options stand for the two cases, since the prover finds that a value of
/// many parts may cross threads where they do, and not beside a `Result`.
pub fn work_ended<T: Finishing, G: Gate, R: Threads + Wait + Sync>(
    rt: &R,
    value: T,
    crew: Crew,
    gate: &G,
) -> (Option<(Finished, Crew)>, Option<Context>)
    requires { T.history value ≡ [] }
    ensures ended { IfSome result.0 (λ r. IsEndOf T.origin T.history T.due T.finished value r.0 × (r.1 ≡ crew)) }
    ensures refused { IfSome result.1 (λ c. c ≡ T.opening value) }
    ensures either { result.0 ≡ None → IsSome result.1 }
{
    match work_beside(rt, value, crew, gate) {
        Ok((closed, crew)) => (Some((end_round(closed), crew)), None),
        Err(Refused { value }) => (None, Some(value.hand_back())),
    }
}
