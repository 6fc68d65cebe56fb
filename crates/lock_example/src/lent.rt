//! A value that borrows what its steps read.
ghost use Rattle.std.specs.Prelude.{◌≡◌, ◌≤◌, List, [], ◌∷◌, IfOk, IfErr};
ghost use Rattle.guards_model.specs.declared.Actor.{Actor};
ghost use Rattle.ctx_lock.specs.History.{times};
ghost use Rattle.lock_example.specs.Parts.{part};

use crate::score::Score;
use ctx_lock::{Actor, Gate, Turned, both};
use guards_base::Refused;
use std::alloc::Global;
use std::sync::Wait;
use std::thread::Threads;

/// Hears each step.
pub trait Listener: Sync {
    fn hear(&self, actor: Actor);
}

/// A score that is played before a listener.
pub struct Concert<'a, L: Listener> {
    pub score: Score,
    listener: &'a L,
}

impl<'a, L: Listener> Turned for Concert<'a, L> {
    ghost use Rattle.guards_model.specs.declared.Actor.TheVariants.{Task, Sweep};

    type Origin = (u32, u32);

    ghost origin = { λ s. (s.score.task_due, s.score.sweep_due) };

    ghost history = { λ s. s.score.history.items };

    ghost due = { part };

    fn step(&mut self, actor: Actor) -> bool {
        self.listener.hear(actor);
        self.score.step(actor)
    }

    ghost few = { λ s. elim [ Task ↦ s.score.few.0 | Sweep ↦ s.score.few.1 ] };
}

/// Plays a score before a listener, by two workers.
pub fn perform<L: Listener, G: Gate, R: Threads + Wait + Sync>(
    rt: &R,
    alloc: Global,
    score: Score,
    listener: &L,
    gate: &G,
) -> Result<Score, Refused<Score>>
    requires { score.history.items ≡ [] }
    ensures full { IfOk result (λ s. (a : Actor) → times a s.history.items ≡ part (score.task_due, score.sweep_due) a) }
    ensures refused { IfErr result (λ r. r.value ≡ score) }
{
    match both(rt, alloc, Concert { score, listener }, 1, gate) {
        Ok(closed) => {
            let Concert { score, listener: _ } = closed.into_value();
            Ok(score)
        }
        Err(Refused { value }) => {
            let Concert { score, listener: _ } = value;
            Err(Refused { value: score })
        }
    }
}
