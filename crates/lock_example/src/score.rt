//! A value that the lock can hold: it counts each actor's steps and writes them down.
ghost use Rattle.std.specs.Prelude.{◌≡◌, ◌+◌, ◌^◌, ◌<◌, ◌≤◌, [], ◌∷◌, ◌++◌, MatchBool, IfOk, vec_capacity};
ghost use Rattle.guards_model.specs.declared.Actor.TheVariants.{Task, Sweep};
ghost use Rattle.ctx_lock.specs.History.{times};

use ctx_lock::{Actor, Closed, Turned};
use std::alloc::{AllocError, Global};

/// What the two workers of the example have done.
#[derive(Drop)]
pub struct Score {
    task_due: u32,
    sweep_due: u32,
    tasks: u32,
    sweeps: u32,
    history: Vec<Actor>,
    ghost few: { (task_due < 2 ^ 32) × (sweep_due < 2 ^ 32) },
    ghost counted: { (tasks ≡ times Task history.items) × (sweeps ≡ times Sweep history.items) },
    ghost legal: { (tasks ≤ task_due) × (sweeps ≤ sweep_due) },
    ghost room: { task_due + sweep_due ≤ vec_capacity history },
}

/// The steps of a whole score. `Score::end` alone makes one, so they were made under the lock.
#[derive(Drop)]
pub struct Trail {
    steps: Vec<Actor>,
}

impl Trail {
    /// Lends who took each step, in order.
    pub fn steps(&self) -> &[Actor]
        ensures { result.now ≡ self.now.steps.items }
    {
        self.steps.as_slice()
    }
}

impl Score {
    ghost use Rattle.ctx_lock.specs.Handles.{closed_value, closed_from};

    /// A score of which nothing was played yet.
    pub fn new(alloc: Global, task_due: u32, sweep_due: u32) -> Result<Score, AllocError>
        ensures { IfOk result (λ s. (s.task_due ≡ task_due) × (s.sweep_due ≡ sweep_due) × (s.history.items ≡ [])) }
    {
        let history = Vec::with_capacity(alloc, task_due as usize + sweep_due as usize)?;
        Ok(Score {
            task_due,
            sweep_due,
            tasks: 0,
            sweeps: 0,
            history,
        })
    }

    #[tactic(auto, using(ctx_lock::proofs::Histories::length_times, ctx_lock::proofs::Histories::times_push))]
    fn task(&mut self) -> bool
        ensures due { (self.new.task_due ≡ self.old.task_due) × (self.new.sweep_due ≡ self.old.sweep_due) }
        ensures stepped { MatchBool result
            ((self.new.history.items ≡ self.old.history.items ++ Task ∷ [])
            × (times Task self.old.history.items < self.old.task_due))
            ((self.new ≡ self.old) × (self.old.task_due ≤ times Task self.old.history.items)) }
    {
        if self.tasks >= self.task_due {
            return false;
        }
        self.history.push_reserved(Actor::Task);
        self.tasks += 1;
        true
    }

    #[tactic(auto, using(ctx_lock::proofs::Histories::length_times, ctx_lock::proofs::Histories::times_push))]
    fn sweep(&mut self) -> bool
        ensures due { (self.new.task_due ≡ self.old.task_due) × (self.new.sweep_due ≡ self.old.sweep_due) }
        ensures stepped { MatchBool result
            ((self.new.history.items ≡ self.old.history.items ++ Sweep ∷ [])
            × (times Sweep self.old.history.items < self.old.sweep_due))
            ((self.new ≡ self.old) × (self.old.sweep_due ≤ times Sweep self.old.history.items)) }
    {
        if self.sweeps >= self.sweep_due {
            return false;
        }
        self.history.push_reserved(Actor::Sweep);
        self.sweeps += 1;
        true
    }

    /// Ends a score that the lock has closed.
    pub fn end(closed: Closed<Score>) -> Trail
        requires { (closed_from closed).history.items ≡ [] }
        ensures { result.steps.items ≡ (closed_value closed).history.items }
    {
        let Score {
            task_due: _,
            sweep_due: _,
            tasks: _,
            sweeps: _,
            history,
        } = closed.into_value();
        Trail { steps: history }
    }

    /// Lends who took each step, in order.
    pub fn history(&self) -> &[Actor]
        ensures { result.now ≡ self.now.history.items }
    {
        self.history.as_slice()
    }
}

impl Turned for Score {
    ghost use Rattle.lock_example.specs.Parts.{part};
    ghost use Rattle.guards_model.specs.declared.Actor.TheVariants.{Task, Sweep};

    type Origin = (u32, u32);

    ghost origin = { λ s. (s.task_due, s.sweep_due) };

    ghost history = { λ s. s.history.items };

    ghost due = { part };

    fn step(&mut self, actor: Actor) -> bool {
        match actor {
            Actor::Task => self.task(),
            Actor::Sweep => self.sweep(),
        }
    }

    ghost few = { λ s. elim [ Task ↦ s.few.0 | Sweep ↦ s.few.1 ] };
}
