//! What is left of a round that has ended.
ghost use Rattle.std.specs.Prelude.{◌≡◌, map};
ghost use Rattle.guards_model.specs.Records.{actor_of_step, step_number};
ghost use Rattle.sweep_round.specs.Replay.{actors_of};

use context_blocks::Context;
use frame_pipe::Feed;
use guards_base::Bytes;

/// The steps of a whole round, in order: 0 for a write and 1 for a copy. `Round::end` alone makes one, of a round that
/// the context lock has closed: so all its steps were made under the lock.
#[derive(Debug, Drop)]
pub struct Trail {
    pub(crate) cycle: u32,
    pub(crate) steps: Bytes,
    ghost numbers: { steps.items ≡ map step_number (actors_of steps.items) },
}

impl Trail {
    ghost use Rattle.sweep_round.specs.Trails.{trail_cycle, trail_steps};

    /// The cycle of its round.
    pub fn cycle(&self) -> u32
        ensures { result ≡ trail_cycle self.now }
    {
        self.cycle
    }

    /// The history of its round, by the numbers of its steps.
    pub fn steps(&self) -> &Bytes
        ensures numbers { result.now.items ≡ map step_number (trail_steps self.now) }
        ensures steps { map actor_of_step result.now.items ≡ trail_steps self.now }
    {
        &self.steps
    }
}

/// A round that has ended: the context after all writes, the feed into which all copies were put, and the history.
#[derive(Drop)]
pub struct Finished {
    pub context: Context,
    pub feed: Feed,
    pub history: Trail,
}
