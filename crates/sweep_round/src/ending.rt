//! The end of a round that the lock has closed.
ghost use Rattle.std.specs.Prelude.{◌≡◌, []};
ghost use Rattle.guards_model.specs.declared.Actor.{Actor};
ghost use Rattle.ctx_lock.specs.History.{times};
ghost use Rattle.ctx_lock.specs.Handles.{closed_value, closed_from};

use crate::trail::Finished;
use context_blocks::Context;
use ctx_lock::{Closed, Turned};

/// A value of the lock of which something is left at the end. It can be named in this crate alone, and a round is the
/// one value that has it; so outside of it a round ends by `end_round` alone.
pub trait Finishing: Turned {
    ghost use Rattle.guards_model.specs.Contexts.{ContextValue};
    ghost use Rattle.sweep_round.specs.declared.trail.Finished.{Finished};

    // What is left of the value.
    ghost finished: { Self → Finished → Type 0 };

    // The context from which it began.
    ghost opening: { Self → ContextValue };

    fn finish(self) -> Finished
        ensures { finished self result };

    fn hand_back(self) -> Context
        ensures { result ≡ opening self };
}

/// Ends a round that the lock has closed and of which no step is left.
pub fn end_round<T: Finishing>(closed: Closed<T>) -> Finished
    requires begun { T.history (closed_from closed) ≡ [] }
    requires full { (a : Actor) → times a (T.history (closed_value closed)) ≡ T.due (T.origin (closed_value closed)) a }
    ensures { T.finished (closed_value closed) result }
{
    closed.into_value().finish()
}
