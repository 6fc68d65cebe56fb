//! What the lock asks of its value.
ghost use Rattle.std.specs.Prelude.{◌≡◌, ℕ, ◌+◌, ◌^◌, ◌<◌, ◌≤◌, List, [], ◌∷◌, ◌++◌, MatchBool};
ghost use Rattle.ctx_lock.specs.History.{times};

use guards_model::Actor;

/// A value that two actors step by turns, and that keeps the history of their steps.
pub trait Turned: Send {
    ghost use Rattle.guards_model.specs.declared.Actor.{Actor};

    /// What the value began from. Contracts alone name it.
    type Origin;

    ghost origin: { Self → Self.Origin };

    ghost history: { Self → List Actor };

    // How many steps the origin gives an actor.
    ghost due: { Self.Origin → Actor → ℕ };

    /// Does the actor's next step and appends it to the history, or answers false where the actor has made all that are
    /// due.
    fn step(&mut self, actor: Actor) -> bool
        ensures origin { origin self.new ≡ origin self.old }
        ensures stepped { MatchBool result
            ((history self.new ≡ history self.old ++ actor ∷ [])
            × (times actor (history self.old) < due (origin self.old) actor))
            ((self.new ≡ self.old) × (due (origin self.old) actor ≤ times actor (history self.old))) };

    ghost few: { (x : Self) (a : Actor) → due (origin x) a < 2 ^ 32 };
}
