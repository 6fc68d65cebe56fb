//! A closure that is kept beside the fact that it limits.
ghost use Rattle.std.specs.Prelude.{◌≡◌, ◌≤ℤ◌, pos};
ghost use Rattle.guards_model.specs.Actuators.{limited};
ghost use Rattle.output_gate.specs.Limits.{LimitsBy};

use std::marker::Model;

/// What can be called on a last word, a wanted one and a step: each closure `Fn(i64, i64, i64) -> i64`.
pub trait Moves: Drop {
    // Holds where the value may be called on all triples of words whose step is at least 0, and answers the last word
    // moved towards the wanted one.
    ghost limits: { Self → Type 0 };

    fn answer(&self, last: i64, wanted: i64, step: i64) -> i64
        requires kept { limits self.now }
        requires forward { pos 0 ≤ℤ step }
        ensures { result ≡ limited last wanted step };
}

impl<F: Fn(i64, i64, i64) -> i64> Moves for F {
    ghost limits = { λ f. LimitsBy (F.pre f) (F.post f) };

    fn answer(&self, last: i64, wanted: i64, step: i64) -> i64 {
        self(last, wanted, step)
    }
}

/// Moves a word towards another one, by at most a step that is at least 0.
pub trait Limit: Sync {
    fn limit(&self, last: i64, wanted: i64, step: i64) -> i64
        requires { pos 0 ≤ℤ step }
        ensures { result ≡ limited last wanted step };
}

/// A closure that limits.
#[derive(Drop)]
pub struct Limiter<F: Moves> {
    f: F,
}

impl<F: Moves> Model for Limiter<F> {
    ghost Value = { Unit {0} };

    ghost view = { λ limiter. tt };

    // The fact that the closure is kept beside.
    ghost invariant = { λ limiter. F.limits limiter.f };
}

impl<F: Moves + Sync> Limiter<F> {
    /// Keeps a closure that may be called on all triples of words whose step is at least 0, and limits there.
    pub fn new(f: F) -> Limiter<F>
        requires { F.limits f }
    {
        Limiter { f }
    }
}

impl<F: Moves + Sync> Limit for Limiter<F> {
    fn limit(&self, last: i64, wanted: i64, step: i64) -> i64 {
        self.f.answer(last, wanted, step)
    }
}
