//! The operations that a program hands in as closures, and what they answer.
#![tactic(auto)]

ghost use Rattle.std.specs.Prelude.{◌≡◌};
ghost use Rattle.guards_model.specs.Natives.{native};

mod kept;
mod steps;

pub use guards_model::Code;
pub use kept::{Native, Natives, Operation};
pub use steps::{middle, ramp, saturated};

/// The three operations. Who hands them to several threads asks besides that they are `Sync`.
pub trait Calls {
    fn call(&self, code: Code, a: i64, b: i64, c: i64) -> i64
        ensures { result ≡ native code a b c };
}
