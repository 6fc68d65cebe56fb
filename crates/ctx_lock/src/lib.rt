//! One value that two workers step by turns, and whose history is known when the lock is closed.
#![tactic(auto)]

mod gate;
mod plays;
mod shared;
mod turned;
mod view;
mod workers;

pub use gate::{Gate, OpenGate};
pub use guards_model::Actor;
pub use shared::{Closed, Pass, Shared};
pub use turned::Turned;
pub use workers::{both, in_turn, pair, work};
