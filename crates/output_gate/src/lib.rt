//! The actuator: it takes each channel's voted words over the bus and moves its own words towards their majority, by a
//! limiter that is kept beside the fact of what it answers.
#![tactic(auto)]

mod exchange;
mod gate;
mod limiter;
mod sending;

pub use exchange::OutStop;
pub use gate::OutputGate;
pub use limiter::{Limit, Limiter, Moves};
