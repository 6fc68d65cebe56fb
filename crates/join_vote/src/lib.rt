//! What a returning channel believes: the copies and the control that strictly more than half of the frames say.
#![tactic(auto)]

mod finals;
mod majority;
mod replica;
mod sweeps;

pub use replica::Replica;
