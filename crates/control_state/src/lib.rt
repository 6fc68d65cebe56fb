//! What a channel carries from cycle to cycle, and what it decides from the agreed words.
//!
//! Every channel that is not disturbed has the same control and the same agreed words, so all decide
//! alike: whom they judge errant, whom they remove, whom they restore, which blocks they copy, and when
//! the restored join.
#![tactic(auto)]

mod closing;
mod control;
mod counting;
mod deciding;
mod sets;
mod telling;
mod transfers;
mod word;

pub use control::{Closed, Control, Decision, Transfer};
pub use guards_base::Rules;
