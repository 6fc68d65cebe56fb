//! An example of the context lock: two workers play one score by turns, each its own part.
#![tactic(auto)]

mod lent;
mod score;

pub use lent::{Concert, Listener, perform};
pub use score::{Score, Trail};
