//! A pipe of copies from a sweep worker to the worker that makes the sweep frame. All of its memory is taken when it
//! is made; what is gathered in the end is what was put, each copy once and in order.
#![tactic(auto)]

mod ends;
mod feed;
mod framer;

pub use ends::{gather, pipe};
pub use feed::{Feed, MOST_COPIES, PipeName, PlanLong};
pub use framer::Framer;
