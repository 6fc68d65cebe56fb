//! Which blocks of a context still have to be copied to a channel that is being restored.
//!
//! Each cycle of a transfer plans some blocks, copies them, and writes others. A block remains where it was never
//! planned, or was written in or after the last cycle that planned it. The tags answer that test without the past.
#![tactic(auto)]

mod marks;
mod plan;
mod tags;

pub use plan::Plan;
pub use tags::Tags;
