//! What the lines of a trace tell, and whether the next line fits them. One context is stepped by the mission's
//! table, and no frame, tag or node is asked.
#![tactic(auto)]

mod auditor;
mod counts;
mod lines;
mod rules;
mod sets;
mod sweeps;
mod work;

pub use auditor::Auditor;
pub use sweeps::{Plan, Sweeps};
