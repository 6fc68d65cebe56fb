//! A run without faults, on the one context that every channel of it holds, and its report.
#![tactic(auto)]

mod machine;
mod records;
mod votes;
mod writing;

pub use machine::run_cycle;
pub use writing::write_report;
