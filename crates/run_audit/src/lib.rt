//! The auditor of traces: a mission and the trace of its run in one input, the reader of its lines, and the verdict.
#![tactic(auto)]

mod line;
pub mod pieces;
mod recorded;
mod verdict;

pub use line::{Line, Sizes, read_line};
pub use recorded::{line_len, split_run};
pub use verdict::{Verdict, audit};
