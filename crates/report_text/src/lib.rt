//! The texts of the program: the report of a run, the text of `check`, and the summary of a demo. Each line has one
//! spelling, which the definitions of `guards_model` state.
#![tactic(auto)]

mod check;
mod lines;
mod pieces;
mod report;

pub use check::{check_head, check_line, summary};
pub use lines::{channel_line, cycle_line, end_line, trace_line};
pub use report::{head, write_cycle, write_end, write_out, write_stop};
