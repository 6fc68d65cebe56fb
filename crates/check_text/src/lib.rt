//! The text of the command `check`: a mission's sizes, the rounds of oral messages in a cycle, the most blocks that a
//! row writes, the bound of a join, and the expressions of the table, each in its one spelling.
#![tactic(auto)]

mod check;
mod head;
mod rows;

pub use check::check_text;
pub use head::{head_text, join_bound};
pub use rows::row_text;
