//! The flow of words through a table of tasks: which words its expressions are stored in and name, and on which words
//! the outputs depend.
#![tactic(auto)]

mod flow;
mod names;
mod reach;

pub use flow::{Flow, WORDS};
pub use reach::{depended_words, table_flow};
