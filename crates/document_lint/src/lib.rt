//! The lines on the document of a mission: the tasks that stand in no row of its table.
#![tactic(auto)]

mod idle;

pub use idle::push_document_lines;
