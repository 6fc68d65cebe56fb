//! The table of a channel's tasks: what each cycle writes into the context.
#![tactic(auto)]

mod checks;
mod fault;
mod row;
mod table;
mod task;
mod write;

pub use fault::TableFault;
pub use row::TaskRows;
pub use table::Table;
pub use task::{Task, Tasks};
pub use write::{Sets, Write, Writes};
