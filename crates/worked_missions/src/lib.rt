//! Worked missions: the text of each, and what comes of it by texts that were made apart from the program.
#![tactic(auto)]

pub mod computing_rows;
mod missions;
mod parts;
pub mod restoring_rows;
mod rows;
mod texts;
mod votes;
pub mod voting_rows;

pub use missions::{COUNT, SEVEN, SUM};
pub use rows::Row;
pub use texts::{changed, parted, unfolded};
