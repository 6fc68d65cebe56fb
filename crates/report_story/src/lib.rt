//! Reads what a report tells, line by line, as far as a picture shows it. A report that breaks off is told as far as it
//! goes; the first line that may not come where it stands, or does not fit the mission where that is known, is named.
#![tactic(auto)]

mod reader;
mod reading;
mod sizes;
mod stop;

pub use reader::{Reader, RunSizes};
pub use reading::{BadReport, read_report};
