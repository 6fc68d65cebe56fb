//! Running a mission: cycle by cycle over a bus, with its text written part by part.
#![tactic(auto)]

mod driving;
mod keeping;
mod running;
mod stop;
mod summary;
mod tally;
mod writing;

pub use keeping::run_last;
pub use running::run;
pub use stop::RunStop;
pub use summary::summarize;
