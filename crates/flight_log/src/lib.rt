//! A flight log: the last parts of a report, as many as it has room for. All of the memory that it needs for itself is
//! taken when it is made.
#![tactic(auto)]

mod log;

pub use log::{FlightLog, MOST_PARTS};
