//! Laws of runs over a bus that does what the script says, of output entries, and of the ideal machine: each is the
//! contract of a function without a body.
#![tactic(auto)]

mod ideal;
pub mod laws;
pub mod outputs;

pub use ideal::faultless_reports_are_ideal;
