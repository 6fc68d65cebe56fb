//! The votes of the active channels on their output words, whom they accuse, and the words that their sensors agree on.
//!
//! Each channel decides alone, from what it received. All channels that are not disturbed decide alike.
#![tactic(auto)]

mod ballots;
mod counting;
mod sensors;

pub use ballots::{accusations, vote};
pub use sensors::consolidate;
