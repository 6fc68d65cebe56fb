//! Runs the missions of a campaign, and tells each by its row.
#![tactic(auto)]

mod beside;
mod campaign;
mod counting;
mod missions;
mod row;

pub use campaign::run_campaign;
