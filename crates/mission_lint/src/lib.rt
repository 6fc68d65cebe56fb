//! The linter of missions: what is told of a mission that is accepted, before it flies.
#![tactic(auto)]

mod find;
mod known;
mod removal;
mod rules;
mod transfer;

pub use find::find_lines;
