//! The world: all channels' nodes, the ledger and the switches, which pass a mission cycle by cycle.
#![tactic(auto)]

mod carrying;
mod cycle;
mod ending;
mod record;
mod restoring;
mod rounds;
mod slots;
mod votes;
mod work;
mod world;

pub use world::{Halt, World};
