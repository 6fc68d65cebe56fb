//! The nodes of all channels: what the world does to each of them in a cycle.
#![tactic(auto)]

mod arrived;
mod beside;
mod channels;
mod closing;
mod decisions;
mod ending;
mod finals;
mod joining;
mod modes;
mod nodes;
mod opening;
mod requests;
mod rounds;
mod votes;
mod work;

pub use arrived::Arrived;
pub use channels::every_channel;
pub use nodes::Nodes;
pub use votes::Lines;
