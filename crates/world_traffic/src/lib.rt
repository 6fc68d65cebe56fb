//! The traffic of a slot among the nodes of the world: what they send, and what arrives.
#![tactic(auto)]

mod delivered;
mod sending;

pub use delivered::Delivered;
pub use sending::send_slot;
