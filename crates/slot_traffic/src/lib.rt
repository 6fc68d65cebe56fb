//! The pieces of one slot: carried to their receivers, compared with what was sent, and read.
#![tactic(auto)]

mod format;
mod opened;
mod parcel;
mod piece;
mod receivers;
mod traffic;

pub use format::Format;
pub use receivers::Receivers;
pub use traffic::{Arrived, Traffic};
