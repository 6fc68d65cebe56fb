//! The memory of a channel: a context of blocks, each of eight words, and sets of its blocks.
#![tactic(auto)]

mod block_set;
mod context;

pub use block_set::BlockSet;
pub use context::{Block, Context};
