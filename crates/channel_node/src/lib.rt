//! A channel as a node: it decides alone, from what it received and what it holds. `Running` and `Joining` are what
//! it holds while it runs and while it returns.
#![tactic(auto)]

mod closing;
mod frames;
mod joiner;
mod joining;
mod modes;
mod node;
mod parts;
mod rounds;
mod running;
mod running_close;
mod running_frames;
mod running_rounds;
mod running_votes;
mod running_work;
mod tree;
mod votes;
mod work;

pub use joiner::Joining;
pub use node::Node;
pub use running::Running;
