//! Laws of diagnosis, of how long a transfer takes, and of a return, each the contract of a function without a body.
#![tactic(auto)]

pub mod diagnosis;
mod returns;
pub mod transfers;

pub use returns::{requests_that_arrive_stand, returns_take_their_time};
