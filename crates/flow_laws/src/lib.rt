//! Laws of the flow of words through a table, each the contract of a function without a body.
#![tactic(auto)]

pub mod laws;
