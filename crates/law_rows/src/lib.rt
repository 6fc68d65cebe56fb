//! Worked runs, and what the definitions of the laws on diagnosis and on transfers compute of them.
#![tactic(auto)]

pub mod judgements;
pub mod lengths;
