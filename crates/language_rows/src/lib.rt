//! Expressions, the operations that they call and tables of tasks, as tests of the crates that it stands on.
#![tactic(auto)]

#[cfg(test)]
mod expressions;
#[cfg(test)]
mod natives;
#[cfg(test)]
mod tables;
