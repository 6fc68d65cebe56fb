//! Trees of what was said, against what is settled by hand, as tests of the crate that it stands on.
#![tactic(auto)]

#[cfg(test)]
mod tests;
