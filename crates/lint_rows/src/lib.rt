//! Worked missions and the lines that the linter writes of them, as tests on the call `lint`.
#![tactic(auto)]

#[cfg(test)]
mod rows;
#[cfg(test)]
mod tests;
