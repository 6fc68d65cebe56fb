//! Reports and their pictures over a source and a sink in memory, as tests on the call `picture`.
#![tactic(auto)]

#[cfg(test)]
mod reports;
#[cfg(test)]
mod stage;
#[cfg(test)]
mod tests;
