//! Hostile input, broken sources and sinks, and workers that wait for each other, as tests on the call `guards`.
#![tactic(auto)]

#[cfg(test)]
mod answer;
#[cfg(test)]
mod crashes;
#[cfg(test)]
mod ends;
#[cfg(test)]
mod meeting;
#[cfg(test)]
mod pieces;
#[cfg(test)]
mod stage;
#[cfg(test)]
mod tests;
