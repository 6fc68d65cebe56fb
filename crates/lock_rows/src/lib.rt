//! The two workers of a channel, as tests: that a gate is called before each step and both run at once, the pipe
//! between them, each order of a few steps, rounds without writes or copies, and a round of a full plan.
#![tactic(auto)]

#[cfg(test)]
mod chain;
#[cfg(test)]
mod framing;
#[cfg(test)]
mod order;
#[cfg(test)]
mod pipes;
#[cfg(test)]
mod rounds;
#[cfg(test)]
mod scores;
