//! What a channel keeps from cycle to cycle, as tests: tags of a transfer, votes, counts of errors, worked cycles of
//! one control, and lists of frames that are handed to a returning channel's replica.
#![tactic(auto)]

#[cfg(test)]
mod controls;
#[cfg(test)]
mod counts;
#[cfg(test)]
mod replicas;
#[cfg(test)]
mod tags;
#[cfg(test)]
mod votes;
