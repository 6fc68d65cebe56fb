//! Plain values, lists, contexts and streams, as tests of the crates that it stands on.
#![tactic(auto)]

#[cfg(test)]
mod contexts;
#[cfg(test)]
mod items;
#[cfg(test)]
mod lists;
#[cfg(test)]
mod streams;
#[cfg(test)]
mod values;
