//! Frames as bytes, buses, fault scripts, the traffic of single slots and moves of a gate, as tests of the crates that
//! it stands on.
#![tactic(auto)]

#[cfg(test)]
mod buses;
#[cfg(test)]
mod frames;
#[cfg(test)]
mod headers;
#[cfg(test)]
mod moves;
#[cfg(test)]
mod scripts;
#[cfg(test)]
mod traffic;
