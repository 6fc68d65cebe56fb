//! One node driven by hand, as tests of the crate that it stands on.
#![tactic(auto)]

#[cfg(test)]
mod alone;
#[cfg(test)]
mod cycle;
#[cfg(test)]
mod frames;
#[cfg(test)]
mod joining;
#[cfg(test)]
mod moments;
#[cfg(test)]
mod ready;
#[cfg(test)]
mod refused;
#[cfg(test)]
mod resting;
#[cfg(test)]
mod seen;
#[cfg(test)]
mod small;
#[cfg(test)]
mod tests;
#[cfg(test)]
mod told;
