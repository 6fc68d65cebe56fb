//! Worked missions passed by the world, over both kinds of bus, and that channels and their workers work at the same
//! time, as tests of the crate that it stands on.
#![tactic(auto)]

#[cfg(test)]
mod at_once;
#[cfg(test)]
mod channels_meet;
#[cfg(test)]
mod drive;
#[cfg(test)]
mod replay;
#[cfg(test)]
mod worked;
#[cfg(test)]
mod workers_meet;
