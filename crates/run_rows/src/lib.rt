//! Worked missions and small calls over sources, sinks and buses in memory, as tests on the call `guards`.
#![tactic(auto)]

#[cfg(test)]
mod answer;
#[cfg(test)]
mod audits;
#[cfg(test)]
mod cases;
#[cfg(test)]
mod lasts;
#[cfg(test)]
mod outputs;
#[cfg(test)]
mod reports;
#[cfg(test)]
mod sizes;
#[cfg(test)]
mod stage;
#[cfg(test)]
mod tests;
