//! A mission: what a run is made of.
#![tactic(auto)]

mod mission;

pub use mission::{Actuator, Mission, Outputs, SensorRow, SensorRows};
