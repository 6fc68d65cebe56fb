//! Reads missions: what the bytes stand for, or the first check that fails.
#![tactic(auto)]

mod actuator;
mod blocks;
mod core_fields;
mod expressions;
mod outputs;
mod reading;
mod rows;
mod sensors;
mod tasks;
mod words;

pub use blocks::InitBlock;
pub use core_fields::{Choices, CoreFields, CoreSizes, Limits};
pub use document_checks::{Cause, ReadFault, Why};
pub use mission_type::{Actuator, Mission, Outputs, SensorRow, SensorRows};
pub use reading::read;
