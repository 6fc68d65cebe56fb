//! A mission from a source: read whole or refused with its line, and what the command `check` tells of it.
#![tactic(auto)]

mod check;
mod limit;
mod lines;
mod reading;
mod status;

pub use check::write_check;
pub use limit::MAX_MISSION_BYTES;
pub use lines::{long_line, mission_line, read_line};
pub use reading::{
    check_mission, read_bytes, read_mission, refuse_mission, status_of_write, take_bytes,
};
pub use status::Status;
