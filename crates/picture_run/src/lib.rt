//! The picture of a report: read from a source, written to a sink.
#![tactic(auto)]

mod drawing;
mod lines;
mod status;

pub use drawing::picture;
pub use status::PictureStatus;
