//! The call of a campaign: its words, its source and its sink.
#![tactic(auto)]

mod document;
mod lines;
mod request;
mod status;
mod top;

pub use request::{Request, read_request};
pub use status::CampaignStatus;
pub use top::campaign;
