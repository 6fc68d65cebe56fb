//! The linter of missions as one call.
#![tactic(auto)]

mod status;
mod top;

pub use status::LintStatus;
pub use top::lint;
