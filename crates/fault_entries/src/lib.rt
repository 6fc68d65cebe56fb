//! The fault entries of a mission's document.
#![tactic(auto)]

mod entry;
mod fields;
mod script;
mod slots;

pub use script::script_of;
