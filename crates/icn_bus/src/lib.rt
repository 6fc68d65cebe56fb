//! The bus between channels: what it carried, the rules by which it loses or replaces pieces, and the switchboard.
#![tactic(auto)]

mod bus;
mod index;
mod memory;
mod script;
mod switchboard;

pub use bus::{Act, Bus, Delivery, Entry, Rule};
pub use memory::{Acts, MemBus};
pub use script::ScriptBus;
pub use switchboard::Switchboard;
