//! Fault scripts: the crashes, restarts, damages, losses and forged pieces of a mission, the ledger of modes that they
//! change, and who is disturbed.
#![tactic(auto)]

mod disturbance;
mod ledger;
mod script;

pub use disturbance::Disturbance;
pub use ledger::Ledger;
pub use script::{Fault, Faults, Script, ScriptFault};
