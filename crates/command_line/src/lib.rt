//! The words of the command line, and the command that they are. `clap` reads them; since it takes more spellings than
//! the one of each command, as `demo -- 5`, each list is also held against the definition.
#![tactic(auto)]

mod command;
mod line;
mod reading;
mod spelling;

pub use command::{Command, Count};
pub use reading::read_command;
