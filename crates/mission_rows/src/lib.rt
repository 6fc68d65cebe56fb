//! Documents of missions and of fault entries, as tests: every field missing, of another type, too small and too large,
//! and which of two faults is answered; and demo missions against a plain simulation of their draws.
#![tactic(auto)]

#[cfg(test)]
mod actuator_rows;
#[cfg(test)]
mod answers;
#[cfg(test)]
mod core_rows;
#[cfg(test)]
mod demos;
#[cfg(test)]
mod entry_rows;
#[cfg(test)]
mod length_rows;
#[cfg(test)]
mod order_rows;
#[cfg(test)]
mod output_rows;
#[cfg(test)]
mod program_rows;
#[cfg(test)]
mod script_rows;
