//! The checks of a mission's document, each of which gives its value or says why it fails, and where.
#![tactic(auto)]

mod checks;
mod elements;
mod source;
mod why;

pub use checks::{
    array_of, element, field, integer_in, integer_of, lookup, number, number_or, only, refusal,
    refusal_at, required, sized, table_of, text_of,
};
pub use elements::{ElementReader, each, integers};
pub use source::document;
pub use why::{Cause, ReadFault, Why};
