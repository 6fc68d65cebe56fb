//! The lines that are written of a mission before it flies: what they tell of its script and its words, and their
//! text.
#![tactic(auto)]

mod line;
mod script;
mod text;
mod words;

pub use line::{Lines, LintLine, push_line};
pub use script::push_script_lines;
pub use text::{lines_text, warn};
pub use words::push_word_lines;
