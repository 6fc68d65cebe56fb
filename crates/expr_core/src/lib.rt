//! The expressions of the task language: their value, their size, and what they name.
#![tactic(auto)]

mod eval;
mod expr;
mod shape;

pub use expr::Expr;
pub use guards_model::{Code, Op};
