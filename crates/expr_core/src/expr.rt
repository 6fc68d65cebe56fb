//! The expressions of tasks.

use guards_model::{Code, Op};
use sqlite_items::Boxed;

/// An expression over a context's blocks, the input words and the number of the cycle.
#[derive(Drop)]
pub enum Expr {
    Number(i64),
    Cycle,
    Input(u8),
    Word { block: u8, word: u8 },
    Neg(Boxed<Expr>),
    Binary(Op, Boxed<Expr>, Boxed<Expr>),
    Native(Code, Boxed<Expr>, Boxed<Expr>, Boxed<Expr>),
    Pick(Boxed<Expr>, Boxed<Expr>, Boxed<Expr>),
}
