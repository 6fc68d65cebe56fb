//! From a text to its expression.

ghost use Rattle.std.specs.Prelude.{◌≡◌, ◌≤◌, length, IfOk, IsTrue};
ghost use Rattle.expr_core.specs.Tree.{tree};
ghost use Rattle.guards_model.specs.Expressions.{fits_sizes};
ghost use Rattle.expr_core.specs.Size.{node_count};
ghost use Rattle.expr_text.specs.Parsing.{Scans, Measures, Parses, IsExact};
ghost use Rattle.expr_text.specs.Parsed.{parsed, IsAnswerOf};

use crate::fault::ExprFault;
use crate::state::{Sizes, State};
use crate::word::Kind;
use expr_core::Expr;
use std::alloc::Global;

/// The greatest length of a text.
const LONGEST_TEXT: usize = 1100;

const MOST_NODES: usize = 64;

const GREATEST_DEPTH: usize = 16;

/// The expression that a text stands for, over so many blocks and input words.
pub fn parse(alloc: Global, text: &[u8], blocks: u16, width: u8) -> Result<Expr, ExprFault>
    requires { blocks ≤ 256 }
    // What the answer says holds.
    ensures answer { Parses (record { blocks = blocks; width = width }) text.now result }
    // Where it holds, it is the answer, unless memory runs out.
    ensures exact { IsExact (record { blocks = blocks; width = width }) text.now result }
    // The answer as a function of the text.
    ensures parsed { IsAnswerOf (parsed (record { blocks = blocks; width = width }) text.now) result }
    ensures fits { IfOk result (λ e. IsTrue (fits_sizes blocks width (tree e))) }
{
    read(alloc, Sizes { blocks, width }, text)
}

fn read(alloc: Global, sizes: Sizes, text: &[u8]) -> Result<Expr, ExprFault>
    requires { sizes.blocks ≤ 256 }
    ensures { Parses sizes text.now result }
{
    if text.len() > LONGEST_TEXT {
        return Err(ExprFault::TooLong);
    }
    let state = scan(alloc, sizes, text)?;
    match state.finished(alloc)? {
        None => Err(ExprFault::Grammar {
            at: text.len() as u16,
        }),
        Some(expr) => measured(expr),
    }
}

/// The state behind the text.
fn scan(alloc: Global, sizes: Sizes, text: &[u8]) -> Result<State, ExprFault>
    requires blocks { sizes.blocks ≤ 256 }
    requires short { length text.now ≤ 1100 }
    ensures { Scans sizes text.now result }
{
    let mut state = State::initial(alloc);
    for (at, byte) in text.iter().enumerate() {
        match state.after(alloc, sizes, Kind::of(*byte))? {
            Some(next) => state = next,
            None => return Err(ExprFault::Grammar { at: at as u16 }),
        }
    }
    Ok(state)
}

/// The expression, unless it is too large.
fn measured(expr: Expr) -> Result<Expr, ExprFault>
    requires { node_count (tree expr) ≤ 1100 }
    ensures { Measures expr result }
{
    let nodes = expr.nodes();
    let depth = expr.depth();
    if nodes > MOST_NODES || depth > GREATEST_DEPTH {
        return Err(ExprFault::TooLarge {
            nodes: nodes as u16,
            depth: depth as u16,
        });
    }
    Ok(expr)
}
