//! The size of an expression, and what it names.

ghost use Rattle.std.specs.Prelude.{◌≡◌, ◌≤◌};
ghost use Rattle.expr_core.specs.Tree.{tree};
ghost use Rattle.guards_model.specs.Expressions.{fits_sizes};
ghost use Rattle.expr_core.specs.Size.{node_count, tree_depth};
ghost use Rattle.guards_model.specs.Words.{is_word};

use crate::expr::Expr;

impl Expr {
    /// The number of nodes; parentheses are none.
    pub fn nodes(&self) -> usize
        requires { node_count (tree self.now) ≤ 1100 }
        ensures { result ≡ node_count (tree self.now) }
    {
        match self {
            Expr::Number(_) | Expr::Cycle | Expr::Input(_) | Expr::Word { .. } => 1,
            Expr::Neg(part) => part.get().nodes() + 1,
            Expr::Binary(_, left, right) => left.get().nodes() + right.get().nodes() + 1,
            Expr::Native(_, a, b, c) | Expr::Pick(a, b, c) => {
                a.get().nodes() + b.get().nodes() + c.get().nodes() + 1
            }
        }
    }

    /// 1 for a node without parts, and else 1 more than the deepest part has.
    pub fn depth(&self) -> usize
        requires { node_count (tree self.now) ≤ 1100 }
        ensures value { result ≡ tree_depth (tree self.now) }
        ensures within { result ≤ node_count (tree self.now) }
    {
        match self {
            Expr::Cycle | Expr::Number(_) | Expr::Input(_) | Expr::Word { .. } => 1,
            Expr::Neg(part) => part.get().depth() + 1,
            Expr::Binary(_, left, right) => left.get().depth().max(right.get().depth()) + 1,
            Expr::Native(_, a, b, c) | Expr::Pick(a, b, c) => {
                a.get().depth().max(b.get().depth()).max(c.get().depth()) + 1
            }
        }
    }

    /// Whether each block, word and input that is named exists.
    pub fn fits(&self, blocks: u16, width: u8) -> bool
        ensures { result ≡ fits_sizes blocks width (tree self.now) }
    {
        match self {
            Expr::Number(number) => is_word(*number),
            Expr::Cycle => true,
            Expr::Input(place) => *place < width,
            Expr::Word { block, word } => u16::from(*block) < blocks && *word < 8,
            Expr::Neg(part) => part.get().fits(blocks, width),
            Expr::Binary(_, left, right) => {
                left.get().fits(blocks, width) && right.get().fits(blocks, width)
            }
            Expr::Native(_, a, b, c) | Expr::Pick(a, b, c) => {
                a.get().fits(blocks, width)
                    && b.get().fits(blocks, width)
                    && c.get().fits(blocks, width)
            }
        }
    }
}

/// Each number of an expression is a word by its type.
fn is_word(number: i64) -> bool
    ensures { result ≡ is_word number }
{
    let _ = number;
    true
}
