//! What holds of the grammar by itself.

ghost use Rattle.std.specs.Prelude.{◌≡◌, ◌≤◌, ℕ, List};
ghost use Rattle.guards_model.specs.Expressions.{Expression};
ghost use Rattle.expr_text.specs.Grammar.{SpellsExpression};

use crate::state::Sizes;

/// A text stands for at most one expression.
pub fn one_reading()
    ensures { (sizes : Sizes) (text : List ℕ) (d e : Expression) → sizes.blocks ≤ 256 → SpellsExpression sizes text d →
        SpellsExpression sizes text e → d ≡ e }
{}
