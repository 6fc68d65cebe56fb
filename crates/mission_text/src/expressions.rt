//! The texts of expressions.
ghost use Rattle.std.specs.Prelude.{◌≡◌, ◌≤◌, IfOk, IsTrue};
ghost use Rattle.toml.specs.View.{view};
ghost use Rattle.guards_model.specs.Expressions.{fits_sizes};
ghost use Rattle.expr_core.specs.Tree.{tree};
ghost use Rattle.document_checks.specs.Checks.{Gives};
ghost use Rattle.mission_text.specs.Expressions.{text_expression, expression_at};

use document_checks::{Cause, ReadFault, refusal_at, text_of};
use expr_core::Expr;
use expr_text::{ExprFault, parse};
use std::alloc::Global;
use toml::Value;

/// For how many blocks and input words expressions are read.
#[derive(Clone, Copy)]
pub(crate) struct TextSizes {
    pub(crate) blocks: u16,
    pub(crate) width: u8,
    ghost few: { blocks ≤ 256 },
}

/// The expression that a text stands for.
fn text_expression(
    alloc: Global,
    sizes: TextSizes,
    path: &str,
    text: &str,
) -> Result<Expr, ReadFault>
    ensures fits { IfOk result (λ e. IsTrue (fits_sizes sizes.blocks sizes.width (tree e))) }
    ensures exact { Gives tree result (text_expression sizes.blocks sizes.width path.now text.now) }
{
    match parse(alloc, text.as_bytes(), sizes.blocks, sizes.width) {
        Ok(expr) => Ok(expr),
        Err(ExprFault::TooLong) => Err(refusal_at(alloc, Cause::BadExpr, path, 1100)),
        Err(ExprFault::Grammar { at }) => Err(refusal_at(alloc, Cause::BadExpr, path, at)),
        Err(ExprFault::TooLarge { .. }) => {
            Err(refusal_at(alloc, Cause::BadExpr, path, text.len() as u16))
        }
        Err(ExprFault::Memory) => Err(ReadFault::Memory),
    }
}

/// The expression that a string stands for.
#[tactic(auto, unfolding(crate::specs::Expressions::expression_at))]
pub(crate) fn expression_of(
    alloc: Global,
    sizes: TextSizes,
    path: &str,
    value: &Value,
) -> Result<Expr, ReadFault>
    ensures fits { IfOk result (λ e. IsTrue (fits_sizes sizes.blocks sizes.width (tree e))) }
    ensures exact { Gives tree result (expression_at sizes.blocks sizes.width path.now (view value.now)) }
{
    let text = text_of(alloc, value, path)?;
    text_expression(alloc, sizes, path, text)
}
