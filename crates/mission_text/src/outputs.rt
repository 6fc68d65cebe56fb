//! The key `outputs`: the words that are put out.
ghost use Rattle.std.specs.Prelude.{◌≡◌, ◌≤◌, ◌&&◌, nat_lt, length, map, IfOk, IsTrue};
ghost use Rattle.std.specs.List.{list_all};
ghost use Rattle.toml.specs.View.{view, table_view};
ghost use Rattle.guards_model.specs.Expressions.{fits_sizes};
ghost use Rattle.guards_model.specs.Missions.{within};
ghost use Rattle.expr_core.specs.Tree.{tree};
ghost use Rattle.document_checks.specs.Checks.{Gives};
ghost use Rattle.mission_text.specs.Outputs.{word_or, outputs_field};

use crate::expressions::{TextSizes, expression_of};
use document_checks::{Cause, ElementReader, ReadFault, each, refusal, required, sized};
use expr_core::Expr;
use mission_type::Outputs;
use std::alloc::Global;
use toml::{Table, Value};

/// The word that an expression is.
fn word_of(alloc: Global, sizes: TextSizes, expr: &Expr, path: &str) -> Result<(u8, u8), ReadFault>
    requires { IsTrue (fits_sizes sizes.blocks sizes.width (tree expr.now)) }
    ensures there { IfOk result (λ o. IsTrue (nat_lt o.0 sizes.blocks && nat_lt o.1 8)) }
    ensures exact { Gives (λ o. o) result (word_or path.now (tree expr.now)) }
{
    match expr {
        Expr::Word { block, word } => Ok((*block, *word)),
        _ => Err(refusal(alloc, Cause::OutOfRange, path)),
    }
}

/// Reads outputs.
#[derive(Clone, Copy)]
struct OutputReader {
    sizes: TextSizes,
}

impl ElementReader for OutputReader {
    ghost use Rattle.std.specs.Prelude.{ℕ, ◌&&◌, nat_lt};
    ghost use Rattle.document_checks.specs.Checks.{alone};
    ghost use Rattle.mission_text.specs.Outputs.{output_at};

    type Element = (u8, u8);

    ghost Meaning = { ℕ × ℕ };

    ghost meaning = { λ _ output. output };

    ghost check = { λ reader. alone (output_at reader.sizes.blocks reader.sizes.width) };

    ghost holds = { λ reader o. nat_lt o.0 reader.sizes.blocks && nat_lt o.1 8 };

    #[tactic(auto, unfolding(crate::specs::Outputs::output_at))]
    fn read(
        &self,
        alloc: Global,
        _earlier: &[(u8, u8)],
        path: &str,
        value: &Value,
    ) -> Result<(u8, u8), ReadFault> {
        let expr = expression_of(alloc, self.sizes, path, value)?;
        word_of(alloc, self.sizes, &expr, path)
    }
}

/// The outputs of a mission.
#[tactic(auto, using(crate::proofs::Lists::same_list), unfolding(crate::specs::Outputs::outputs_field))]
pub(crate) fn outputs_field(
    alloc: Global,
    fields: &Table,
    sizes: TextSizes,
) -> Result<Outputs, ReadFault>
    ensures whole { IfOk result
        (λ outputs. IsTrue (within 1 8 (length outputs.items)
        && list_all (λ o. nat_lt o.0 sizes.blocks && nat_lt o.1 8) outputs.items)) }
    ensures few { IfOk result (λ outputs. length outputs.items ≤ 8) }
    ensures exact { Gives (λ outputs. outputs.items) result
        (outputs_field sizes.blocks sizes.width (table_view fields.now)) }
{
    let given = required(alloc, fields, "", "outputs")?;
    let items = sized(alloc, given, 1, 8, "outputs")?;
    each(alloc, &OutputReader { sizes }, "outputs", items)
}
