//! Writes: what they change of a context.

ghost use Rattle.std.specs.Prelude.{◌≡◌, ◌<◌, length, map, option_map, is_some, IsTrue};
ghost use Rattle.std.specs.List.{list_all, list_any};
ghost use Rattle.guards_model.specs.Expressions.{fits_or_none};
ghost use Rattle.guards_model.specs.Tasks.{replaced, written};
ghost use Rattle.expr_core.specs.Tree.{tree};

use context_blocks::{Block, Context};
use expr_core::Expr;
use guards_base::Sequence;
use native_calls::Calls;
use std::marker::Model;

/// For each word of a block an expression, or none where the word stays.
#[derive(Drop)]
pub struct Sets {
    pub at: [Option<Expr>; 8],
}

impl Model for Sets {
    ghost use Rattle.std.specs.Prelude.{List, Option, map, option_map};
    ghost use Rattle.guards_model.specs.Expressions.{Expression};
    ghost use Rattle.expr_core.specs.Tree.{tree};
    ghost use Rattle.task_table.specs.Codes.{coded_sets};

    ghost Value = { List (Option Expression) };

    ghost coded = { coded_sets };

    ghost view = { λ sets. map (option_map tree) sets.at };
}

/// Replaces words of one block. All its expressions are valued on the context before it.
#[derive(Drop)]
pub struct Write {
    pub block: u8,
    pub set: Sets,
}

impl Model for Write {
    ghost use Rattle.guards_model.specs.Tasks.{WriteValue};
    ghost use Rattle.task_table.specs.Codes.{coded_write};

    ghost Value = { WriteValue };

    ghost coded = { coded_write };

    ghost view = { λ write. record { block = write.block; set = write.set } };
}

/// The writes of a task, in order.
pub type Writes = Sequence<Write>;

impl Sets {
    /// Whether there is an expression for some word.
    pub(crate) fn has_expression(&self) -> bool
        ensures { result ≡ list_any is_some self.now }
    {
        self.at.iter().any(|expr| expr.is_some())
    }
}

/// The words of a block with those replaced for which there is an expression.
fn replaced_words<C: Calls>(
    set: &[Option<Expr>; 8],
    old: [i64; 8],
    cycle: u32,
    ctx: &Context,
    inputs: &[i64; 4],
    natives: &C,
) -> [i64; 8]
    requires { IsTrue (list_all (fits_or_none (length ctx.now) 4) (map (option_map tree) set.now)) }
    ensures { result ≡ replaced (map (option_map tree) set.now) old ctx.now inputs.now cycle }
{
    let mut words = old;
    for at in 0..8 {
        if let Some(expr) = &set[at] {
            words[at] = expr.eval(ctx, inputs, cycle, natives);
        }
    }
    words
}

impl Write {
    /// Does the write.
    pub(crate) fn apply<C: Calls>(
        &self,
        cycle: u32,
        ctx: &mut Context,
        inputs: &[i64; 4],
        natives: &C,
    )
        requires there { self.now.block < length ctx.old }
        requires fits { IsTrue (list_all (fits_or_none (length ctx.old) 4) self.now.set) }
        ensures { ctx.new ≡ written self.now ctx.old inputs.now cycle }
    {
        let old = ctx.get(self.block);
        let words = replaced_words(&self.set.at, old.words, cycle, ctx, inputs, natives);
        ctx.set_block(self.block, Block { words });
    }
}
