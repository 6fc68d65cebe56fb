//! What crosses the crates of the task language.
#![tactic(auto)]

ghost use Rattle.std.specs.Prelude.{◌≡◌, ◌≤◌, length, IsTrue};
ghost use Rattle.guards_model.specs.declared.Code.TheVariants as codes;
ghost use Rattle.guards_model.specs.Natives.{native};
ghost use Rattle.guards_model.specs.Expressions.{value_of, fits_sizes};
ghost use Rattle.expr_core.specs.Tree.{tree};
ghost use Rattle.expr_text.specs.Parsing.{IsExpr};
ghost use Rattle.expr_text.specs.Printing.{CanBeRead};

use context_blocks::Context;
use expr_core::Expr;
use expr_text::{ExprFault, parse, print};
use native_calls::{Code, Native, Natives, Operation, middle, ramp, saturated};
use std::alloc::Global;

/// Prints an expression and reads it again, which gives the same one unless memory runs out.
pub fn print_and_parse(
    alloc: Global,
    expr: &Expr,
    blocks: u16,
    width: u8,
) -> Result<Expr, ExprFault>
    requires few_blocks { blocks ≤ 256 }
    requires readable { CanBeRead (record { blocks = blocks; width = width }) (tree expr.now) }
    ensures { IsExpr expr.now result }
{
    let text = print(alloc, expr)?;
    parse(alloc, text.as_str().as_bytes(), blocks, width)
}

/// The value of an expression whose native calls are answered by closures.
pub fn evaluated(expr: &Expr, ctx: &Context, inputs: &[i64; 4], cycle: u32) -> i64
    requires { IsTrue (fits_sizes (length ctx.now) 4 (tree expr.now)) }
    ensures { result ≡ value_of (tree expr.now) ctx.now inputs.now cycle }
{
    evaluated_by(
        expr,
        ctx,
        inputs,
        cycle,
        |a: i64, b: i64, c: i64| -> i64
            ensures { result ≡ native Code.Sat a b c }
        { saturated(a, b, c) },
        |a: i64, b: i64, c: i64| -> i64
            ensures { result ≡ native Code.Mid a b c }
        { middle(a, b, c) },
        |a: i64, b: i64, c: i64| -> i64
            ensures { result ≡ native Code.Ramp a b c }
        { ramp(a, b, c) },
    )
}

/// Keeps the closures beside their facts, and evaluates by them.
fn evaluated_by<X: Operation + Sync, Y: Operation + Sync, Z: Operation + Sync>(
    expr: &Expr,
    ctx: &Context,
    inputs: &[i64; 4],
    cycle: u32,
    sat: X,
    mid: Y,
    ramp: Z,
) -> i64
    requires fits { IsTrue (fits_sizes (length ctx.now) 4 (tree expr.now)) }
    requires sat { X.computes codes.Sat sat }
    requires mid { Y.computes codes.Mid mid }
    requires ramp { Z.computes codes.Ramp ramp }
    ensures { result ≡ value_of (tree expr.now) ctx.now inputs.now cycle }
{
    let sat = Native::new(Code::Sat, sat);
    let mid = Native::new(Code::Mid, mid);
    let ramp = Native::new(Code::Ramp, ramp);
    expr.eval(ctx, inputs, cycle, &Natives::new(sat, mid, ramp))
}
