//! The value of an expression.

ghost use Rattle.std.specs.Prelude.{◌≡◌, length, IsTrue};
ghost use Rattle.std.specs.Int.{w64, int_wrapping_neg};
ghost use Rattle.expr_core.specs.Tree.{tree};
ghost use Rattle.guards_model.specs.Numbers.{quotient, remainder};
ghost use Rattle.guards_model.specs.Expressions.{value_of, result_of, fits_sizes};

use crate::expr::Expr;
use context_blocks::Context;
use guards_model::Op;
use native_calls::Calls;

impl Expr {
    /// The value on this context and these inputs, in this cycle. All parts of a call are valued.
    pub fn eval<C: Calls>(&self, ctx: &Context, inputs: &[i64; 4], cycle: u32, natives: &C) -> i64
        requires { IsTrue (fits_sizes (length ctx.now) 4 (tree self.now)) }
        ensures { result ≡ value_of (tree self.now) ctx.now inputs.now cycle }
    {
        match self {
            Expr::Number(number) => *number,
            Expr::Cycle => cycle as i64,
            Expr::Input(place) => inputs[*place as usize],
            Expr::Word { block, word } => ctx.get(*block).words[*word as usize],
            Expr::Neg(part) => {
                let part = part.get().eval(ctx, inputs, cycle, natives);
                negated(part)
            }
            Expr::Binary(op, left, right) => {
                let left = left.get().eval(ctx, inputs, cycle, natives);
                let right = right.get().eval(ctx, inputs, cycle, natives);
                apply(*op, left, right)
            }
            Expr::Native(code, a, b, c) => {
                let a = a.get().eval(ctx, inputs, cycle, natives);
                let b = b.get().eval(ctx, inputs, cycle, natives);
                let c = c.get().eval(ctx, inputs, cycle, natives);
                natives.call(*code, a, b, c)
            }
            Expr::Pick(a, b, c) => {
                let a = a.get().eval(ctx, inputs, cycle, natives);
                let b = b.get().eval(ctx, inputs, cycle, natives);
                let c = c.get().eval(ctx, inputs, cycle, natives);
                if a > 0 { b } else { c }
            }
        }
    }
}

fn negated(part: i64) -> i64
    ensures { result ≡ int_wrapping_neg w64 part }
{
    part.wrapping_neg()
}

fn apply(op: Op, left: i64, right: i64) -> i64
    ensures { result ≡ result_of op left right }
{
    match op {
        Op::Add => left.wrapping_add(right),
        Op::Sub => left.wrapping_sub(right),
        Op::Mul => left.wrapping_mul(right),
        Op::Div => quotient(left, right),
        Op::Rem => remainder(left, right),
    }
}

fn quotient(left: i64, right: i64) -> i64
    ensures { result ≡ quotient left right }
{
    if right == 0 {
        0
    } else {
        left.wrapping_div(right)
    }
}

fn remainder(left: i64, right: i64) -> i64
    ensures { result ≡ remainder left right }
{
    if right == 0 {
        0
    } else {
        left.wrapping_rem(right)
    }
}
