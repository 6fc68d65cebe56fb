//! The tasks.
ghost use Rattle.std.specs.Prelude.{◌≡◌, IfOk, OnOk};
ghost use Rattle.guards_model.specs.declared.Op.TheVariants as ops;
ghost use Rattle.guards_model.specs.declared.Code.TheVariants as codes;
ghost use Rattle.std.specs.Prelude.{pos};
ghost use Rattle.guards_model.specs.Expressions.{number, input, block_word, negative, binary, call};
ghost use Rattle.expr_core.specs.Tree.{tree};
ghost use Rattle.demo_mission.specs.Demo.{number_after, demo_sets, demo_write, demo_task, demo_tasks};

use crate::draws::Draws;
use expr_core::Expr;
use guards_base::{Sequence, Text};
use guards_model::{Code, Op};
use sqlite_items::Boxed;
use std::alloc::{AllocError, Global};
use task_table::{Sets, Task, Tasks, Write};

/// A word of a block plus an input word.
fn sum(alloc: Global, block: u8, word: u8, place: u8) -> Result<Expr, AllocError>
    ensures { IfOk result (λ expr. tree expr ≡ binary ops.Add (block_word block word) (input place)) }
{
    let left = Boxed::new(alloc, Expr::Word { block, word })?;
    let right = Boxed::new(alloc, Expr::Input(place))?;
    Ok(Expr::Binary(Op::Add, left, right))
}

/// The same within -1000 and 1000.
fn bounded_sum(alloc: Global, block: u8) -> Result<Expr, AllocError>
    ensures { IfOk result (λ expr. tree expr
        ≡ call codes.Sat (binary ops.Add (block_word block 1) (input 1)) (negative (number (pos 1000)))
        (number (pos 1000))) }
{
    let sum = Boxed::new(alloc, sum(alloc, block, 1, 1)?)?;
    let bound = Boxed::new(alloc, Expr::Number(1000))?;
    let low = Boxed::new(alloc, Expr::Neg(bound))?;
    let high = Boxed::new(alloc, Expr::Number(1000))?;
    Ok(Expr::Native(Code::Sat, sum, low, high))
}

fn demo_write(alloc: Global, block: u8) -> Result<Write, AllocError>
    ensures { IfOk result (λ write. write ≡ demo_write block) }
{
    let first = sum(alloc, block, 0, 0)?;
    let second = bounded_sum(alloc, block)?;
    let set = Sets {
        at: [
            Some(first),
            Some(second),
            None,
            None,
            None,
            None,
            None,
            None,
        ],
    };
    Ok(Write { block, set })
}

/// The task of a number, whose writes draw their blocks.
fn demo_task(alloc: Global, number: u8, draws: &mut Draws) -> Result<Task, AllocError>
    ensures task { IfOk result (λ task. task ≡ demo_task number draws.old.number) }
    ensures number { OnOk result (draws.new.number ≡ number_after 4 draws.old.number) }
{
    let name = Text::from_string(format!(in alloc; "t{number}")?);
    let mut writes = Sequence::new(alloc);
    for _write in 0_u8..4 {
        writes.push(demo_write(alloc, draws.below(128) as u8)?)?;
    }
    Ok(Task { name, writes })
}

/// The four tasks.
pub fn demo_tasks(alloc: Global, draws: &mut Draws) -> Result<Tasks, AllocError>
    ensures tasks { IfOk result (λ tasks. tasks.items ≡ demo_tasks 4 0 draws.old.number) }
    ensures number { OnOk result (draws.new.number ≡ number_after 16 draws.old.number) }
{
    let mut tasks = Sequence::new(alloc);
    for number in 0..4 {
        tasks.push(demo_task(alloc, number, draws)?)?;
    }
    Ok(tasks)
}
