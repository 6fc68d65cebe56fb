//! A table whose writes are a chain: each passes the word on that the one before wrote.
ghost use Rattle.std.specs.Prelude.{◌≡◌, [], ◌∷◌, Some, None, IfOk, IfSome};
ghost use Rattle.guards_model.specs.Expressions.{cycle_number, input, block_word};
ghost use Rattle.expr_core.specs.Tree.{tree};

use expr_core::Expr;
use guards_base::{Numbers, Text};
use native_calls::{Calls, Code, middle, ramp, saturated};
use std::alloc::{AllocError, Global};
use task_table::{Sets, Table, Task, TaskRows, Tasks, Write, Writes};

/// The blocks of the table's contexts.
pub const BLOCKS: u16 = 64;

/// The operations as they are.
pub struct Plain;

impl Calls for Plain {
    fn call(&self, code: Code, a: i64, b: i64, c: i64) -> i64 {
        match code {
            Code::Sat => saturated(a, b, c),
            Code::Mid => middle(a, b, c),
            Code::Ramp => ramp(a, b, c),
        }
    }
}

// Sets the first two words of a block: to the expression, and to the number of the cycle.
fn link(block: u8, first: Expr) -> Write
    ensures { result ≡ record {
      block = block;
      set = Some (tree first) ∷ Some cycle_number ∷ None ∷ None ∷ None ∷ None ∷ None ∷ None ∷ [];
    } }
{
    Write {
        block,
        set: Sets {
            at: [
                Some(first),
                Some(Expr::Cycle),
                None,
                None,
                None,
                None,
                None,
                None,
            ],
        },
    }
}

// The task: the first input into block 0, block 0 into block 1, and block 1 into block 2.
fn chain(alloc: Global) -> Result<Task, AllocError>
    ensures { IfOk result (λ task. task.writes ≡
        record { block = 0; set = Some (input 0) ∷ Some cycle_number ∷ None ∷ None ∷ None ∷ None ∷ None ∷ None ∷ [] }
        ∷ record {
          block = 1;
          set =
              Some (block_word 0 0) ∷ Some cycle_number ∷ None ∷ None ∷ None ∷ None ∷ None ∷ None ∷ [];
        }
        ∷ record {
          block = 2;
          set =
              Some (block_word 1 0) ∷ Some cycle_number ∷ None ∷ None ∷ None ∷ None ∷ None ∷ None ∷ [];
        }
        ∷ []) }
{
    let mut writes = Writes::new(alloc);
    writes.push(link(0, Expr::Input(0)))?;
    writes.push(link(1, Expr::Word { block: 0, word: 0 }))?;
    writes.push(link(2, Expr::Word { block: 1, word: 0 }))?;
    Ok(Task {
        name: Text::new(alloc),
        writes,
    })
}

/// A table of one row, which has the chain, or no task.
pub fn table(alloc: Global, busy: bool) -> Result<Option<Table>, AllocError>
    ensures { IfOk result (λ made. IfSome made (λ table. table.blocks ≡ 64)) }
{
    let mut tasks = Tasks::new(alloc);
    tasks.push(chain(alloc)?)?;
    let mut row = Numbers::new(alloc);
    if busy {
        row.push(0)?;
    }
    let mut rows = TaskRows::new(alloc);
    rows.push(row)?;
    Ok(Table::new(tasks, rows, BLOCKS, 1).ok())
}
