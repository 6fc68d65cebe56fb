//! The table.

ghost use Rattle.std.specs.Prelude.{◌≡◌, ◌<◌, ◌≤◌, length, slice_get, map, Some, None, IsTrue, IsSomeAnd, MatchResult};
ghost use Rattle.std.specs.List.{list_all};
ghost use Rattle.guards_model.specs.Channels.{has};
ghost use Rattle.guards_model.specs.JoinBound.{most_blocks};
ghost use Rattle.guards_model.specs.Tasks.{written};
ghost use Rattle.context_blocks.specs.BlockSets.{blocks_where};
ghost use Rattle.task_table.specs.TableFaults.{table_fault};
ghost use Rattle.task_table.specs.Tables.{places_of, table_naming, table_writes, tasks_in_row, expressions_fit, names_tasks};

use crate::checks::table_fault;
use crate::fault::TableFault;
use crate::row::{TaskRows, blocks_of, count_writes, find_write, most_of_rows, row_of};
use crate::task::{Task, Tasks};
use context_blocks::{BlockSet, Context};
use native_calls::Calls;
use std::marker::Model;

/// Tasks in rows: the row of a cycle is the one whose turn it is.
#[derive(Drop)]
pub struct Table {
    tasks: Tasks,
    rows: TaskRows,
    blocks: u16,
    width: u8,
}

impl Model for Table {
    ghost use Rattle.task_table.specs.Tables.{TableValue, table_naming, places_of};
    ghost use Rattle.task_table.specs.Kept.{IsTableKept};
    ghost use Rattle.task_table.specs.Codes.{coded_table};

    ghost Value = { TableValue };

    ghost coded = { coded_table };

    ghost view = { λ table. table_naming table.tasks.items (places_of table.rows.items) table.blocks table.width };

    ghost invariant = { λ table. IsTableKept table.tasks.items (places_of table.rows.items) table.blocks table.width };
}

impl Table {
    /// The table of these tasks and rows, for contexts of so many blocks and so many input words, or the first rule
    /// that they break.
    pub fn new(tasks: Tasks, rows: TaskRows, blocks: u16, width: u8) -> Result<Table, TableFault>
        requires narrow { width ≤ 4 }
        requires fit { IsTrue (list_all (expressions_fit blocks width) tasks.items) }
        requires named { IsTrue (list_all (names_tasks (length tasks.items)) (places_of rows.items)) }
        ensures answer { MatchResult result
            (λ table. (table_fault blocks tasks.items (places_of rows.items) ≡ None)
            × (table ≡ table_naming tasks.items (places_of rows.items) blocks width))
            (λ fault. table_fault blocks tasks.items (places_of rows.items) ≡ Some fault) }
    {
        match table_fault(&tasks, &rows, blocks) {
            Some(fault) => Err(fault),
            None => Ok(Table {
                tasks,
                rows,
                blocks,
                width,
            }),
        }
    }

    /// The number of rows, 1 to 16.
    pub fn rows(&self) -> u16
        ensures count { result ≡ length self.now.rows }
        ensures some { 1 ≤ result }
        ensures few { result ≤ 16 }
    {
        self.rows.len() as u16
    }

    /// The number of tasks of a row.
    pub fn row_len(&self, row: u16) -> u16
        requires { row < length self.now.rows }
        ensures count { result ≡ length (tasks_in_row self.now.rows row) }
        ensures few { result ≤ 16 }
    {
        self.rows.get(row as usize).len() as u16
    }

    /// Lends a task of a row.
    pub fn task(&self, row: u16, place: u16) -> &Task
        requires row { row < length self.now.rows }
        requires place { place < length (tasks_in_row self.now.rows row) }
        ensures { slice_get (tasks_in_row self.now.rows row) place ≡ Some result.now }
    {
        let number = *self.rows.get(row as usize).get(place as usize);
        self.tasks.get(number as usize)
    }

    /// The number of writes of the cycle's row, at most 256.
    pub fn steps(&self, cycle: u32) -> usize
        ensures count { result ≡ length (table_writes self.now cycle) }
        ensures few { result ≤ 256 }
    {
        count_writes(self.tasks.as_slice(), row_of(&self.rows, cycle).as_slice())
    }

    /// Does the k-th write of the cycle's row, from 0, and answers its block. No other block changes, and all
    /// expressions are valued on the context before.
    pub fn apply_write<C: Calls>(
        &self,
        cycle: u32,
        k: usize,
        ctx: &mut Context,
        inputs: &[i64; 4],
        natives: &C,
    ) -> u8
        requires step { k < length (table_writes self.now cycle) }
        requires blocks { length ctx.old ≡ self.now.blocks }
        ensures { IsSomeAnd (slice_get (table_writes self.now cycle) k)
            (λ write. (ctx.new ≡ written write ctx.old inputs.now cycle) × (result ≡ write.block)) }
    {
        let write = find_write(
            self.tasks.as_slice(),
            row_of(&self.rows, cycle).as_slice(),
            k,
        )
        .unwrap();
        write.apply(cycle, ctx, inputs, natives);
        write.block
    }

    /// The blocks that the cycle's row writes.
    pub fn distinct_blocks(&self, cycle: u32) -> BlockSet
        ensures { result ≡ blocks_where (has (map (λ write. write.block) (table_writes self.now cycle))) }
    {
        blocks_of(self.tasks.as_slice(), row_of(&self.rows, cycle).as_slice())
    }

    /// The greatest number of distinct blocks that a row writes.
    pub fn most_blocks(&self) -> u16
        ensures { result ≡ most_blocks self.now.rows }
    {
        most_of_rows(self.tasks.as_slice(), self.rows.as_slice())
    }
}
