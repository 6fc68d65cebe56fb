//! The rules that tasks and rows have to keep.

ghost use Rattle.std.specs.Prelude.{◌≡◌, ◌≤◌, length};
ghost use Rattle.task_table.specs.TableFaults.{first_fault, write_fault, task_fault, row_fault, table_fault};
ghost use Rattle.task_table.specs.Tables.{places_of};

use crate::fault::TableFault;
use crate::row::TaskRows;
use crate::task::{Task, Tasks};
use crate::write::Write;
use guards_base::Numbers;

const MOST_TASKS: usize = 64;

const MOST_WRITES: usize = 16;

const MOST_ROWS: usize = 16;

const MOST_TASKS_OF_ROW: usize = 16;

/// The first rule that is broken, if any.
pub(crate) fn table_fault(tasks: &Tasks, rows: &TaskRows, blocks: u16) -> Option<TableFault>
    ensures { result ≡ table_fault blocks tasks.now.items (places_of rows.now.items) }
{
    let tasks = tasks.as_slice();
    let rows = rows.as_slice();
    if tasks.is_empty() || tasks.len() > MOST_TASKS {
        return Some(TableFault::Tasks);
    }
    if let Some(fault) = tasks_fault(blocks, tasks) {
        return Some(fault);
    }
    if rows.is_empty() || rows.len() > MOST_ROWS {
        return Some(TableFault::Rows);
    }
    rows_fault(rows)
}

fn tasks_fault(blocks: u16, tasks: &[Task]) -> Option<TableFault>
    requires { length tasks.now ≤ 64 }
    ensures { result ≡ first_fault (task_fault blocks) 0 tasks.now }
{
    for (number, task) in tasks.iter().enumerate() {
        if let Some(fault) = task_fault(blocks, number as u16, task) {
            return Some(fault);
        }
    }
    None
}

fn task_fault(blocks: u16, task: u16, value: &Task) -> Option<TableFault>
    ensures { result ≡ task_fault blocks task value.now }
{
    let writes = value.writes.as_slice();
    if writes.is_empty() || writes.len() > MOST_WRITES {
        Some(TableFault::Writes { task })
    } else {
        writes_fault(blocks, task, writes)
    }
}

fn writes_fault(blocks: u16, task: u16, writes: &[Write]) -> Option<TableFault>
    requires { length writes.now ≤ 16 }
    ensures { result ≡ first_fault (write_fault blocks task) 0 writes.now }
{
    for (number, write) in writes.iter().enumerate() {
        if let Some(fault) = write_fault(blocks, task, number as u16, write) {
            return Some(fault);
        }
    }
    None
}

fn write_fault(blocks: u16, task: u16, write: u16, value: &Write) -> Option<TableFault>
    ensures { result ≡ write_fault blocks task write value.now }
{
    if u16::from(value.block) >= blocks {
        Some(TableFault::Block { task, write })
    } else if !value.set.has_expression() {
        Some(TableFault::Set { task, write })
    } else {
        None
    }
}

fn rows_fault(rows: &[Numbers]) -> Option<TableFault>
    requires { length rows.now ≤ 16 }
    ensures { result ≡ first_fault row_fault 0 (places_of rows.now) }
{
    for (number, row) in rows.iter().enumerate() {
        if row.len() > MOST_TASKS_OF_ROW {
            return Some(TableFault::Row { row: number as u16 });
        }
    }
    None
}
