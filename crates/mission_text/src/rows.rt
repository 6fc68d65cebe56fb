//! The key `table`: the rows, and the rules of the whole table.
ghost use Rattle.std.specs.Prelude.{◌≡◌, ◌≤◌, length, string_bytes, IfOk, IsTrue};
ghost use Rattle.std.specs.List.{list_all, position};
ghost use Rattle.toml.specs.View.{view, table_view};
ghost use Rattle.guards_model.specs.Missions.{is_table};
ghost use Rattle.task_table.specs.Tables.{names_tasks, places_of};
ghost use Rattle.document_checks.specs.Checks.{Gives, Refuses};
ghost use Rattle.mission_text.specs.Tasks.{has_name};
ghost use Rattle.mission_text.specs.Rows.{rows_field, task_path, write_path, cause_of_fault, path_of_fault, table_field};

use crate::expressions::TextSizes;
use crate::tasks::tasks_field;
use document_checks::{
    Cause, ElementReader, ReadFault, array_of, each, element, field, refusal, required, text_of,
};
use guards_base::Numbers;
use std::alloc::{AllocError, Global};
use task_table::{Table as TaskTable, TableFault, Task, TaskRows};
use toml::{Table, Value};

/// The place of the task with a name.
fn place_of(name: &str, tasks: &[Task]) -> Option<usize>
    ensures place { result ≡ position (has_name name.now) tasks.now }
{
    tasks.iter().position(|task| task.name.as_str() == name)
}

/// Reads the names of a row, as the places of these tasks.
#[derive(Clone, Copy)]
struct PlaceReader<'a> {
    tasks: &'a [Task],
}

impl<'a> ElementReader for PlaceReader<'a> {
    ghost use Rattle.std.specs.Prelude.{ℕ, nat_lt, length};
    ghost use Rattle.document_checks.specs.Checks.{alone};
    ghost use Rattle.mission_text.specs.Rows.{place_at};

    type Element = u32;

    ghost Meaning = { ℕ };

    ghost meaning = { λ _ place. place };

    ghost check = { λ reader. alone (place_at reader.tasks.now) };

    ghost holds = { λ reader place. nat_lt place (length reader.tasks.now) };

    #[tactic(auto, unfolding(crate::specs::Rows::place_at))]
    fn read(
        &self,
        alloc: Global,
        _earlier: &[u32],
        path: &str,
        value: &Value,
    ) -> Result<u32, ReadFault> {
        let name = text_of(alloc, value, path)?;
        match place_of(name, self.tasks) {
            // A list of more tasks than u32 tells takes more memory than there is.
            Some(place) => u32::try_from(place).map_err(|_| ReadFault::Memory),
            None => Err(refusal(alloc, Cause::Unknown, path)),
        }
    }
}

/// Reads the rows, whose names are those of these tasks.
#[derive(Clone, Copy)]
struct RowReader<'a> {
    tasks: &'a [Task],
}

impl<'a> ElementReader for RowReader<'a> {
    ghost use Rattle.std.specs.Prelude.{ℕ, List, length};
    ghost use Rattle.task_table.specs.Tables.{names_tasks};
    ghost use Rattle.document_checks.specs.Checks.{alone};
    ghost use Rattle.mission_text.specs.Rows.{row_at};

    type Element = Numbers;

    ghost Meaning = { List ℕ };

    ghost meaning = { λ _ row. row.items };

    ghost check = { λ reader. alone (row_at reader.tasks.now) };

    ghost holds = { λ reader row. names_tasks (length reader.tasks.now) row.items };

    #[tactic(auto, using(crate::proofs::Lists::same_list), unfolding(crate::specs::Rows::row_at))]
    fn read(
        &self,
        alloc: Global,
        _earlier: &[Numbers],
        path: &str,
        value: &Value,
    ) -> Result<Numbers, ReadFault> {
        let items = array_of(alloc, value, path)?;
        each(alloc, &PlaceReader { tasks: self.tasks }, path, items)
    }
}

/// The rows, by the places of their tasks.
#[tactic(auto, using(crate::proofs::Lists::rows_named), unfolding(crate::specs::Rows::rows_field))]
fn rows_field(alloc: Global, fields: &Table, tasks: &[Task]) -> Result<TaskRows, ReadFault>
    ensures named { IfOk result (λ rows. IsTrue (list_all (names_tasks (length tasks.now)) (places_of rows.items))) }
    ensures exact { Gives (λ rows. places_of rows.items) result (rows_field tasks.now (table_view fields.now)) }
{
    let given = required(alloc, fields, "", "table")?;
    let items = array_of(alloc, given, "table")?;
    each(alloc, &RowReader { tasks }, "table", items)
}

/// The path of a task's writes.
fn task_path(alloc: Global, task: u16) -> Result<String, AllocError>
    ensures { IfOk result (λ path. string_bytes path ≡ task_path task) }
{
    field(alloc, &element(alloc, "task", task as usize)?, "writes")
}

/// The path of a write.
fn write_path(alloc: Global, task: u16, write: u16) -> Result<String, AllocError>
    ensures { IfOk result (λ path. string_bytes path ≡ write_path task write) }
{
    element(alloc, &task_path(alloc, task)?, write as usize)
}

/// Where a table breaks a rule.
fn path_of(alloc: Global, fault: TableFault) -> Result<String, AllocError>
    ensures { IfOk result (λ path. string_bytes path ≡ path_of_fault fault) }
{
    match fault {
        TableFault::Tasks => String::from_str(alloc, "task"),
        TableFault::Writes { task } => task_path(alloc, task),
        TableFault::Block { task, write } => {
            field(alloc, &write_path(alloc, task, write)?, "block")
        }
        TableFault::Set { task, write } => write_path(alloc, task, write),
        TableFault::Rows => String::from_str(alloc, "table"),
        TableFault::Row { row } => element(alloc, "table", row as usize),
        TableFault::Memory => Ok(String::new(alloc)),
    }
}

fn cause_of(fault: TableFault) -> Cause
    ensures { result ≡ cause_of_fault fault }
{
    match fault {
        TableFault::Set { .. } => Cause::Missing,
        _ => Cause::OutOfRange,
    }
}

/// The fault of a mission whose table breaks a rule.
fn refused(alloc: Global, fault: TableFault) -> ReadFault
    ensures { Refuses (cause_of_fault fault) (path_of_fault fault) result }
{
    match path_of(alloc, fault) {
        Ok(path) => refusal(alloc, cause_of(fault), &path),
        Err(_) => ReadFault::Memory,
    }
}

/// The table of the tasks, over the keys `task` and `table`.
#[tactic(auto, using(crate::proofs::TableParts::tasks_fit, crate::proofs::TableParts::table_whole), unfolding(crate::specs::Rows::table_field))]
pub(crate) fn table_field(
    alloc: Global,
    fields: &Table,
    sizes: TextSizes,
) -> Result<TaskTable, ReadFault>
    requires narrow { sizes.width ≤ 4 }
    ensures blocks { IfOk result (λ table. table.blocks ≡ sizes.blocks) }
    ensures width { IfOk result (λ table. table.width ≡ sizes.width) }
    ensures whole { IfOk result (λ table. IsTrue (is_table sizes.blocks sizes.width table.rows)) }
    ensures exact { Gives (λ table. table.rows) result (table_field sizes.blocks sizes.width (table_view fields.now)) }
{
    let tasks = tasks_field(alloc, fields, sizes)?;
    let rows = rows_field(alloc, fields, tasks.as_slice())?;
    match TaskTable::new(tasks, rows, sizes.blocks, sizes.width) {
        Ok(table) => Ok(table),
        Err(fault) => Err(refused(alloc, fault)),
    }
}
