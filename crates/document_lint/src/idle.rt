//! The tasks of a document that stand in no row of its table.
ghost use Rattle.std.specs.Prelude.{◌≡◌, ◌++◌, codes, option_map, OnOk};
ghost use Rattle.std.specs.List.{list_any};
ghost use Rattle.toml.specs.Data.{get_member};
ghost use Rattle.toml.specs.View.{view, items_view, table_view};
ghost use Rattle.table_flow.specs.Flow.{lists_from};
ghost use Rattle.lint_lines.specs.LineLists.{option_list};
ghost use Rattle.document_lint.specs.IdleTasks.{array_values, document_lines, idle_line, idle_lines, is_text, name_of, row_has, stands_nowhere, text_in, values_in};

use document_checks::{ReadFault, document, lookup};
use lint_lines::{Lines, LintLine, push_line};
use std::alloc::{AllocError, Global};
use toml::{Table, Value};

// ---- what a document says

/// The text that a value is, if it is one.
fn text_in<'a>(value: Option<&'a Value>) -> Option<&'a str>
    ensures { option_map (λ text. text.now) result ≡ text_in (option_map (λ given. view given.now) value.entry) }
{
    match value {
        Some(Value::String(text)) => Some(text.as_str()),
        _ => None,
    }
}

/// The name of a task, if it has one.
fn name_of<'a>(task: &'a Value) -> Option<&'a str>
    ensures { option_map (λ text. text.now) result ≡ name_of (view task.now) }
{
    match task {
        Value::Table(fields) => text_in(lookup(fields, "name")),
        _ => None,
    }
}

// ---- tasks and rows

fn is_text(value: &Value, name: &str) -> bool
    ensures { result ≡ is_text name.now (view value.now) }
{
    match value {
        Value::String(text) => text.as_str() == name,
        _ => false,
    }
}

fn any_text(values: &[Value], name: &str) -> bool
    ensures { result ≡ list_any (λ value. is_text name.now (view value)) values.now }
{
    values.iter().any(|value| is_text(value, name))
}

/// Whether a row has the name.
fn row_has(row: &Value, name: &str) -> bool
    ensures { result ≡ row_has name.now (view row.now) }
{
    match row {
        Value::Array(names) => any_text(names.as_slice(), name),
        _ => false,
    }
}

fn any_row(rows: &[Value], name: &str) -> bool
    ensures { result ≡ list_any (λ row. row_has name.now (view row)) rows.now }
{
    rows.iter().any(|row| row_has(row, name))
}

/// Whether a name is in none of the rows.
fn stands_nowhere(rows: &[Value], name: Option<&str>) -> bool
    ensures { result ≡ stands_nowhere (values_in (items_view rows.now)) (option_map (λ text. text.now) name.entry) }
{
    match name {
        Some(name) => !any_row(rows, name),
        None => false,
    }
}

// ---- lines

/// The line on a task, by its place, if no row has its name.
fn idle_line(rows: &[Value], place: usize, task: &Value) -> Option<LintLine>
    ensures { option_list result ≡ idle_line (values_in (items_view rows.now)) place (view task.now) }
{
    if stands_nowhere(rows, name_of(task)) {
        Some(LintLine::IdleTask { place })
    } else {
        None
    }
}

/// Appends the lines on tasks.
fn push_tasks(rows: &[Value], tasks: &[Value], lines: &mut Lines) -> Result<(), AllocError>
    ensures { OnOk result (lines.new.items ≡ lines.old.items
        ++ lists_from (λ place task. idle_line (values_in (items_view rows.now)) place (view task)) 0 tasks.now) }
{
    for place in 0..tasks.len() {
        push_line(idle_line(rows, place, &tasks[place]), lines)?;
    }
    Ok(())
}

/// The values of the array at a key, if it has one.
fn values_at<'a>(fields: &'a Table, key: &str) -> &'a [Value]
    ensures { values_in (items_view result.now) ≡ array_values (get_member key.now (table_view fields.now)) }
{
    match lookup(fields, key) {
        Some(Value::Array(values)) => values.as_slice(),
        _ => &[],
    }
}

/// Appends the lines on the tasks of a document.
fn push_idle_lines(fields: &Table, lines: &mut Lines) -> Result<(), AllocError>
    ensures { OnOk result (lines.new.items ≡ lines.old.items ++ idle_lines (table_view fields.now)) }
{
    push_tasks(values_at(fields, "table"), values_at(fields, "task"), lines)
}

/// Appends the lines on the document that the bytes are: the tasks that stand in no row of its table. There are none
/// where the bytes are no document.
pub fn push_document_lines(alloc: Global, bytes: &[u8], lines: &mut Lines) -> Result<(), AllocError>
    ensures { OnOk result (lines.new.items ≡ lines.old.items ++ document_lines bytes.now) }
{
    match document(alloc, bytes) {
        Ok(fields) => push_idle_lines(&fields, lines),
        Err(ReadFault::Bad(_)) => Ok(()),
        Err(ReadFault::Memory) => Err(AllocError),
    }
}
