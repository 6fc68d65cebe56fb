ghost use Rattle.std.specs.Prelude.{◌≡◌, length};
ghost use Rattle.std.specs.List.{list_all};
ghost use Rattle.guards_model.specs.Expressions.{fits_or_none};
ghost use Rattle.expr_core.specs.Tree.{tree};
ghost use Rattle.std.specs.Prelude.{option_map};
ghost use Rattle.task_table.specs.Tables.{expressions_fit, names_tasks, places_of};

use expr_core::Expr;
use guards_base::{Numbers, Text};
use std::alloc::{AllocError, Global};
use std::test::Fail;
use task_table::{Sets, Table, TableFault, Task, TaskRows, Tasks, Write, Writes};

/// A task: how many writes it has, and of the last one the block and whether it has an expression.
#[derive(Drop)]
struct Shape {
    writes: usize,
    block: u8,
    set: bool,
}

/// So many tasks, of which the first and the others have these shapes, and so many rows that name the first task so
/// many times; with two blocks.
#[derive(Drop)]
struct Case {
    tasks: usize,
    first: Shape,
    other: Shape,
    rows: usize,
    places: usize,
    fault: Option<TableFault>,
}

fn shaped(writes: usize, block: u8, set: bool) -> Shape {
    Shape { writes, block, set }
}

fn write(block: u8, set: bool) -> Write {
    let mut at = [None, None, None, None, None, None, None, None];
    if set {
        at[7] = Some(Expr::Number(1));
    }
    Write {
        block,
        set: Sets { at },
    }
}

fn task(alloc: Global, shape: &Shape) -> Result<Task, AllocError> {
    let mut writes = Writes::new(alloc);
    for k in 0..shape.writes {
        let last = k == shape.writes - 1;
        writes.push(if last {
            write(shape.block, shape.set)
        } else {
            write(0, true)
        })?;
    }
    Ok(Task {
        name: Text::new(alloc),
        writes,
    })
}

fn tasks(alloc: Global, case: &Case) -> Result<Tasks, AllocError> {
    let mut tasks = Tasks::new(alloc);
    for k in 0..case.tasks {
        tasks.push(task(alloc, if k == 0 { &case.first } else { &case.other })?)?;
    }
    Ok(tasks)
}

fn row(alloc: Global, places: usize) -> Result<Numbers, AllocError> {
    let mut row = Numbers::new(alloc);
    for _ in 0..places {
        row.push(0)?;
    }
    Ok(row)
}

fn rows(alloc: Global, case: &Case) -> Result<TaskRows, AllocError> {
    let mut rows = TaskRows::new(alloc);
    for _ in 0..case.rows {
        rows.push(row(alloc, case.places)?)?;
    }
    Ok(rows)
}

fn fits(expr: &Option<Expr>) -> bool
    ensures { result ≡ fits_or_none 2 1 (option_map tree expr.now) }
{
    match expr {
        None => true,
        Some(expr) => expr.fits(2, 1),
    }
}

fn sets_fit(set: &Sets) -> bool
    ensures { result ≡ list_all (fits_or_none 2 1) set.now }
{
    set.at.iter().all(|expr| fits(expr))
}

fn write_fits(write: &Write) -> bool
    ensures { result ≡ list_all (fits_or_none 2 1) write.now.set }
{
    sets_fit(&write.set)
}

fn task_fits(task: &Task) -> bool
    ensures { result ≡ expressions_fit 2 1 task.now }
{
    task.writes.as_slice().iter().all(|write| write_fits(write))
}

fn all_fit(tasks: &Tasks) -> bool
    ensures { result ≡ list_all (expressions_fit 2 1) tasks.now.items }
{
    tasks.as_slice().iter().all(|task| task_fits(task))
}

fn row_is_named(row: &Numbers, count: usize) -> bool
    ensures { result ≡ names_tasks count row.now.items }
{
    row.as_slice().iter().all(|place| (*place as usize) < count)
}

fn rows_are_named(rows: &TaskRows, count: usize) -> bool
    ensures { result ≡ list_all (names_tasks count) (places_of rows.now.items) }
{
    rows.as_slice().iter().all(|row| row_is_named(row, count))
}

/// The fault of the case; a case whose rows name no task of its own is answered by a fault that no table has.
fn fault_of(alloc: Global, case: &Case) -> Result<Option<TableFault>, AllocError> {
    let tasks = tasks(alloc, case)?;
    let rows = rows(alloc, case)?;
    if !all_fit(&tasks) || !rows_are_named(&rows, tasks.len()) {
        return Ok(Some(TableFault::Memory));
    }
    Ok(match Table::new(tasks, rows, 2, 1) {
        Ok(_) => None,
        Err(fault) => Some(fault),
    })
}

fn good() -> Shape {
    shaped(1, 1, true)
}

fn expects(
    tasks: usize,
    first: Shape,
    other: Shape,
    rows: usize,
    places: usize,
    fault: Option<TableFault>,
) -> Case {
    Case {
        tasks,
        first,
        other,
        rows,
        places,
        fault,
    }
}

#[test]
fn tasks_are_refused(rt: HostRuntime) -> Result<(), Fail> {
    let cases = [
        expects(1, shaped(1, 1, true), good(), 1, 1, None),
        expects(64, shaped(16, 1, true), good(), 16, 16, None),
        expects(0, good(), good(), 1, 0, Some(TableFault::Tasks)),
        expects(65, good(), good(), 1, 1, Some(TableFault::Tasks)),
        expects(
            1,
            shaped(0, 1, true),
            good(),
            1,
            1,
            Some(TableFault::Writes { task: 0 }),
        ),
        expects(
            3,
            good(),
            shaped(17, 1, true),
            1,
            1,
            Some(TableFault::Writes { task: 1 }),
        ),
        expects(
            1,
            shaped(3, 2, true),
            good(),
            1,
            1,
            Some(TableFault::Block { task: 0, write: 2 }),
        ),
        expects(
            2,
            good(),
            shaped(16, 1, false),
            1,
            1,
            Some(TableFault::Set { task: 1, write: 15 }),
        ),
        expects(1, good(), good(), 0, 0, Some(TableFault::Rows)),
        expects(1, good(), good(), 17, 1, Some(TableFault::Rows)),
        expects(1, good(), good(), 2, 17, Some(TableFault::Row { row: 0 })),
    ];
    for case in cases.iter() {
        assert_eq!(rt; fault_of(rt.alloc(), case)?, case.fault);
    }
    Ok(())
}

#[test]
fn first_fault_is_answered(rt: HostRuntime) -> Result<(), Fail> {
    let cases = [
        expects(
            65,
            shaped(0, 2, false),
            good(),
            17,
            17,
            Some(TableFault::Tasks),
        ),
        expects(
            2,
            shaped(1, 2, true),
            shaped(0, 1, true),
            1,
            1,
            Some(TableFault::Block { task: 0, write: 0 }),
        ),
        expects(
            2,
            shaped(1, 1, false),
            shaped(1, 2, true),
            1,
            1,
            Some(TableFault::Set { task: 0, write: 0 }),
        ),
        expects(
            1,
            shaped(1, 2, false),
            good(),
            1,
            1,
            Some(TableFault::Block { task: 0, write: 0 }),
        ),
        expects(
            1,
            shaped(17, 2, false),
            good(),
            0,
            0,
            Some(TableFault::Writes { task: 0 }),
        ),
        expects(
            2,
            good(),
            shaped(1, 1, false),
            17,
            1,
            Some(TableFault::Set { task: 1, write: 0 }),
        ),
        expects(1, good(), good(), 17, 17, Some(TableFault::Rows)),
    ];
    for case in cases.iter() {
        assert_eq!(rt; fault_of(rt.alloc(), case)?, case.fault);
    }
    Ok(())
}
