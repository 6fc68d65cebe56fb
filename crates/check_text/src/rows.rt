//! The lines of the table's expressions.
ghost use Rattle.std.specs.Prelude.{◌≡◌, ◌<◌, ◌++◌, length, map, option_map, IfOk, OnOk};
ghost use Rattle.expr_core.specs.Tree.{tree};
ghost use Rattle.task_table.specs.Tables.{tasks_in_row};
ghost use Rattle.check_text.specs.Check.{texts_from, word_text, write_text, task_text, row_text};

use expr_core::Expr;
use expr_text::print;
use guards_base::Text;
use report_text::check_line;
use std::alloc::{AllocError, Global};
use task_table::{Table, Task, Write};

/// Appends the line of a word, where it has an expression.
fn push_word(
    alloc: Global,
    text: &mut Text,
    row: u16,
    task: &Text,
    block: u8,
    word: u8,
    expr: &Option<Expr>,
) -> Result<(), AllocError>
    ensures { OnOk result (text.new ≡ text.old ++ word_text row task.now block word (option_map tree expr.now)) }
{
    match expr {
        None => Ok(()),
        Some(expr) => {
            let canonical = print(alloc, expr)?;
            check_line(alloc, text, row, task, block, word, &canonical)
        }
    }
}

/// Appends the lines of the words of a block.
fn push_words(
    alloc: Global,
    text: &mut Text,
    row: u16,
    task: &Text,
    block: u8,
    set: &[Option<Expr>; 8],
) -> Result<(), AllocError>
    ensures { OnOk result (text.new
        ≡ text.old ++ texts_from (word_text row task.now block) 0 (map (option_map tree) set.now)) }
{
    for word in 0..8u8 {
        push_word(alloc, text, row, task, block, word, &set[word as usize])?;
    }
    Ok(())
}

/// Appends the lines of a write.
#[tactic(auto, unfolding(crate::specs::Check::write_text))]
fn push_write(
    alloc: Global,
    text: &mut Text,
    row: u16,
    task: &Text,
    write: &Write,
) -> Result<(), AllocError>
    ensures { OnOk result (text.new ≡ text.old ++ write_text row task.now write.now) }
{
    push_words(alloc, text, row, task, write.block, &write.set.at)
}

/// Appends the lines of a task.
fn push_task(alloc: Global, text: &mut Text, row: u16, task: &Task) -> Result<(), AllocError>
    ensures { OnOk result (text.new ≡ text.old ++ task_text row task.now) }
{
    let writes = task.writes.as_slice();
    for place in 0..writes.len() {
        push_write(alloc, text, row, &task.name, &writes[place])?;
    }
    Ok(())
}

/// The lines of a row.
pub fn row_text(alloc: Global, table: &Table, row: u16) -> Result<Text, AllocError>
    requires { row < length table.now.rows }
    ensures { IfOk result (λ text. text ≡ row_text row (tasks_in_row table.now.rows row)) }
{
    let mut text = Text::new(alloc);
    for place in 0..table.row_len(row) {
        push_task(alloc, &mut text, row, table.task(row, place))?;
    }
    Ok(text)
}
