//! The whole text.
ghost use Rattle.std.specs.Prelude.{◌≡◌, ◌++◌, IfOk, OnOk};
ghost use Rattle.check_text.specs.Check.{check_of, row_text, texts_from};

use crate::head::head_text;
use crate::rows::row_text;
use guards_base::Text;
use mission_type::Mission;
use std::alloc::{AllocError, Global};
use task_table::Table;

/// Appends the lines of all rows.
fn push_rows(alloc: Global, text: &mut Text, table: &Table) -> Result<(), AllocError>
    ensures { OnOk result (text.new ≡ text.old ++ texts_from row_text 0 table.now.rows) }
{
    for row in 0..table.rows() {
        let lines = row_text(alloc, table, row)?;
        text.push_str(lines.as_str())?;
    }
    Ok(())
}

/// The text of `check`: the first four lines, and a line for each expression of the table, row by row, task by task,
/// write by write and word by word.
pub fn check_text(alloc: Global, mission: &Mission) -> Result<Text, AllocError>
    ensures { IfOk result (λ text. text ≡ check_of mission.now) }
{
    let mut text = head_text(alloc, mission)?;
    push_rows(alloc, &mut text, mission.table())?;
    Ok(text)
}
