//! Writes the text of the command `check`.
ghost use Rattle.std.specs.Prelude.{◌<◌, length};
ghost use Rattle.task_table.specs.Tables.{tasks_in_row};
ghost use Rattle.check_text.specs.Check.{check_of, head_text, row_text, texts_from};
ghost use Rattle.guards_io.specs.Writes.{Writes};

use check_text::{head_text, row_text};
use guards_io::{Sink, WriteStop, put};
use mission_type::Mission;
use std::alloc::Global;
use task_table::Table;

/// Writes the first four lines.
#[tactic(auto, using(guards_io::proofs::WritesLemmas::nothing_written, guards_io::proofs::WritesLemmas::puts_writes))]
fn put_head<K: Sink>(alloc: Global, mission: &Mission, out: &mut K) -> Result<(), WriteStop>
    ensures { Writes (K.seen out.old) (K.seen out.new) (head_text mission.now) result }
{
    let Ok(text) = head_text(alloc, mission) else {
        return Err(WriteStop::Memory);
    };
    put(out, text.as_str())
}

/// Writes the lines of a row.
#[tactic(auto, using(guards_io::proofs::WritesLemmas::nothing_written, guards_io::proofs::WritesLemmas::puts_writes))]
fn put_row<K: Sink>(alloc: Global, table: &Table, row: u16, out: &mut K) -> Result<(), WriteStop>
    requires { row < length table.now.rows }
    ensures { Writes (K.seen out.old) (K.seen out.new) (row_text row (tasks_in_row table.now.rows row)) result }
{
    let Ok(text) = row_text(alloc, table, row) else {
        return Err(WriteStop::Memory);
    };
    put(out, text.as_str())
}

/// Writes the lines of all rows.
fn put_rows<K: Sink>(alloc: Global, table: &Table, out: &mut K) -> Result<(), WriteStop>
    ensures { Writes (K.seen out.old) (K.seen out.new) (texts_from row_text 0 table.now.rows) result }
{
    for row in 0..table.rows() {
        put_row(alloc, table, row, out)?;
    }
    Ok(())
}

/// Writes the text of `check`, part by part: the first four lines, and the lines of each row.
pub fn write_check<K: Sink>(alloc: Global, mission: &Mission, out: &mut K) -> Result<(), WriteStop>
    ensures { Writes (K.seen out.old) (K.seen out.new) (check_of mission.now) result }
{
    put_head(alloc, mission, out)?;
    put_rows(alloc, mission.table(), out)
}
