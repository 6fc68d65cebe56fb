//! The flow of a table.
ghost use Rattle.std.specs.Prelude.{◌≡◌, ◌<◌, ◌≤◌, ◌==◌, ◌||◌, ℕ, Bool, length, flat_map, map, option_map};
ghost use Rattle.std.specs.List.{list_any};
ghost use Rattle.expr_core.specs.Tree.{tree};
ghost use Rattle.context_blocks.specs.BlockSets.{flag_at};
ghost use Rattle.task_table.specs.Tables.{tasks_in_row};
ghost use Rattle.table_flow.specs.Flow.{FlowsInto, assignments, depends_within, feeds, is_depended_on, is_input_read, is_read, is_written, lists_from, row_assignments, task_assignments, word_assignments, word_number, write_assignments};

use crate::flow::{Flow, WORDS};
use crate::names::{flag_names, flag_output};
use expr_core::Expr;
use task_table::{Table, Task, Write};

/// The expression of a word of a block, if it has one and the word is kept.
fn add_word(kept: &[bool; WORDS], block: u8, word: u8, expr: &Option<Expr>, flow: &mut Flow)
    requires { word < 8 }
    ensures { FlowsInto (flag_at kept.now) (word_assignments block word (option_map tree expr.now)) flow.old flow.new }
{
    if let Some(expr) = expr {
        let number = usize::from(block) * 8 + usize::from(word);
        if kept[number] {
            flow.written[number] = true;
            flag_names(expr, flow);
        }
    }
}

fn add_words(kept: &[bool; WORDS], block: u8, set: &[Option<Expr>; 8], flow: &mut Flow)
    ensures { FlowsInto (flag_at kept.now) (lists_from (word_assignments block) 0 (map (option_map tree) set.now))
        flow.old flow.new }
{
    for word in 0..8u8 {
        add_word(kept, block, word, &set[word as usize], flow);
    }
}

#[tactic(auto, unfolding(crate::specs::Flow::write_assignments))]
fn add_write(kept: &[bool; WORDS], write: &Write, flow: &mut Flow)
    ensures { FlowsInto (flag_at kept.now) (write_assignments write.now) flow.old flow.new }
{
    add_words(kept, write.block, &write.set.at, flow);
}

fn add_writes(kept: &[bool; WORDS], writes: &[Write], flow: &mut Flow)
    ensures { FlowsInto (flag_at kept.now) (flat_map write_assignments writes.now) flow.old flow.new }
{
    for write in writes.iter() {
        add_write(kept, write, flow);
    }
}

#[tactic(auto, unfolding(crate::specs::Flow::task_assignments))]
fn add_task(kept: &[bool; WORDS], task: &Task, flow: &mut Flow)
    ensures { FlowsInto (flag_at kept.now) (task_assignments task.now) flow.old flow.new }
{
    add_writes(kept, task.writes.as_slice(), flow);
}

fn add_row(kept: &[bool; WORDS], table: &Table, row: u16, flow: &mut Flow)
    requires { row < length table.now.rows }
    ensures { FlowsInto (flag_at kept.now) (row_assignments (tasks_in_row table.now.rows row)) flow.old flow.new }
{
    for place in 0..table.row_len(row) {
        add_task(kept, table.task(row, place), flow);
    }
}

/// Adds what the expressions of kept words name, and these words.
fn add_table(kept: &[bool; WORDS], table: &Table, flow: &mut Flow)
    ensures { FlowsInto (flag_at kept.now) (assignments table.now.rows) flow.old flow.new }
{
    for row in 0..table.rows() {
        add_row(kept, table, row, flow);
    }
}

/// The words that the expressions of a table are stored in, and the words and inputs that they name.
pub fn table_flow(table: &Table) -> Flow
    ensures written { (w : ℕ) → w < 2048 → flag_at result.written w ≡ is_written table.now.rows w }
    ensures read { (w : ℕ) → w < 2048 → flag_at result.words w ≡ is_read table.now.rows w }
    ensures inputs { (k : ℕ) → k < 4 → flag_at result.inputs k ≡ is_input_read table.now.rows k }
{
    let mut flow = Flow {
        words: [false; WORDS],
        inputs: [false; 4],
        written: [false; WORDS],
    };
    add_table(&[true; WORDS], table, &mut flow);
    flow
}

/// The words that are kept, and those that their expressions name.
fn fed_words(table: &Table, kept: &[bool; WORDS]) -> [bool; WORDS]
    ensures { (passes : ℕ → Bool) → ((w : ℕ) → w < 2048 → flag_at kept.now w ≡ passes w) →
        (w : ℕ) → w < 2048 → flag_at result w ≡ (passes w || feeds (assignments table.now.rows) passes w) }
{
    let mut flow = Flow {
        words: *kept,
        inputs: [false; 4],
        written: [false; WORDS],
    };
    add_table(kept, table, &mut flow);
    flow.words
}

/// The words of the outputs.
fn output_words(outputs: &[(u8, u8)]) -> [bool; WORDS]
    ensures { (w : ℕ) → w < 2048 → flag_at result w ≡ list_any (λ o. word_number o.0 o.1 == w) outputs.now }
{
    let mut words = [false; WORDS];
    for place in 0..outputs.len() {
        flag_output(&mut words, outputs[place]);
    }
    words
}

/// The words on which the outputs depend, in a context of so many blocks.
pub fn depended_words(table: &Table, outputs: &[(u8, u8)], blocks: u16) -> [bool; WORDS]
    requires { blocks ≤ 256 }
    ensures { (w : ℕ) → w < 2048 → flag_at result w ≡ is_depended_on blocks table.now.rows outputs.now w }
{
    let mut words = output_words(outputs);
    for step in 0..blocks * 8 {
        let _number = step;
        words = fed_words(table, &words);
    }
    words
}
