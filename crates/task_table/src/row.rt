//! The writes of the tasks that a row names.

ghost use Rattle.std.specs.Prelude.{◌≡◌, ◌≤◌, ◌||◌, ℕ, Bool, length, map, slice_get, IsTrue, nat_le, nat_lt, true};
ghost use Rattle.std.specs.List.{list_all};
ghost use Rattle.std.specs.Option.{option_copied};
ghost use Rattle.guards_model.specs.Channels.{has};
ghost use Rattle.guards_model.specs.JoinBound.{most_blocks};
ghost use Rattle.guards_model.specs.Tasks.{writes_of};
ghost use Rattle.context_blocks.specs.BlockSets.{blocks_where};
ghost use Rattle.guards_model.specs.Missions.{row_in_turn};
ghost use Rattle.task_table.specs.Tables.{places_of, named_tasks, names_tasks};

use crate::task::Task;
use crate::write::Write;
use context_blocks::BlockSet;
use guards_base::{Numbers, Sequence};

/// The rows of a table. Each names its tasks by their places.
pub type TaskRows = Sequence<Numbers>;

/// The row whose turn it is.
pub(crate) fn row_of(rows: &TaskRows, cycle: u32) -> &Numbers
    requires { 1 ≤ length rows.now.items }
    ensures { result.now.items ≡ row_in_turn (places_of rows.now.items) cycle }
{
    let number = cycle as usize % rows.len();
    rows.get(number)
}

/// How many writes there are.
pub(crate) fn count_writes(tasks: &[Task], row: &[u32]) -> usize
    requires named { IsTrue (names_tasks (length tasks.now) row.now) }
    requires few { IsTrue (list_all (λ task. nat_le (length task.writes) 16) tasks.now) }
    requires short { length row.now ≤ 16 }
    ensures count { result ≡ length (writes_of (named_tasks tasks.now row.now)) }
    ensures few { result ≤ 256 }
{
    let mut count = 0;
    for place in row.iter() {
        let task = &tasks[*place as usize];
        count += task.writes.len();
    }
    count
}

/// The k-th write, from 0.
pub(crate) fn find_write<'a>(tasks: &'a [Task], row: &[u32], k: usize) -> Option<&'a Write>
    requires { IsTrue (names_tasks (length tasks.now) row.now) }
    ensures { option_copied result ≡ slice_get (writes_of (named_tasks tasks.now row.now)) k }
{
    let mut left = k;
    for place in row.iter() {
        let task = &tasks[*place as usize];
        let writes = task.writes.as_slice();
        if left < writes.len() {
            return Some(&writes[left]);
        }
        left -= writes.len();
    }
    None
}

/// The blocks that the row writes.
pub(crate) fn blocks_of(tasks: &[Task], row: &[u32]) -> BlockSet
    requires { IsTrue (names_tasks (length tasks.now) row.now) }
    ensures set { result ≡ blocks_where (has (map (λ write. write.block) (writes_of (named_tasks tasks.now row.now)))) }
    ensures low { list_all (λ block. nat_lt block 256)
        (map (λ write. write.block) (writes_of (named_tasks tasks.now row.now))) ≡ true }
{
    let mut blocks = BlockSet::empty();
    for place in row.iter() {
        let task = &tasks[*place as usize];
        insert_blocks(&mut blocks, task.writes.as_slice());
    }
    blocks
}

/// Adds the blocks of some writes.
fn insert_blocks(blocks: &mut BlockSet, writes: &[Write])
    ensures set { (test : ℕ → Bool) → blocks.old ≡ blocks_where test →
        blocks.new ≡ blocks_where (λ block. test block || has (map (λ write. write.block) writes.now) block) }
    ensures low { list_all (λ block. nat_lt block 256) (map (λ write. write.block) writes.now) ≡ true }
{
    for write in writes.iter() {
        blocks.insert(write.block);
    }
}

/// The greatest number of distinct blocks that a row writes.
pub(crate) fn most_of_rows(tasks: &[Task], rows: &[Numbers]) -> u16
    requires { IsTrue (list_all (names_tasks (length tasks.now)) (places_of rows.now)) }
    ensures { result ≡ most_blocks (map (named_tasks tasks.now) (places_of rows.now)) }
{
    let mut most: u16 = 0;
    for row in rows.iter() {
        let count = blocks_of(tasks, row.as_slice()).count();
        most = most.max(count);
    }
    most
}
