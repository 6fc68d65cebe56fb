//! Loops over the marks of all blocks.
ghost use Rattle.std.specs.Prelude.{◌≡◌, ◌-◌, ◌≤◌, ◌<◌, ℕ, not, ◌&&◌, ◌||◌, ◌++◌, true, false, length, filter, take, count_by, replicate, None};
ghost use Rattle.std.specs.List.{range_with_len, last_or};
ghost use Rattle.guards_model.specs.Channels.{has};
ghost use Rattle.guards_model.specs.Transfers.{cursor_after};
ghost use Rattle.dirty_tags.specs.Marks.{is_marked};

use crate::Plan;
use context_blocks::BlockSet;

/// The same mark for every block.
pub fn filled(value: bool) -> [bool; 256]
    ensures { result ≡ replicate 256 value }
{
    [value; 256]
}

/// Appends the marked blocks of a range to a plan, while it has fewer than `most`.
pub fn gather(marks: &[bool], from: usize, to: usize, most: usize, plan: &mut Plan)
    requires order { from ≤ to }
    requires within { to ≤ length marks.now }
    requires blocks { length marks.now ≤ 256 }
    requires held { length plan.old ≤ most }
    requires room { most ≤ 64 }
    ensures { plan.new ≡ take most (plan.old ++ filter (is_marked marks.now) (range_with_len from (to - from))) }
{
    for block in from..to {
        if marks[block] && plan.len() < most {
            plan.push(block as u8);
        }
    }
}

/// Unmarks the planned blocks.
pub fn unmark(marks: &mut [bool; 256], planned: &[u8])
    ensures { (b : ℕ) → b < 256 → is_marked marks.new b ≡ (not (has planned.now b) && is_marked marks.old b) }
{
    for block in planned {
        marks[usize::from(*block)] = false;
    }
}

/// Marks the written blocks.
pub fn mark(marks: &mut [bool; 256], written: &[bool; 256])
    ensures { (b : ℕ) → b < 256 → is_marked marks.new b ≡ (is_marked written.now b || is_marked marks.old b) }
{
    for block in 0..256usize {
        if written[block] {
            marks[block] = true;
        }
    }
}

/// Marks the blocks of a set.
pub fn mark_all(marks: &mut [bool; 256], blocks: &BlockSet)
    ensures { (b : ℕ) → b < 256 → is_marked marks.new b ≡ (has blocks.now b || is_marked marks.old b) }
{
    for block in 0..256usize {
        if blocks.has(block as u8) {
            marks[block] = true;
        }
    }
}

/// How many are marked.
pub fn count(marks: &[bool]) -> u16
    requires { length marks.now ≤ 256 }
    ensures value { result ≡ count_by (λ m. m) marks.now }
    ensures most { result ≤ length marks.now }
{
    marks.iter().filter(|m| **m).count() as u16
}

/// The block at which the plan after this one begins.
pub fn next_start(planned: &[u8], cursor: u16, blocks: u16) -> u16
    requires { 0 < blocks }
    ensures { result ≡ cursor_after blocks cursor (last_or None planned.now) }
{
    if planned.is_empty() {
        cursor
    } else {
        (u16::from(planned[planned.len() - 1]) + 1) % blocks
    }
}
