//! What the cycles of a transfer planned and wrote: for each block the last cycle that planned it and the last that
//! wrote it.
ghost use Rattle.std.specs.Prelude.{◌≡◌, ◌≤◌, ◌<◌, ◌+◌, ◌-◌, ◌∷◌, ◌++◌, [], ℕ, List, length, filter, take, replicate, None, Some, slice_index_or, if◌then◌else◌};
ghost use Rattle.std.specs.List.{last_or, range_with_len};
ghost use Rattle.guards_model.specs.Channels.{has};
ghost use Rattle.guards_model.specs.Transfers.{TransferCycle, cursor_after, planned_blocks, remaining_blocks};
ghost use Rattle.told_cycles.specs.Sweeping.{SweepsFor, is_flagged, remains_by};

use arrayvec::ArrayVec;
use context_blocks::BlockSet;

/// The blocks that a cycle plans, in order.
pub type Plan = ArrayVec<u8, 64>;

/// The cycles of a transfer so far.
#[derive(Drop)]
pub struct Sweeps {
    pub blocks: u16,
    pub planned: [Option<u32>; 256],
    pub written: [Option<u32>; 256],
    pub cursor: u16,
}

/// No cycle for each block.
fn no_cycles() -> [Option<u32>; 256]
    ensures { result ≡ replicate 256 None }
{
    [None; 256]
}

/// Appends the flagged blocks of a range to a plan, while it has fewer than `most`.
fn gather(flags: &[bool; 256], from: usize, to: usize, most: usize, plan: &mut Plan)
    requires order { from ≤ to }
    requires within { to ≤ 256 }
    requires held { length plan.old.items ≤ most }
    requires room { most ≤ 64 }
    ensures { plan.new.items
        ≡ take most (plan.old.items ++ filter (is_flagged flags.now) (range_with_len from (to - from))) }
{
    for block in from..to {
        if flags[block] && plan.len() < most {
            plan.push(block as u8);
        }
    }
}

/// How many blocks of a range from 0 are flagged.
fn count(flags: &[bool; 256], to: u16) -> u16
    requires { to ≤ 256 }
    ensures { result ≡ length (filter (is_flagged flags.now) (range_with_len 0 to)) }
{
    let mut count = 0;
    for block in 0..to {
        if flags[block as usize] {
            count += 1;
        }
    }
    count
}

/// Notes the cycle at the planned blocks.
fn note_planned(table: &mut [Option<u32>; 256], plan: &[u8], cycle: u32)
    ensures { (b : ℕ) → b < 256 →
        slice_index_or table.new b None ≡ (if has plan.now b then Some cycle else slice_index_or table.old b None) }
{
    for block in plan {
        table[usize::from(*block)] = Some(cycle);
    }
}

/// Notes the cycle at the blocks of a set.
fn note_written(table: &mut [Option<u32>; 256], blocks: &BlockSet, cycle: u32)
    ensures { (b : ℕ) → b < 256 →
        slice_index_or table.new b None ≡ (if has blocks.now b then Some cycle else slice_index_or table.old b None) }
{
    for block in 0..256usize {
        if blocks.has(block as u8) {
            table[block] = Some(cycle);
        }
    }
}

/// The block at which the plan after this one begins.
fn next_start(plan: &[u8], cursor: u16, blocks: u16) -> u16
    requires { 0 < blocks }
    ensures { result ≡ cursor_after blocks cursor (last_or None plan.now) }
{
    if plan.is_empty() {
        cursor
    } else {
        (u16::from(plan[plan.len() - 1]) + 1) % blocks
    }
}

/// Whether a block remains: it was never planned, or was written in or after the last cycle that planned it.
fn remains(planned: Option<u32>, written: Option<u32>) -> bool
    ensures { result ≡ remains_by planned written }
{
    match (planned, written) {
        (None, _) => true,
        (Some(_), None) => false,
        (Some(planned), Some(written)) => planned <= written,
    }
}

impl Sweeps {
    /// Of no cycle.
    pub fn none(blocks: u16) -> Sweeps
        requires some { 1 ≤ blocks }
        requires few { blocks ≤ 256 }
        ensures { (next : ℕ) → SweepsFor blocks next [] result }
    {
        Sweeps {
            blocks,
            planned: no_cycles(),
            written: no_cycles(),
            cursor: 0,
        }
    }

    /// Forgets all cycles: a transfer starts.
    fn restart(&mut self)
        ensures { (blocks next before : ℕ) (cycles : List TransferCycle) →
            SweepsFor blocks before cycles self.old → SweepsFor blocks next [] self.new }
    {
        self.planned = no_cycles();
        self.written = no_cycles();
        self.cursor = 0;
    }

    /// Forgets all cycles where a transfer starts.
    pub fn restart_if(&mut self, starts: bool)
        ensures { (blocks next : ℕ) (cycles : List TransferCycle) → SweepsFor blocks next cycles self.old →
            SweepsFor blocks next (if starts then [] else cycles) self.new }
    {
        if starts {
            self.restart();
        }
    }

    /// For each block whether it remains.
    fn flags(&self) -> [bool; 256]
        ensures { (b : ℕ) → b < 256 →
            is_flagged result b
            ≡ remains_by (slice_index_or self.now.planned b None) (slice_index_or self.now.written b None) }
    {
        let mut flags = [false; 256];
        for block in 0..256usize {
            flags[block] = remains(self.planned[block], self.written[block]);
        }
        flags
    }

    /// How many blocks remain.
    pub fn remaining(&self) -> u16
        requires { self.now.blocks ≤ 256 }
        ensures { (blocks next : ℕ) (cycles : List TransferCycle) → SweepsFor blocks next cycles self.now →
            result ≡ length (remaining_blocks blocks cycles) }
    {
        count(&self.flags(), self.blocks)
    }

    /// The plan of the next cycle: the first `sweep` blocks that remain, in cyclic order from the cursor.
    pub fn plan(&self, sweep: u8) -> Plan
        requires few { self.now.blocks ≤ 256 }
        requires low { self.now.cursor < self.now.blocks }
        requires room { sweep ≤ 64 }
        ensures { (blocks next : ℕ) (cycles : List TransferCycle) → SweepsFor blocks next cycles self.now →
            result.items ≡ planned_blocks blocks sweep cycles }
    {
        let flags = self.flags();
        let cursor = usize::from(self.cursor);
        let most = usize::from(sweep);
        let mut plan = Plan::new();
        gather(&flags, cursor, usize::from(self.blocks), most, &mut plan);
        gather(&flags, 0, cursor, most, &mut plan);
        plan
    }

    /// Notes what a cycle planned and wrote.
    pub fn close(&mut self, cycle: u32, plan: &[u8], written: &BlockSet)
        requires { 0 < self.old.blocks }
        ensures { (blocks : ℕ) (cycles : List TransferCycle) (list : List ℕ) → ((b : ℕ) → b < 256 →
            has written.now b ≡ has list b) →
            SweepsFor blocks cycle cycles self.old →
            SweepsFor blocks (cycle + 1) (record { planned = plan.now; written = list } ∷ cycles) self.new }
    {
        note_planned(&mut self.planned, plan, cycle);
        note_written(&mut self.written, written, cycle);
        self.cursor = next_start(plan, self.cursor, self.blocks);
    }
}
