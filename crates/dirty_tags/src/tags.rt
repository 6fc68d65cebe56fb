//! The tags of a transfer.
ghost use Rattle.std.specs.Prelude.{◌≡◌, ◌<◌, ◌≤◌, ℕ, List, [], ◌∷◌, All, length};
ghost use Rattle.guards_model.specs.Channels.{has};
ghost use Rattle.guards_model.specs.Transfers.{TransferCycle, remains, remaining_blocks, planned_blocks};
ghost use Rattle.guards_model.specs.Tags.{StandFor, tags_of, tags_written, tags_noted, tags_closed, plan_by_tags};

use crate::Plan;
use crate::marks::{count, filled, gather, mark, mark_all, next_start, unmark};
use context_blocks::BlockSet;
use std::marker::Model;

/// Which blocks of a context remain, the block at which the next plan begins, and the blocks that were written in
/// the running cycle. Contracts see a record of these. No call takes memory.
#[derive(Drop)]
pub struct Tags {
    blocks: u16,
    cursor: u16,
    remaining: [bool; 256],
    written: [bool; 256],
}

impl Model for Tags {
    ghost use Rattle.std.specs.Prelude.{◌<◌, ◌≤◌};
    ghost use Rattle.guards_model.specs.Tags.{TagsValue};
    ghost use Rattle.dirty_tags.specs.Marks.{marked};
    ghost use Rattle.dirty_tags.specs.TagFields.{IsTagFields};

    ghost Value = { TagsValue };

    ghost view = { λ t. record {
      blocks = t.blocks;
      remaining = marked t.blocks t.remaining;
      cursor = t.cursor;
      written = marked t.blocks t.written;
    } };

    ghost invariant = { λ t. IsTagFields t.blocks t.cursor };
}

impl Tags {
    /// The tags at the start of a transfer: all blocks remain.
    pub fn all(blocks: u16) -> Tags
        requires some { 1 ≤ blocks }
        requires most { blocks ≤ 256 }
        ensures tags { result ≡ tags_of blocks [] [] }
        ensures blocks { result.blocks ≡ blocks }
    {
        Tags {
            blocks,
            cursor: 0,
            remaining: filled(true),
            written: filled(false),
        }
    }

    /// The plan of this cycle: the first `sweep` remaining blocks in cyclic order from the cursor.
    pub fn plan(&self, sweep: u8) -> Plan
        requires { sweep ≤ 64 }
        ensures tags { result ≡ plan_by_tags sweep self.now }
        ensures cycles { (cycles : List TransferCycle) (written : List ℕ) →
            StandFor self.now cycles written → result ≡ planned_blocks self.now.blocks sweep cycles }
        ensures below { All (λ b. b < self.now.blocks) result }
    {
        let cursor = usize::from(self.cursor);
        let blocks = usize::from(self.blocks);
        let mut plan = Plan::new();
        gather(
            &self.remaining,
            cursor,
            blocks,
            usize::from(sweep),
            &mut plan,
        );
        gather(&self.remaining, 0, cursor, usize::from(sweep), &mut plan);
        plan
    }

    /// Notes a write to a block in this cycle.
    pub fn wrote(&mut self, block: u8)
        requires { block < self.old.blocks }
        ensures tags { self.new ≡ tags_written block self.old }
        ensures cycles { (cycles : List TransferCycle) (written : List ℕ) →
            StandFor self.old cycles written → StandFor self.new cycles (block ∷ written) }
        ensures blocks { self.new.blocks ≡ self.old.blocks }
    {
        self.written[usize::from(block)] = true;
    }

    /// Notes writes to all blocks of a set in this cycle.
    pub fn wrote_all(&mut self, blocks: &BlockSet)
        ensures tags { self.new ≡ tags_noted blocks.now self.old }
        ensures cycles { (cycles : List TransferCycle) → StandFor self.old cycles [] →
            StandFor self.new cycles blocks.now }
        ensures blocks { self.new.blocks ≡ self.old.blocks }
    {
        mark_all(&mut self.written, blocks);
    }

    /// Closes a cycle with the plan that it had, and answers how many blocks remain.
    pub fn close_cycle(&mut self, plan: &Plan) -> u16
        ensures tags { self.new ≡ tags_closed plan.now self.old }
        ensures cycles { (cycles : List TransferCycle) (written : List ℕ) →
            StandFor self.old cycles written →
            StandFor self.new (record { planned = plan.now; written = written } ∷ cycles) [] }
        ensures remaining { result ≡ length self.new.remaining }
        ensures blocks { self.new.blocks ≡ self.old.blocks }
    {
        unmark(&mut self.remaining, plan.as_slice());
        mark(&mut self.remaining, &self.written);
        self.written = filled(false);
        self.cursor = next_start(plan.as_slice(), self.cursor, self.blocks);
        self.remaining()
    }

    /// Whether a block remained at the end of the last cycle.
    pub fn remains(&self, block: u8) -> bool
        requires { block < self.now.blocks }
        ensures tags { result ≡ has self.now.remaining block }
        ensures cycles { (cycles : List TransferCycle) (written : List ℕ) →
            StandFor self.now cycles written → result ≡ remains cycles block }
    {
        self.remaining[usize::from(block)]
    }

    /// How many blocks remained at the end of the last cycle.
    pub fn remaining(&self) -> u16
        ensures tags { result ≡ length self.now.remaining }
        ensures cycles { (cycles : List TransferCycle) (written : List ℕ) →
            StandFor self.now cycles written → result ≡ length (remaining_blocks self.now.blocks cycles) }
        ensures most { result ≤ self.now.blocks }
    {
        count(&self.remaining[..usize::from(self.blocks)])
    }

    /// The blocks that remained at the end of the last cycle, ascending.
    pub fn rest(&self) -> Plan
        requires { length self.now.remaining ≤ 64 }
        ensures tags { result ≡ self.now.remaining }
        ensures cycles { (cycles : List TransferCycle) (written : List ℕ) →
            StandFor self.now cycles written → result ≡ remaining_blocks self.now.blocks cycles }
        ensures below { All (λ b. b < self.now.blocks) result }
    {
        let mut plan = Plan::new();
        gather(&self.remaining, 0, usize::from(self.blocks), 64, &mut plan);
        plan
    }
}
