//! A list of blocks of fixed room.
ghost use Rattle.std.specs.Prelude.{◌≡◌, ◌<◌, ◌≤◌, [], ◌∷◌, ◌++◌, length, slice_get, Some};

use arrayvec::ArrayVec;
use std::marker::Model;

/// The most blocks that a plan has.
pub const MOST: usize = 64;

/// A list of at most 64 block numbers, which contracts see as the list. It takes no memory.
#[derive(Drop)]
pub struct Plan {
    blocks: ArrayVec<u8, 64>,
}

impl Model for Plan {
    ghost use Rattle.std.specs.Prelude.{List, ℕ, ◌≤◌, length};

    ghost Value = { List ℕ };

    ghost view = { λ plan. plan.blocks.items };

    ghost invariant = { λ plan. length plan.blocks.items ≤ 64 };
}

impl Plan {
    /// The empty plan.
    pub fn new() -> Plan
        ensures { result ≡ [] }
    {
        Plan {
            blocks: ArrayVec::new(),
        }
    }

    /// The number of blocks, at most 64.
    pub fn len(&self) -> usize
        ensures value { result ≡ length self.now }
        ensures room { result ≤ 64 }
    {
        self.blocks.len()
    }

    /// The block at a place.
    pub fn get(&self, at: usize) -> u8
        requires { at < length self.now }
        ensures { slice_get self.now at ≡ Some result }
    {
        self.blocks.as_slice()[at]
    }

    /// Lends the block numbers, in the order of the plan.
    pub fn as_slice(&self) -> &[u8]
        ensures value { result.now ≡ self.now }
        ensures room { length result.now ≤ 64 }
    {
        self.blocks.as_slice()
    }

    /// Appends a block.
    pub(crate) fn push(&mut self, block: u8)
        requires { length self.old < 64 }
        ensures { self.new ≡ self.old ++ block ∷ [] }
    {
        self.blocks.push(block);
    }
}
