//! Sets of blocks.

ghost use Rattle.std.specs.Prelude.{◌≡◌, ◌≤◌, [], ◌∷◌, ◌||◌, ◌==◌, length};
ghost use Rattle.guards_model.specs.Channels.{has, without};
ghost use Rattle.context_blocks.specs.BlockSets.{blocks_where};

use std::marker::Model;

/// How many numbers a set can have.
const NUMBERS: usize = 256;

/// A set of the numbers 0 to 255, in fixed size. Contracts see the ascending list of its numbers.
#[derive(Drop)]
pub struct BlockSet {
    /// Whether each number is in the set.
    flags: [bool; NUMBERS],
}

impl Model for BlockSet {
    ghost use Rattle.std.specs.Prelude.{ℕ, List};
    ghost use Rattle.context_blocks.specs.BlockSets.{blocks_where, flag_at};

    ghost Value = { List ℕ };

    ghost view = { λ set. blocks_where (flag_at set.flags) };
}

impl BlockSet {
    /// The set without a number.
    pub fn empty() -> BlockSet
        ensures { result ≡ [] }
    {
        BlockSet {
            flags: [false; NUMBERS],
        }
    }

    /// Whether a block is in the set.
    pub fn has(&self, block: u8) -> bool
        ensures { result ≡ has self.now block }
    {
        self.flags[block as usize]
    }

    /// Adds a number, if it is not there.
    pub fn insert(&mut self, block: u8)
        ensures { self.new ≡ blocks_where (λ b. b == block || has self.old b) }
    {
        self.flags[block as usize] = true;
    }

    /// Takes a number out, if it is there.
    pub fn remove(&mut self, block: u8)
        ensures { self.new ≡ without self.old (block ∷ []) }
    {
        self.flags[block as usize] = false;
    }

    /// How many numbers the set has.
    pub fn count(&self) -> u16
        ensures { result ≡ length self.now }
    {
        self.flags.iter().filter(|flag| **flag).count() as u16
    }
}
