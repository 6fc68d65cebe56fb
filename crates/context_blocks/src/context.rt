//! A context and its blocks.

ghost use Rattle.std.specs.Prelude.{◌≡◌, ◌<◌, ◌≤◌, length, slice_get, slice_set, Some, IfOk};
ghost use Rattle.guards_model.specs.Contexts.{zeroed};

use std::alloc::{AllocError, Global};
use std::marker::Model;

/// Eight words of a context.
#[derive(Clone, Copy, Debug, PartialEq, Eq)]
pub struct Block {
    pub words: [i64; 8],
}

/// The 1 to 256 blocks of a channel. Contracts see the list of their words.
#[derive(Drop)]
pub struct Context {
    blocks: Vec<[i64; 8]>,
}

impl Model for Context {
    ghost use Rattle.std.specs.Prelude.{length, ◌≤◌};
    ghost use Rattle.guards_model.specs.Contexts.{ContextValue};

    ghost Value = { ContextValue };

    ghost view = { λ c. c.blocks.items };

    ghost invariant = { λ c. (1 ≤ length c.blocks.items) × (length c.blocks.items ≤ 256) };
}

impl Context {
    /// A context of so many blocks, all of whose words are 0.
    pub fn zeroed(alloc: Global, blocks: u16) -> Result<Context, AllocError>
        requires some { 1 ≤ blocks }
        requires few { blocks ≤ 256 }
        ensures { IfOk result (λ context. context ≡ zeroed blocks) }
    {
        Ok(Context {
            blocks: vec![in alloc; [0; 8]; blocks as usize]?,
        })
    }

    /// The number of blocks.
    pub fn len(&self) -> u16
        ensures value { result ≡ length self.now }
        ensures some { 1 ≤ result }
        ensures few { result ≤ 256 }
    {
        self.blocks.len() as u16
    }

    /// A copy of a block, which the context has.
    pub fn get(&self, block: u8) -> Block
        requires { block < length self.now }
        ensures { slice_get self.now block ≡ Some result.words }
    {
        Block {
            words: self.blocks[block as usize],
        }
    }

    /// Replaces one block.
    pub fn set_block(&mut self, block: u8, value: Block)
        requires { block < length self.old }
        ensures { self.new ≡ slice_set self.old block value.words }
    {
        let words = value.words;
        self.blocks[block as usize] = words;
    }

    /// An equal context of its own.
    pub fn copy(&self, alloc: Global) -> Result<Context, AllocError>
        ensures { IfOk result (λ context. context ≡ self.now) }
    {
        Ok(Context {
            blocks: Vec::from_slice(alloc, self.blocks.as_slice())?,
        })
    }

    /// Takes over all blocks of another context.
    pub fn copy_from(&mut self, other: &Context)
        requires { length self.old ≡ length other.now }
        ensures { self.new ≡ other.now }
    {
        self.blocks.copy_from_slice(other.blocks.as_slice());
    }
}
