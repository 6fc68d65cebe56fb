//! The copy of the context that a returning channel fills from the frames of the others.
ghost use Rattle.std.specs.Prelude.{◌≡◌, ◌≤◌, true, length, map, slice_set, option_map, IfOk};
ghost use Rattle.std.specs.List.{list_all};
ghost use Rattle.std.specs.Option.{option_copied};
ghost use Rattle.guards_model.specs.Channels.{numbers_below};
ghost use Rattle.guards_model.specs.Contexts.{zeroed};
ghost use Rattle.guards_model.specs.Controls.{control_of_word};
ghost use Rattle.guards_model.specs.Frames.{counts_in_range};
ghost use Rattle.guards_model.specs.Replicas.{empty_replica, voted_block, after_sweep, with_copies, final_taken};
ghost use Rattle.join_vote.specs.Finals.{after_final};

use crate::finals::most_content;
use crate::sweeps::{most_start, most_words};
use context_blocks::{Block, Context};
use control_state::Control;
use guards_base::Chan;
use icn_frames::{BlockCopy, FinalBody, Finals, SweepBody, Sweeps};
use std::alloc::{AllocError, Global};
use std::marker::Model;

/// The blocks that were taken so far, and the start of the transfer that they come from.
#[derive(Drop)]
pub struct Replica {
    have: Option<u32>,
    blocks: Context,
}

impl Model for Replica {
    ghost use Rattle.guards_model.specs.Replicas.{ReplicaValue};

    ghost Value = { ReplicaValue };

    ghost view = { λ r. record { have = r.have; blocks = r.blocks } };
}

/// Makes each block zero.
fn clear(blocks: &mut Context)
    ensures { blocks.new ≡ zeroed (length blocks.old) }
{
    for block in 0..blocks.len() {
        blocks.set_block(block as u8, Block { words: [0; 8] });
    }
}

/// Takes each block that strictly more than half of the frames have alike with this start.
fn fill(blocks: &mut Context, start: u32, frames: &[SweepBody])
    ensures { blocks.new ≡ map (voted_block start frames.now blocks.old) (numbers_below (length blocks.old)) }
{
    for block in 0..blocks.len() {
        if let Some(words) = most_words(frames, frames, start, block as u8) {
            blocks.set_block(block as u8, words);
        }
    }
}

/// Takes the copies, those of blocks that there are.
fn put_copies(blocks: &mut Context, copies: &[BlockCopy])
    ensures { blocks.new ≡ with_copies copies.now blocks.old }
{
    match copies {
        [] => {}
        [copy, rest @ ..] => {
            put_copy(blocks, copy);
            put_copies(blocks, rest);
        }
    }
}

/// Takes a copy, if the block is there.
fn put_copy(blocks: &mut Context, copy: &BlockCopy)
    ensures { blocks.new ≡ slice_set blocks.old copy.now.block copy.now.words }
{
    if u16::from(copy.block) < blocks.len() {
        blocks.set_block(copy.block, copy.words);
    }
}

impl Replica {
    /// The replica of a channel that has nothing yet: so many blocks, all of whose words are 0. Which frames count at
    /// the channel is decided before they are handed in, so nothing is kept of `_me`.
    pub fn empty(alloc: Global, _me: Chan, blocks: u16) -> Result<Replica, AllocError>
        requires some { 1 ≤ blocks }
        requires few { blocks ≤ 256 }
        ensures { IfOk result (λ replica. replica ≡ empty_replica blocks) }
    {
        Ok(Replica {
            have: None,
            blocks: Context::zeroed(alloc, blocks)?,
        })
    }

    /// The start of the transfer whose copies it has. It is None exactly where no start was taken yet.
    pub fn have(&self) -> Option<u32>
        ensures { result ≡ self.now.have }
    {
        self.have
    }

    /// Takes what strictly more than half of the sweep frames that count in a cycle say: their start, and each block
    /// whose words they have with this start. It takes no memory.
    pub fn take_sweep(&mut self, cycle: u32, frames: &Sweeps)
        ensures { self.new ≡ after_sweep (length self.old.blocks) cycle frames.now.items self.old }
    {
        let frames = frames.as_slice();
        if let Some(start) = most_start(frames) {
            if start == cycle {
                self.have = Some(cycle);
                clear(&mut self.blocks);
            }
            if self.have == Some(start) {
                fill(&mut self.blocks, start, frames);
            }
        }
    }

    /// Takes the blocks of the content that strictly more than half of the frames have, where its start is the own one.
    fn take_content<'a>(&mut self, frames: &'a [FinalBody]) -> Option<&'a FinalBody>
        ensures content { option_copied result ≡ final_taken frames.now self.old }
        ensures replica { self.new ≡ after_final frames.now self.old }
    {
        let content = most_content(frames)?;
        if self.have == Some(content.start) {
            put_copies(&mut self.blocks, content.blocks.as_slice());
            Some(content)
        } else {
            None
        }
    }

    /// Takes the whole content that strictly more than half of the final frames that count have, where its start is the
    /// own one, and answers the control that it names. Else the answer is None, and the replica is as it was. It takes
    /// no memory. Every frame that was read has counts within their cap.
    pub fn take_final(&mut self, frames: &Finals) -> Option<Control>
        requires capped { list_all (λ content. counts_in_range content.control.counts) frames.now.items ≡ true }
        ensures control { result ≡ option_map (λ content. control_of_word content.control)
            (final_taken frames.now.items self.old) }
        ensures replica { self.new ≡ after_final frames.now.items self.old }
    {
        match self.take_content(frames.as_slice()) {
            Some(content) => Some(Control::from_word(&content.control)),
            None => None,
        }
    }

    /// The context of the replica's blocks.
    pub fn into_context(self) -> Context
        ensures { result ≡ self.blocks }
    {
        self.blocks
    }
}
