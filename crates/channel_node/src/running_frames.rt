//! What the channel owes in the slots of a cycle.
ghost use Rattle.std.specs.Prelude.{◌≡◌, ◌<◌, map, All, length, Some, IfOk, option_map, option_and_then};
ghost use Rattle.guards_model.specs.Frames.{exchange_body, sweep_body, final_body};
ghost use Rattle.guards_nodes.specs.NodeSteps.{Received, TreeStandsFor};
ghost use Rattle.guards_nodes.specs.NodeFrames.{exchange_in, sweep_to, final_to};
ghost use Rattle.guards_runs.specs.Due.{copy_from};

use crate::running::Running;
use context_blocks::Context;
use guards_base::{Chan, Rules};
use icn_frames::{BlockCopy, Copies, Exchange, FinalBody, SweepBody};
use std::alloc::{AllocError, Global};

// A block of a context.
fn copy(context: &Context, block: u8) -> BlockCopy
    requires { block < length context.now }
    ensures { result ≡ copy_from context.now block }
{
    BlockCopy {
        block,
        words: context.get(block),
    }
}

// Some blocks of a context.
fn copies(alloc: Global, context: &Context, blocks: &[u8]) -> Result<Copies, AllocError>
    requires { All (λ b. b < length context.now) blocks.now }
    ensures { IfOk result (λ copies. copies.items ≡ map (copy_from context.now) blocks.now) }
{
    let mut list = Copies::new(alloc);
    for block in blocks {
        list.push(copy(context, *block))?;
    }
    Ok(list)
}

impl Running {
    /// What the channel tells in a round: none where there is no such round.
    pub fn exchange(&self, alloc: Global, round: u8) -> Result<Option<Exchange>, AllocError>
        ensures { (received : Received) → TreeStandsFor self.now.tree received →
            IfOk result (λ x. option_map (λ e. exchange_body e) x ≡
            option_and_then (exchange_in received round) self.now.tree) }
    {
        match &self.tree {
            None => Ok(None),
            Some(tree) => tree.exchange(alloc, round),
        }
    }

    /// The copies of this cycle, to a target of the transfer that runs.
    pub fn sweep(&self, alloc: Global, target: Chan) -> Result<Option<SweepBody>, AllocError>
        ensures { IfOk result (λ s. option_map (λ body. sweep_body body) s ≡
            sweep_to target self.now.control.sweeping self.now.worked) }
    {
        let Some(transfer) = &self.control.transfer else {
            return Ok(None);
        };
        let Some(worked) = &self.worked else {
            return Ok(None);
        };
        if !transfer.targets.has(target) {
            return Ok(None);
        }
        Ok(Some(SweepBody {
            target,
            start: transfer.start,
            blocks: Copies::from_slice(alloc, worked.copies.as_slice())?,
        }))
    }

    /// The blocks that remained and the control of the next cycle, to a channel that the closed cycle declared joined.
    pub fn last(
        &self,
        alloc: Global,
        rules: &Rules,
        target: Chan,
    ) -> Result<Option<FinalBody>, AllocError>
        ensures { IfOk result (λ f. option_map (λ body. final_body body) f ≡
            option_and_then (final_to rules.now target self.now) self.now.closed) }
    {
        let Some(closed) = &self.closed else {
            return Ok(None);
        };
        if !closed.joined.has(target) {
            return Ok(None);
        }
        Ok(Some(FinalBody {
            target,
            start: closed.start,
            blocks: copies(alloc, &self.context, closed.rest.as_slice())?,
            control: self.control.word(rules),
        }))
    }
}
