//! What a joining node takes.
ghost use Rattle.std.specs.Prelude.{◌≡◌, true, is_some};
ghost use Rattle.std.specs.List.{list_all};
ghost use Rattle.guards_model.specs.Frames.{counts_in_range};
ghost use Rattle.guards_model.specs.Replicas.{final_taken};
ghost use Rattle.guards_nodes.specs.NodeStates.{returning, JoinerValue};
ghost use Rattle.guards_nodes.specs.NodeSteps.{after_sweep_frames, after_final_frames};
ghost use Rattle.guards_nodes.specs.NodeCalls.{rejoined};

use crate::node::{Node, State};
use icn_frames::{Finals, Sweeps};

impl Node {
    /// Takes the sweep frames of a cycle that count, where it joins.
    pub fn take_sweep(&mut self, cycle: u32, frames: &Sweeps)
        ensures { self.new ≡ rejoined (after_sweep_frames self.old.rules.blocks cycle frames.now.items) self.old }
    {
        let State::Joining(joining) = &mut self.state else {
            return;
        };
        joining.take_sweep(cycle, frames);
    }

    /// Takes the content of the final frames that count, where it joins, most of them have it, and it is the replica's.
    /// True exactly where it took one.
    pub fn take_final(&mut self, frames: &Finals) -> bool
        requires { list_all (λ content. counts_in_range content.control.counts) frames.now.items ≡ true }
        ensures state { self.new ≡ rejoined (after_final_frames frames.now.items) self.old }
        ensures taken { (j : JoinerValue) → self.old.state ≡ returning j →
            result ≡ is_some (final_taken frames.now.items j.replica) }
    {
        let State::Joining(joining) = &mut self.state else {
            return false;
        };
        joining.take_final(frames)
    }
}
