//! A joining channel.
ghost use Rattle.std.specs.Prelude.{◌≡◌, ◌≤◌, true, length, Some, IfOk, is_some};
ghost use Rattle.std.specs.List.{list_all};
ghost use Rattle.guards_model.specs.Frames.{counts_in_range};
ghost use Rattle.guards_model.specs.Replicas.{final_taken};
ghost use Rattle.guards_model.specs.Controls.{ControlValue};
ghost use Rattle.guards_nodes.specs.NodeSteps.{new_joiner, after_sweep_frames, after_final_frames, risen};

use crate::running::Running;
use control_state::Control;
use guards_base::{Chan, ChanSet};
use icn_frames::{Finals, Sweeps};
use join_vote::Replica;
use std::alloc::{AllocError, Global};
use std::marker::Model;

/// A joining channel has its replica, and the control of the final content where it took one.
#[derive(Drop)]
pub struct Joining {
    replica: Replica,
    taken: Option<Control>,
}

impl Model for Joining {
    ghost use Rattle.std.specs.Prelude.{◌≡◌, true};
    ghost use Rattle.guards_nodes.specs.NodeStates.{JoinerValue};
    ghost use Rattle.channel_node.specs.Fits.{is_idle};

    ghost Value = { JoinerValue };

    ghost view = { λ j. record { replica = j.replica; taken = j.taken } };

    ghost invariant = { λ j. is_idle j.taken ≡ true };
}

impl Joining {
    /// Begins with an empty replica of so many blocks.
    pub fn begin(alloc: Global, me: Chan, blocks: u16) -> Result<Joining, AllocError>
        requires some { 1 ≤ blocks }
        requires few { blocks ≤ 256 }
        ensures { IfOk result (λ joining. joining ≡ new_joiner blocks) }
    {
        Ok(Joining {
            replica: Replica::empty(alloc, me, blocks)?,
            taken: None,
        })
    }

    /// Lends the replica.
    pub fn replica(&self) -> &Replica
        ensures { result.now ≡ self.now.replica }
    {
        &self.replica
    }

    /// Takes the sweep frames of a cycle that count.
    pub fn take_sweep(&mut self, cycle: u32, frames: &Sweeps)
        ensures state { self.new ≡ after_sweep_frames (length self.old.replica.blocks) cycle frames.now.items self.old }
        ensures blocks { length self.new.replica.blocks ≡ length self.old.replica.blocks }
    {
        self.replica.take_sweep(cycle, frames);
    }

    /// Takes the content of the final frames that count, where most of them have it and it is the replica's.
    #[tactic(auto, unfolding(guards_model::specs::Controls::control_of_word))]
    pub fn take_final(&mut self, frames: &Finals) -> bool
        requires { list_all (λ content. counts_in_range content.control.counts) frames.now.items ≡ true }
        ensures state { self.new ≡ after_final_frames frames.now.items self.old }
        ensures taken { result ≡ is_some (final_taken frames.now.items self.old.replica) }
        ensures blocks { length self.new.replica.blocks ≡ length self.old.replica.blocks }
    {
        match self.replica.take_final(frames) {
            None => false,
            Some(control) => {
                self.taken = Some(control);
                true
            }
        }
    }

    /// Runs with the context and the control that were taken.
    #[tactic(auto, unfolding(guards_model::specs::Channels::by_channel))]
    pub fn rise(self) -> Running
        requires { (k : ControlValue) × (self.taken ≡ Some k) }
        ensures { (k : ControlValue) → self.taken ≡ Some k → result ≡ risen self k }
    {
        let Joining { replica, taken } = self;
        Running {
            context: replica.into_context(),
            control: taken.unwrap(),
            accused: ChanSet::empty(),
            heard: [0; 7],
            hearing: [0; 7],
            tree: None,
            decided: None,
            worked: None,
            closed: None,
        }
    }
}
