//! The changes of mode.
ghost use Rattle.std.specs.Prelude.{◌≡◌, ◌<◌, OnOk, OnErr, Some};
ghost use Rattle.guards_model.specs.Controls.{ControlValue};
ghost use Rattle.guards_nodes.specs.NodeStates.{running, fallen, resting, returning, JoinerValue};
ghost use Rattle.guards_nodes.specs.NodeSteps.{with_damage, new_joiner, risen};
ghost use Rattle.guards_nodes.specs.NodeCalls.{in_state, changed};

use crate::joiner::Joining;
use crate::node::{Node, State};
use std::alloc::{AllocError, Global};
use std::mem;

impl Node {
    /// It crashes: it loses all that it holds.
    pub fn crash(&mut self)
        ensures { self.new ≡ in_state fallen self.old }
    {
        self.state = State::Down;
    }

    /// It is switched off: it waits, and loses all that it holds.
    pub fn reset(&mut self)
        ensures { self.new ≡ in_state resting self.old }
    {
        self.state = State::Waiting;
    }

    /// It begins to join, with an empty replica of so many blocks. For want of memory it stays as it is.
    pub fn restart(&mut self, alloc: Global, blocks: u16) -> Result<(), AllocError>
        requires { blocks ≡ self.old.rules.blocks }
        ensures state { OnOk result (self.new ≡ in_state (returning (new_joiner blocks)) self.old) }
        ensures refused { OnErr result (self.new ≡ self.old) }
    {
        let joining = Joining::begin(alloc, self.channel, blocks)?;
        self.state = State::Joining(joining);
        Ok(())
    }

    /// One word of its context is set, where it runs.
    pub fn damage(&mut self, block: u8, word: u8, value: i64)
        requires block { block < self.old.rules.blocks }
        requires word { word < 8 }
        ensures { self.new ≡ changed (with_damage block word value) self.old }
    {
        if let State::Up(running) = &mut self.state {
            running.damage(block, word, value);
        }
    }

    /// It runs with the context and the control that it took.
    pub fn rise(&mut self)
        requires { (j : JoinerValue) × (k : ControlValue) × (self.old.state ≡ returning j) × (j.taken ≡ Some k) }
        ensures { (j : JoinerValue) (k : ControlValue) → self.old.state ≡ returning j → j.taken ≡ Some k →
            self.new ≡ in_state (running (risen j k)) self.old }
    {
        match mem::replace(&mut self.state, State::Down) {
            State::Joining(joining) => self.state = State::Up(joining.rise()),
            other => self.state = other,
        }
    }
}
