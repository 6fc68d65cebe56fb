//! The node and what it lends.
ghost use Rattle.std.specs.Prelude.{◌≡◌, ◌<◌, IfOk, option_map};
ghost use Rattle.std.specs.Option.{option_copied};
ghost use Rattle.guards_nodes.specs.NodeStates.{running_or_none, joiner_or_none};
ghost use Rattle.guards_nodes.specs.NodeCalls.{first_node};
ghost use Rattle.channel_node.specs.Answers.{mode_of_state};

use crate::joiner::Joining;
use crate::running::Running;
use context_blocks::Context;
use control_state::Control;
use guards_base::{Chan, Mode, Rules};
use join_vote::Replica;
use mission_type::Mission;
use std::alloc::{AllocError, Global};
use std::marker::Model;

/// Where a channel stands.
#[derive(Drop)]
pub enum State {
    /// It works.
    Up(Running),
    /// It crashed.
    Down,
    /// It was switched off, and waits.
    Waiting,
    /// It asks to be restored.
    Joining(Joining),
}

/// A channel's node, with the rules of its mission.
#[derive(Drop)]
pub struct Node {
    pub(crate) channel: Chan,
    pub(crate) rules: Rules,
    pub(crate) state: State,
}

impl Model for Node {
    ghost use Rattle.guards_nodes.specs.NodeStates.{NodeValue};

    ghost Value = { NodeValue };

    ghost use Rattle.channel_node.specs.Views.{state_value};
    ghost use Rattle.channel_node.specs.Sound.{IsNodeInRange};

    ghost view = { λ n. record { channel = n.channel; rules = n.rules; state = state_value n.state } };

    ghost invariant = { λ n. IsNodeInRange n.channel n.rules (state_value n.state) };
}

impl Node {
    /// The node of a channel before the first cycle: it runs with the mission's initial context.
    pub fn first(alloc: Global, channel: Chan, mission: &Mission) -> Result<Node, AllocError>
        requires { channel < mission.now.rules.channels }
        ensures { IfOk result (λ node. node ≡ first_node mission.now channel) }
    {
        mission.prove_mission();
        mission.prove_sizes();
        let context = mission.start(alloc)?;
        Ok(Node {
            channel,
            rules: *mission.rules(),
            state: State::Up(Running::first(mission.rules(), context)),
        })
    }

    /// Its channel.
    pub fn channel(&self) -> Chan
        ensures { result ≡ self.now.channel }
    {
        self.channel
    }

    /// Its mode.
    pub fn mode(&self) -> Mode
        ensures { result ≡ mode_of_state self.now.state }
    {
        match &self.state {
            State::Up(_) => Mode::Up,
            State::Down => Mode::Down,
            State::Waiting => Mode::Waiting,
            State::Joining(_) => Mode::Joining,
        }
    }

    /// Lends the context, where it runs.
    pub fn context(&self) -> Option<&Context>
        ensures { option_copied result ≡ option_map (λ r. r.context) (running_or_none self.now.state) }
    {
        match &self.state {
            State::Up(running) => Some(running.context()),
            State::Down | State::Waiting | State::Joining(_) => None,
        }
    }

    /// Lends the control, where it runs.
    pub fn control(&self) -> Option<&Control>
        ensures { option_copied result ≡ option_map (λ r. r.control) (running_or_none self.now.state) }
    {
        match &self.state {
            State::Up(running) => Some(running.control()),
            State::Down | State::Waiting | State::Joining(_) => None,
        }
    }

    /// Lends the replica, where it joins.
    pub fn replica(&self) -> Option<&Replica>
        ensures { option_copied result ≡ option_map (λ j. j.replica) (joiner_or_none self.now.state) }
    {
        match &self.state {
            State::Joining(joining) => Some(joining.replica()),
            State::Up(_) | State::Down | State::Waiting => None,
        }
    }
}
