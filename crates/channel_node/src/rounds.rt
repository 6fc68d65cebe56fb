//! The exchange of a cycle, and the decision.
ghost use Rattle.std.specs.Prelude.{◌≡◌, ◌≢◌, ◌<◌, ◌≤◌, ◌+◌, take, IsTrue, Some, length, OnOk, OnErr};
ghost use Rattle.std.specs.Option.{option_copied};
ghost use Rattle.guards_base.specs.Padding.{IsPadded};
ghost use Rattle.guards_model.specs.Channels.{has, tolerated_faults};
ghost use Rattle.guards_model.specs.Missions.{sensor};
ghost use Rattle.guards_nodes.specs.NodeStates.{running, RunningValue, ExchangeTreeValue};
ghost use Rattle.guards_nodes.specs.NodeSteps.{Received, tree_for, agreed_from, after_request, after_source, IsDecision};
ghost use Rattle.guards_nodes.specs.NodeCalls.{changed, IsRunning, HasReceived, HasDecided};
ghost use Rattle.oral_messages.specs.Received.{IsExchangeInRange, items_of_frame};
ghost use Rattle.channel_node.specs.Answers.{HasTree};

use crate::node::{Node, State};
use control_state::Decision;
use guards_base::Chan;
use icn_frames::Exchange;
use mission_type::Mission;
use std::alloc::{AllocError, Global};

// The sensor words of a channel in a cycle, and 0 past the width.
fn sensor_words(mission: &Mission, me: Chan, cycle: u32) -> [i64; 4]
    requires { me < mission.now.rules.channels }
    ensures padded { IsPadded 4 mission.now.width result }
    ensures used { take mission.now.width result ≡ sensor mission.now me cycle }
{
    mission.prove_mission();
    mission.prove_sizes();
    mission.sensor(me, cycle)
}

impl Node {
    /// Keeps the code of a request for the source word of the next cycle, where it runs.
    pub fn hear(&mut self, from: Chan, have: Option<u32>)
        ensures { self.new ≡ changed (after_request from have) self.old }
    {
        if let State::Up(running) = &mut self.state {
            running.hear(from, have);
        }
    }

    /// Forms the source word of a cycle and begins the exchange, where it runs. For want of memory it stays as it is.
    pub fn source(&mut self, alloc: Global, mission: &Mission, cycle: u32) -> Result<(), AllocError>
        requires rules { mission.now.rules ≡ self.old.rules }
        requires mine { (r : RunningValue) → self.old.state ≡ running r →
            IsTrue (has r.control.active self.old.channel) }
        requires some { (r : RunningValue) → self.old.state ≡ running r → 3 ≤ length r.control.active }
        ensures state { OnOk result (self.new ≡
            changed (after_source self.old.channel mission.now.width (sensor mission.now self.old.channel cycle))
            self.old) }
        ensures refused { OnErr result (self.new ≡ self.old) }
    {
        let me = self.channel;
        let words = sensor_words(mission, me, cycle);
        let State::Up(running) = &mut self.state else {
            return Ok(());
        };
        running.source(alloc, me, mission.width(), words)
    }

    /// Keeps what was received in a round from another active channel, where it runs.
    pub fn receive(&mut self, round: u8, from: Chan, frame: Option<&Exchange>)
        requires member { (r : RunningValue) (t : ExchangeTreeValue) → self.old.state ≡ running r → r.tree ≡ Some t →
            IsTrue (has t.active from) }
        requires another { (r : RunningValue) (t : ExchangeTreeValue) → self.old.state ≡ running r → r.tree ≡ Some t →
            from ≢ t.me }
        requires low { 1 ≤ round }
        requires high { (r : RunningValue) (t : ExchangeTreeValue) → self.old.state ≡ running r → r.tree ≡ Some t →
            round ≤ tolerated_faults t.active + 1 }
        requires ranges { IsExchangeInRange (option_copied frame) round from }
        ensures { HasReceived round from (items_of_frame (option_copied frame.entry)) self.old self.new }
    {
        let State::Up(running) = &mut self.state else {
            return;
        };
        running.receive(round, from, frame);
    }

    /// Settles the words of the cycle by what was received, and decides.
    pub fn decide(&mut self, mission: &Mission, cycle: u32) -> Decision
        requires rules { mission.now.rules ≡ self.old.rules }
        requires tree { HasTree self.old.state }
        ensures state { HasDecided mission.now cycle self.old self.new }
        ensures answer { (received : Received) (r : RunningValue) (t : ExchangeTreeValue) →
            self.old.state ≡ running r → r.tree ≡ Some t → t ≡ tree_for received t →
            IsDecision mission.now.rules cycle r.control (agreed_from received t)
            result.judged result.removed result.dropped result.started result.plan }
    {
        match &mut self.state {
            State::Up(running) => running.decide(mission.rules(), cycle),
            State::Down | State::Waiting | State::Joining(_) => unreachable!(),
        }
    }
}
