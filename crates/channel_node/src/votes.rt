//! The vote.
ghost use Rattle.std.specs.Prelude.{◌≡◌, length, Some};
ghost use Rattle.guards_model.specs.Records.{shown_line};
ghost use Rattle.guards_nodes.specs.NodeStates.{running, RunningValue, DecidedValue};
ghost use Rattle.guards_nodes.specs.NodeSteps.{after_votes, line_by};
ghost use Rattle.guards_nodes.specs.NodeCalls.{changed};
ghost use Rattle.guards_nodes.specs.WholeLines.{whole_line};
ghost use Rattle.channel_node.specs.Answers.{HasDecidedState};

use crate::node::{Node, State};
use guards_base::{Ballot, ChannelLine};
use mission_type::Mission;

impl Node {
    /// Votes on the ballots of a cycle, of which the place of this channel is not looked at; keeps whom it accuses by
    /// them for its next source word; and answers the channel's line of the report.
    pub fn take_votes(&mut self, mission: &Mission, ballots: &[Option<Ballot>; 7]) -> ChannelLine
        requires rules { mission.now.rules ≡ self.old.rules }
        requires decided { HasDecidedState self.old.state }
        ensures state { self.new ≡ changed (after_votes self.old.channel mission.now.outputs ballots.now) self.old }
        ensures line { (r : RunningValue) (d : DecidedValue) → self.old.state ≡ running r → r.decided ≡ Some d →
            result ≡ whole_line self.old.channel mission.now.outputs r d ballots.now }
    {
        let me = self.channel;
        match &mut self.state {
            State::Up(running) => running.take_votes(me, mission, ballots),
            State::Down | State::Waiting | State::Joining(_) => unreachable!(),
        }
    }
}
