//! The end of a cycle.
ghost use Rattle.std.specs.Prelude.{◌≡◌, Some};
ghost use Rattle.guards_nodes.specs.NodeCalls.{DoesClose};
ghost use Rattle.channel_node.specs.Closing.{closed_value};
ghost use Rattle.channel_node.specs.Answers.{HasDecidedState};

use crate::node::{Node, State};
use control_state::Closed;
use mission_type::Mission;

impl Node {
    /// Closes a cycle: the control is that of the next cycle, and what was heard is for its source word.
    pub fn close_cycle(&mut self, mission: &Mission, cycle: u32) -> Closed
        requires rules { mission.now.rules ≡ self.old.rules }
        requires decided { HasDecidedState self.old.state }
        ensures { DoesClose mission.now cycle self.old self.new (closed_value result) }
    {
        let written = mission.table().distinct_blocks(cycle);
        match &mut self.state {
            State::Up(running) => running.close_cycle(mission.rules(), &written),
            State::Down | State::Waiting | State::Joining(_) => unreachable!(),
        }
    }
}
