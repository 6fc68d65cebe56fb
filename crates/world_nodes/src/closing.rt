//! The close of a cycle.
ghost use Rattle.std.specs.Prelude.{◌≡◌, length, map, All, option_map};
ghost use Rattle.channel_node.specs.Closing.{closed_value};
ghost use Rattle.guards_world.specs.NodeLists.{HasDecision, closed_in, closing_of, first_closing};

use crate::nodes::Nodes;
use channel_node::Node;
use control_state::Closed;
use guards_base::Mode;
use mission_type::Mission;

fn close_one(node: &mut Node, mission: &Mission, cycle: u32) -> Option<Closed>
    requires { HasDecision mission.now node.old }
    ensures state { node.new ≡ closed_in mission.now cycle node.old }
    ensures answer { option_map closed_value result ≡ closing_of mission.now cycle node.old.state }
{
    match node.mode() {
        Mode::Up => Some(node.close_cycle(mission, cycle)),
        Mode::Down | Mode::Waiting | Mode::Joining => None,
    }
}

fn close_each(nodes: &mut [Node], mission: &Mission, cycle: u32) -> Option<Closed>
    requires { All (HasDecision mission.now) nodes.old }
    ensures state { nodes.new ≡ map (closed_in mission.now cycle) nodes.old }
    ensures answer { option_map closed_value result ≡ first_closing mission.now cycle nodes.old }
{
    let Some((node, rest)) = nodes.split_first_mut() else {
        return None;
    };
    let first = close_one(node, mission, cycle);
    let later = close_each(rest, mission, cycle);
    match first {
        Some(closed) => Some(closed),
        None => later,
    }
}

impl Nodes {
    /// The running nodes, which have decided, close the cycle. Answers what the first of them answers.
    pub fn close(&mut self, mission: &Mission, cycle: u32) -> Option<Closed>
        requires { All (HasDecision mission.now) self.old }
        ensures state { self.new ≡ map (closed_in mission.now cycle) self.old }
        ensures answer { option_map closed_value result ≡ first_closing mission.now cycle self.old }
        ensures count { length self.new ≡ length self.old }
    {
        close_each(self.list.as_mut_slice(), mission, cycle)
    }
}
