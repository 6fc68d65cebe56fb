//! The crashes of a slot.
ghost use Rattle.std.specs.Prelude.{◌≡◌, length, map};
ghost use Rattle.guards_world.specs.NodeLists.{fallen_if};

use crate::nodes::Nodes;
use channel_node::Node;
use guards_base::ChanSet;

fn crash_if(node: &mut Node, down: ChanSet)
    ensures { node.new ≡ fallen_if down node.old }
{
    if down.has(node.channel()) {
        node.crash();
    }
}

fn crash_each(nodes: &mut [Node], down: ChanSet)
    ensures { nodes.new ≡ map (fallen_if down) nodes.old }
{
    if let Some((node, rest)) = nodes.split_first_mut() {
        crash_if(node, down);
        crash_each(rest, down);
    }
}

impl Nodes {
    /// The nodes of these channels crash.
    pub fn crash(&mut self, down: ChanSet)
        ensures state { self.new ≡ map (fallen_if down) self.old }
        ensures count { length self.new ≡ length self.old }
    {
        crash_each(self.list.as_mut_slice(), down);
    }
}
