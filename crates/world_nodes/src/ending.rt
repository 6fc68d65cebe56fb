//! The end of a cycle.
ghost use Rattle.std.specs.Prelude.{◌≡◌, length, map, All};
ghost use Rattle.guards_world.specs.NodeLists.{TookContent, ended_on};

use crate::nodes::Nodes;
use channel_node::Node;
use guards_base::{ChanSet, Mode};

fn end_one(node: &mut Node, on: ChanSet, taken: ChanSet)
    requires { TookContent taken node.old }
    ensures { node.new ≡ ended_on on node.old }
{
    let channel = node.channel();
    match node.mode() {
        Mode::Up if !on.has(channel) => node.reset(),
        Mode::Joining if taken.has(channel) => node.rise(),
        _ => {}
    }
}

fn end_each(nodes: &mut [Node], on: ChanSet, taken: ChanSet)
    requires { All (TookContent taken) nodes.old }
    ensures { nodes.new ≡ map (ended_on on) nodes.old }
{
    if let Some((node, rest)) = nodes.split_first_mut() {
        end_one(node, on, taken);
        end_each(rest, on, taken);
    }
}

impl Nodes {
    /// Ends a cycle: the running nodes that are switched off wait, and those that took a final content, which are
    /// these, run with it.
    pub fn end(&mut self, on: ChanSet, taken: ChanSet)
        requires { All (TookContent taken) self.old }
        ensures state { self.new ≡ map (ended_on on) self.old }
        ensures count { length self.new ≡ length self.old }
    {
        end_each(self.list.as_mut_slice(), on, taken);
    }
}
