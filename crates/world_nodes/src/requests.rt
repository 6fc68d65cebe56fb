//! The request slot.
ghost use Rattle.std.specs.Prelude.{◌≡◌, length, map};
ghost use Rattle.guards_model.specs.Channels.{every_channel};
ghost use Rattle.guards_model.specs.Network.{have_of};
ghost use Rattle.guards_nodes.specs.NodeCalls.{changed};
ghost use Rattle.guards_world.specs.SlotSteps.{heard_if, after_requests};
ghost use Rattle.guards_world.specs.NodeLists.{with_requests};

use crate::arrived::Arrived;
use crate::channels::every_channel;
use crate::nodes::Nodes;
use channel_node::Node;
use guards_base::Chan;
use icn_frames::Body;

fn hear_one<A: Arrived>(node: &mut Node, arrived: &A, from: Chan)
    ensures { node.new ≡ changed (heard_if (have_of (A.got arrived.now from node.old.channel)) from) node.old }
{
    if let Some(Body::Request(have)) = arrived.body(from, node.channel().index()) {
        node.hear(from, *have);
    }
}

// The requests of these channels, in order.
fn hear_from<A: Arrived>(node: &mut Node, arrived: &A, channels: &[Chan])
    ensures { node.new ≡ changed (after_requests (λ j. have_of (A.got arrived.now j node.old.channel)) channels.now)
        node.old }
{
    let Some((from, rest)) = channels.split_first() else {
        return;
    };
    hear_one(node, arrived, *from);
    hear_from(node, arrived, rest);
}

fn hear_each<A: Arrived>(nodes: &mut [Node], arrived: &A, channels: &[Chan])
    requires { channels.now ≡ every_channel }
    ensures { nodes.new ≡ map (with_requests (A.got arrived.now)) nodes.old }
{
    if let Some((node, rest)) = nodes.split_first_mut() {
        hear_from(node, arrived, channels);
        hear_each(rest, arrived, channels);
    }
}

impl Nodes {
    /// The running nodes hear the requests that arrived.
    pub fn hear<A: Arrived>(&mut self, arrived: &A)
        ensures state { self.new ≡ map (with_requests (A.got arrived.now)) self.old }
        ensures count { length self.new ≡ length self.old }
    {
        hear_each(self.list.as_mut_slice(), arrived, &every_channel());
    }
}
