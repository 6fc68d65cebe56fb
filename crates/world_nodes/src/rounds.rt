//! The rounds of the exchange.
ghost use Rattle.std.specs.Prelude.{◌≡◌, ◌≤◌, true, [], ◌∷◌, All, length, map, filter};
ghost use Rattle.std.specs.Option.{option_copied};
ghost use Rattle.guards_model.specs.Channels.{has};
ghost use Rattle.guards_model.specs.Frames.{is_distinct};
ghost use Rattle.guards_model.specs.Network.{items_of};
ghost use Rattle.guards_nodes.specs.NodeSteps.{Received};
ghost use Rattle.guards_nodes.specs.NodeCalls.{changed};
ghost use Rattle.oral_messages.specs.Received.{IsExchangeInRange, items_of_frame};
ghost use Rattle.guards_world.specs.NodeLists.{AllReceived, after_exchanges, with_exchanges, AreOfRound, AreInRange, MayTake, MayReceive};

use crate::arrived::Arrived;
use crate::channels::every_channel;
use crate::nodes::Nodes;
use channel_node::Node;
use guards_base::{Chan, ChanSet};
use icn_frames::{Body, Exchange};

// The exchange of a channel that arrived, if any.
fn exchange<A: Arrived>(arrived: &A, round: u8, from: Chan, me: Chan) -> Option<&Exchange>
    requires rounds { AreOfRound round (A.got arrived.now) }
    requires ranges { AreInRange (A.got arrived.now) }
    ensures items { items_of_frame (option_copied result) ≡ items_of (A.got arrived.now from me) }
    ensures range { IsExchangeInRange (option_copied result) round from }
{
    let _ = round;
    match arrived.body(from, me.index()) {
        Some(Body::Exchange(exchange)) => Some(exchange),
        _ => None,
    }
}

// What arrived in a round from a channel is received, where it is one of the others.
fn receive_one<A: Arrived>(node: &mut Node, arrived: &A, round: u8, others: ChanSet, from: Chan)
    requires low { 1 ≤ round }
    requires may { (received : Received) × MayTake round others (from ∷ []) received node.old }
    requires rounds { AreOfRound round (A.got arrived.now) }
    requires ranges { AreInRange (A.got arrived.now) }
    ensures { (received : Received) → MayTake round others (from ∷ []) received node.old → node.new ≡
        changed (after_exchanges round (λ j. items_of (A.got arrived.now j node.old.channel)) received
        (filter (has others) (from ∷ []))) node.old }
{
    if others.has(from) {
        let frame = exchange(arrived, round, from, node.channel());
        node.receive(round, from, frame);
    }
}

// What arrived in a round from these channels is received, one after the other.
fn receive_from<A: Arrived>(
    node: &mut Node,
    arrived: &A,
    round: u8,
    others: ChanSet,
    channels: &[Chan],
)
    requires low { 1 ≤ round }
    requires distinct { is_distinct channels.now ≡ true }
    requires may { (received : Received) × MayTake round others channels.now received node.old }
    requires rounds { AreOfRound round (A.got arrived.now) }
    requires ranges { AreInRange (A.got arrived.now) }
    ensures { (received : Received) → MayTake round others channels.now received node.old → node.new ≡
        changed (after_exchanges round (λ j. items_of (A.got arrived.now j node.old.channel)) received
        (filter (has others) channels.now)) node.old }
{
    let Some((from, rest)) = channels.split_first() else {
        return;
    };
    receive_one(node, arrived, round, others, *from);
    receive_from(node, arrived, round, others, rest);
}

// What arrived in a round at a node.
fn receive_round<A: Arrived>(node: &mut Node, arrived: &A, round: u8, members: ChanSet)
    requires low { 1 ≤ round }
    requires may { (received : AllReceived) × MayReceive round members received node.old }
    requires rounds { AreOfRound round (A.got arrived.now) }
    requires ranges { AreInRange (A.got arrived.now) }
    ensures { (received : AllReceived) → MayReceive round members received node.old →
        node.new ≡ with_exchanges round members (A.got arrived.now) received node.old }
{
    let others = members.without(node.channel());
    let _ = others.flags();
    receive_from(node, arrived, round, others, &every_channel());
}

fn receive_each<A: Arrived>(nodes: &mut [Node], arrived: &A, round: u8, members: ChanSet)
    requires low { 1 ≤ round }
    requires may { (received : AllReceived) × All (MayReceive round members received) nodes.old }
    requires rounds { AreOfRound round (A.got arrived.now) }
    requires ranges { AreInRange (A.got arrived.now) }
    ensures { (received : AllReceived) → All (MayReceive round members received) nodes.old →
        nodes.new ≡ map (with_exchanges round members (A.got arrived.now) received) nodes.old }
{
    if let Some((node, rest)) = nodes.split_first_mut() {
        receive_round(node, arrived, round, members);
        receive_each(rest, arrived, round, members);
    }
}

impl Nodes {
    /// The running nodes, which are of these members, receive in a round (1 to 3) what arrived of the others.
    pub fn receive<A: Arrived>(&mut self, arrived: &A, round: u8, members: ChanSet)
        requires low { 1 ≤ round }
        requires may { (received : AllReceived) × All (MayReceive round members received) self.old }
        requires rounds { AreOfRound round (A.got arrived.now) }
        requires ranges { AreInRange (A.got arrived.now) }
        ensures state { (received : AllReceived) → All (MayReceive round members received) self.old →
            self.new ≡ map (with_exchanges round members (A.got arrived.now) received) self.old }
        ensures count { length self.new ≡ length self.old }
    {
        receive_each(self.list.as_mut_slice(), arrived, round, members);
    }
}
