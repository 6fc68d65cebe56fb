//! The nodes of all channels, and what they lend.
ghost use Rattle.std.specs.Prelude.{◌≡◌, ◌<◌, length, map, slice_get, Some, IfOk};
ghost use Rattle.guards_model.specs.Missions.{channels_of};
ghost use Rattle.guards_nodes.specs.NodeCalls.{first_node};

use channel_node::Node;
use guards_base::Chan;
use mission_type::Mission;
use std::alloc::{AllocError, Global};
use std::marker::Model;

/// The nodes of all channels, in their order.
#[derive(Drop)]
pub struct Nodes {
    pub(crate) list: Vec<Node>,
}

impl Model for Nodes {
    ghost use Rattle.std.specs.Prelude.{List};
    ghost use Rattle.guards_nodes.specs.NodeStates.{NodeValue};

    ghost Value = { List NodeValue };

    ghost view = { λ nodes. nodes.list.items };
}

impl Nodes {
    /// The nodes of a mission before its first cycle.
    #[tactic(auto, using(crate::proofs::NumbersBelowMore::first_more))]
    pub fn first(alloc: Global, mission: &Mission) -> Result<Nodes, AllocError>
        ensures { IfOk result (λ nodes. nodes ≡ map (first_node mission.now) (channels_of mission.now)) }
    {
        mission.prove_sizes();
        let mut list = Vec::new(alloc);
        for number in 0..mission.rules().channels {
            list.push(Node::first(alloc, Chan::of(number), mission)?)?;
        }
        Ok(Nodes { list })
    }

    /// The number of nodes.
    pub fn len(&self) -> usize
        ensures { result ≡ length self.now }
    {
        self.list.len()
    }

    /// Lends a node.
    pub fn get(&self, c: Chan) -> &Node
        requires { c < length self.now }
        ensures { slice_get self.now c ≡ Some result.now }
    {
        &self.list[c.index() as usize]
    }

    /// Lends all nodes, in their order.
    pub fn as_slice(&self) -> &[Node]
        ensures { result.now ≡ self.now }
    {
        self.list.as_slice()
    }
}
