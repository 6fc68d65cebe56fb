//! The decision.
ghost use Rattle.std.specs.Prelude.{◌≡◌, length, map, All, option_and_then};
ghost use Rattle.std.specs.Option.{option_copied};
ghost use Rattle.guards_model.specs.Records.{transfer_of_pair};
ghost use Rattle.guards_model.specs.Controls.{transfer_in};
ghost use Rattle.guards_nodes.specs.NodeStates.{running_or_none};
ghost use Rattle.guards_world.specs.NodeLists.{AllReceived, StandsForReceived, MayDecide, with_decisions, removed_in, first_removed, lowest_running};

use crate::nodes::Nodes;
use channel_node::Node;
use guards_base::{ChanSet, Mode};
use mission_type::Mission;

fn decide_one(node: &mut Node, mission: &Mission, cycle: u32) -> Option<ChanSet>
    requires { MayDecide mission.now node.old }
    ensures state { (received : AllReceived) → StandsForReceived received node.old →
        node.new ≡ with_decisions mission.now cycle received node.old }
    ensures answer { (received : AllReceived) → StandsForReceived received node.old →
        result ≡ removed_in node.new.state }
{
    match node.mode() {
        Mode::Up => {
            let decision = node.decide(mission, cycle);
            Some(decision.removed)
        }
        Mode::Down | Mode::Waiting | Mode::Joining => None,
    }
}

fn decide_each(nodes: &mut [Node], mission: &Mission, cycle: u32) -> Option<ChanSet>
    requires { All (MayDecide mission.now) nodes.old }
    ensures state { (received : AllReceived) → All (StandsForReceived received) nodes.old →
        nodes.new ≡ map (with_decisions mission.now cycle received) nodes.old }
    ensures answer { (received : AllReceived) → All (StandsForReceived received) nodes.old →
        result ≡ first_removed nodes.new }
{
    let Some((node, rest)) = nodes.split_first_mut() else {
        return None;
    };
    let first = decide_one(node, mission, cycle);
    let later = decide_each(rest, mission, cycle);
    match first {
        Some(removed) => Some(removed),
        None => later,
    }
}

// The first node that runs.
fn first_up(nodes: &[Node]) -> Option<&Node>
    ensures { option_and_then (λ node. running_or_none node.state) (option_copied result) ≡ lowest_running nodes.now }
{
    let (node, rest) = nodes.split_first()?;
    match node.mode() {
        Mode::Up => Some(node),
        Mode::Down | Mode::Waiting | Mode::Joining => first_up(rest),
    }
}

impl Nodes {
    /// The running nodes, whose exchange has begun, settle the words of the cycle by what they received, and decide.
    /// Answers whom the first of them removes; none where no node runs.
    pub fn decide(&mut self, mission: &Mission, cycle: u32) -> Option<ChanSet>
        requires { All (MayDecide mission.now) self.old }
        ensures state { (received : AllReceived) → All (StandsForReceived received) self.old →
            self.new ≡ map (with_decisions mission.now cycle received) self.old }
        ensures answer { (received : AllReceived) → All (StandsForReceived received) self.old →
            result ≡ first_removed self.new }
        ensures count { length self.new ≡ length self.old }
    {
        decide_each(self.list.as_mut_slice(), mission, cycle)
    }

    /// The targets and the start of the transfer in the control of the first node that runs; none where it has no
    /// transfer, or no node runs.
    pub fn transfer(&self) -> Option<(ChanSet, u32)>
        ensures { transfer_of_pair result
            ≡ option_and_then (λ r. transfer_in r.control.sweeping) (lowest_running self.now) }
    {
        let control = first_up(self.list.as_slice())?.control()?;
        let transfer = control.transfer.as_ref()?;
        Some((transfer.targets, transfer.start))
    }
}
