//! The start of a cycle.
ghost use Rattle.std.specs.Prelude.{◌≡◌, [], ◌∷◌, length, map, All, IsTrue, OnOk};
ghost use Rattle.std.specs.List.{list_all};
ghost use Rattle.guards_model.specs.Missions.{is_fault};
ghost use Rattle.fault_script.specs.Entries.{fault_value};
ghost use Rattle.guards_nodes.specs.NodeCalls.{changed};
ghost use Rattle.guards_world.specs.SlotSteps.{after_damages};
ghost use Rattle.guards_world.specs.NodeLists.{MayOpen, opened_with, opened_node};

use crate::nodes::Nodes;
use channel_node::Node;
use fault_script::Fault;
use guards_base::{ChanSet, Mode};
use mission_type::Mission;
use std::alloc::{AllocError, Global};

// The damages of the node among these faults, in their order.
fn damage_by(node: &mut Node, mission: &Mission, faults: &[Fault], cycle: u32)
    requires rules { mission.now.rules ≡ node.old.rules }
    requires faults { IsTrue (list_all (is_fault mission.now) (map fault_value faults.now)) }
    ensures { node.new ≡ changed (after_damages (map fault_value faults.now) node.old.channel cycle) node.old }
{
    let Some((first, rest)) = faults.split_first() else {
        return;
    };
    damage_once(node, mission, first, cycle);
    damage_by(node, mission, rest, cycle);
}

// The damage of the node that a fault is, if it is one.
fn damage_once(node: &mut Node, mission: &Mission, fault: &Fault, cycle: u32)
    requires rules { mission.now.rules ≡ node.old.rules }
    requires fault { IsTrue (is_fault mission.now (fault_value fault.now)) }
    ensures { node.new ≡ changed (after_damages (fault_value fault.now ∷ []) node.old.channel cycle) node.old }
{
    match fault {
        Fault::Damage {
            channel,
            cycle: at,
            block,
            word,
            value,
        } if *channel == node.channel().index() && *at == cycle => {
            node.damage(*block, *word, *value);
        }
        _ => {}
    }
}

// The damages of the node in a cycle, in the script's order.
#[tactic(auto, using(crate::proofs::Damages::without_rules))]
fn damage(node: &mut Node, mission: &Mission, cycle: u32)
    requires { mission.now.rules ≡ node.old.rules }
    ensures { node.new ≡ changed (after_damages mission.now.script node.old.channel cycle) node.old }
{
    mission.prove_mission();
    damage_by(node, mission, mission.script().others(), cycle);
}

// One node opens the cycle; it begins to join, or not.
#[tactic(auto, using(crate::proofs::Damages::damages_keep_control))]
fn open_one(
    alloc: Global,
    node: &mut Node,
    mission: &Mission,
    cycle: u32,
    begins: bool,
) -> Result<(), AllocError>
    requires { MayOpen mission.now node.old }
    ensures { OnOk result (node.new ≡ opened_node mission.now cycle begins node.old) }
{
    match node.mode() {
        Mode::Up => {
            damage(node, mission, cycle);
            node.source(alloc, mission, cycle)
        }
        Mode::Down | Mode::Waiting if begins => node.restart(alloc, mission.rules().blocks),
        Mode::Down | Mode::Waiting | Mode::Joining => Ok(()),
    }
}

fn open_each(
    alloc: Global,
    nodes: &mut [Node],
    mission: &Mission,
    cycle: u32,
    joining: ChanSet,
) -> Result<(), AllocError>
    requires { All (MayOpen mission.now) nodes.old }
    ensures { OnOk result (nodes.new ≡ map (opened_with mission.now cycle joining) nodes.old) }
{
    if let Some((node, rest)) = nodes.split_first_mut() {
        let begins = joining.has(node.channel());
        open_one(alloc, node, mission, cycle, begins)?;
        open_each(alloc, rest, mission, cycle, joining)?;
    }
    Ok(())
}

impl Nodes {
    /// Opens a cycle in which these channels begin to join: each running node is damaged as the script says and forms
    /// its source word. For want of memory nothing is known of the nodes but how many there are.
    pub fn open(
        &mut self,
        alloc: Global,
        mission: &Mission,
        cycle: u32,
        joining: ChanSet,
    ) -> Result<(), AllocError>
        requires { All (MayOpen mission.now) self.old }
        ensures state { OnOk result (self.new ≡ map (opened_with mission.now cycle joining) self.old) }
        ensures count { length self.new ≡ length self.old }
    {
        open_each(alloc, self.list.as_mut_slice(), mission, cycle, joining)
    }
}
