//! The work of the tasks slot: all nodes at the same time.
ghost use Rattle.std.specs.Prelude.{◌≡◌, ◌++◌, length, filter_map, All, OnOk, IfOk};
ghost use Rattle.std.specs.List.{AllZip};
ghost use Rattle.std.specs.Option.{option_to_list};
ghost use Rattle.std.specs.Thread.{IsSync};
ghost use Rattle.guards_world.specs.NodeLists.{HasDecision};
ghost use Rattle.world_nodes.specs.NodeWork.{WorksOrStays, trace_of};

use crate::beside::each_beside;
use crate::nodes::Nodes;
use channel_node::Node;
use ctx_lock::Gate;
use guards_base::{Bytes, Mode, TraceLine, Traces};
use mission_type::Mission;
use native_calls::Calls;
use std::alloc::{AllocError, Global};
use std::mem;
use std::sync::Wait;
use std::thread::Threads;

// One node works, where it runs.
fn work_one<C: Calls + Sync, G: Gate, R: Threads + Wait + Sync>(
    rt: &R,
    alloc: Global,
    mut node: Node,
    mission: &Mission,
    cycle: u32,
    gate: &G,
    natives: &C,
) -> (Node, Result<(), AllocError>)
    requires { HasDecision mission.now node }
    ensures { OnOk result.1 (WorksOrStays mission.now cycle node result.0) }
{
    if node.mode() != Mode::Up {
        return (node, Ok(()));
    }
    let worked = node.work(rt, alloc, mission, cycle, gate, natives);
    (node, worked)
}

// The round of a node, where it has worked.
#[tactic(auto, using(crate::proofs::Traces::trace_by))]
fn trace(alloc: Global, node: &Node) -> Result<Option<TraceLine>, AllocError>
    ensures { IfOk result (λ line. line ≡ trace_of node.now) }
{
    match node.history() {
        Some(trail) => Ok(Some(TraceLine {
            chan: node.channel(),
            steps: Bytes::from_slice(alloc, trail.steps().as_slice())?,
        })),
        None => Ok(None),
    }
}

// Puts a round at the end of the list, if there is one.
fn put_trace(traces: &mut Traces, line: Option<TraceLine>) -> Result<(), AllocError>
    ensures { OnOk result (traces.new.items ≡ traces.old.items ++ option_to_list line) }
{
    match line {
        Some(line) => traces.push(line),
        None => Ok(()),
    }
}

fn trace_each(alloc: Global, traces: &mut Traces, nodes: &[Node]) -> Result<(), AllocError>
    ensures { OnOk result (traces.new.items ≡ traces.old.items ++ filter_map trace_of nodes.now) }
{
    if let Some((node, rest)) = nodes.split_first() {
        let line = trace(alloc, node)?;
        put_trace(traces, line)?;
        trace_each(alloc, traces, rest)?;
    }
    Ok(())
}

impl Nodes {
    /// The running nodes, which have decided, make the writes and the copies of the cycle, all at the same time: each
    /// in a thread of its own, by two workers. Answers the round of each, in order. For want of memory nothing is known
    /// of the nodes but how many there are. It may wait.
    #[tactic(auto, using(crate::proofs::Crossing::mission_shares))]
    pub fn work<C: Calls + Sync, G: Gate, R: Threads + Wait + Sync>(
        &mut self,
        rt: &R,
        alloc: Global,
        mission: &Mission,
        cycle: u32,
        gate: &G,
        natives: &C,
    ) -> Result<Traces, AllocError>
        requires { All (HasDecision mission.now) self.old }
        ensures worked { OnOk result (AllZip (WorksOrStays mission.now cycle) self.old self.new) }
        ensures traces { IfOk result (λ traces. traces.items ≡ filter_map trace_of self.new) }
        ensures count { length self.new ≡ length self.old }
    {
        let list = mem::replace(&mut self.list, Vec::new(alloc));
        let (list, worked) = each_beside(
            rt,
            list,
            &|node: Node| -> (Node, Result<(), AllocError>)
                requires sync { IsSync R.row × IsSync C.row }
                requires decided { HasDecision mission.now node }
                ensures { OnOk result.1 (WorksOrStays mission.entry.now cycle node result.0) }
            { work_one(rt, alloc, node, mission, cycle, gate, natives) },
        );
        self.list = list;
        worked?;
        let mut traces = Traces::new(alloc);
        trace_each(alloc, &mut traces, self.list.as_slice())?;
        Ok(traces)
    }
}
