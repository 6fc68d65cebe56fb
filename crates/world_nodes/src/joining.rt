//! The sweep frames and the final frames.
ghost use Rattle.std.specs.Prelude.{◌≡◌, ◌++◌, [], ◌∷◌, length, map, filter, filter_map, OnOk, IfOk};
ghost use Rattle.guards_model.specs.Channels.{has};
ghost use Rattle.guards_model.specs.Replicas.{sweep_content};
ghost use Rattle.guards_world.specs.NodeLists.{sweeps_of, with_sweeps};

use crate::arrived::Arrived;
use crate::channels::every_channel;
use crate::nodes::Nodes;
use channel_node::Node;
use guards_base::{Chan, ChanSet, Mode};
use icn_frames::{Body, Copies, SweepBody, Sweeps};
use std::alloc::{AllocError, Global};

// A sweep body of its own.
fn sweep_copy(alloc: Global, sweep: &SweepBody) -> Result<SweepBody, AllocError>
    ensures { IfOk result (λ copy. copy ≡ sweep.now) }
{
    Ok(SweepBody {
        target: sweep.target,
        start: sweep.start,
        blocks: Copies::from_slice(alloc, sweep.blocks.as_slice())?,
    })
}

// The sweep frame of a member that arrived at a channel, if any.
fn put_sweep<A: Arrived>(
    alloc: Global,
    list: &mut Sweeps,
    arrived: &A,
    members: ChanSet,
    me: Chan,
    from: Chan,
) -> Result<(), AllocError>
    ensures { OnOk result (list.new.items
        ≡ list.old.items ++ filter_map (λ j. sweep_content (A.got arrived.now j me))
        (filter (has members) (from ∷ []))) }
{
    if !members.has(from) {
        return Ok(());
    }
    match arrived.body(from, me.index()) {
        Some(Body::Sweep(sweep)) => list.push(sweep_copy(alloc, sweep)?),
        _ => Ok(()),
    }
}

// The sweep frames of these channels.
#[tactic(auto, using(crate::proofs::Changes::contents_more))]
fn put_sweeps<A: Arrived>(
    alloc: Global,
    list: &mut Sweeps,
    arrived: &A,
    members: ChanSet,
    me: Chan,
    channels: &[Chan],
) -> Result<(), AllocError>
    ensures { OnOk result (list.new.items
        ≡ list.old.items ++ filter_map (λ j. sweep_content (A.got arrived.now j me))
        (filter (has members) channels.now)) }
{
    let Some((from, rest)) = channels.split_first() else {
        return Ok(());
    };
    put_sweep(alloc, list, arrived, members, me, *from)?;
    put_sweeps(alloc, list, arrived, members, me, rest)?;
    Ok(())
}

// The sweep frames of the members that arrived at a channel.
#[tactic(auto, unfolding(guards_model::specs::Channels::channels_where))]
fn sweeps<A: Arrived>(
    alloc: Global,
    arrived: &A,
    members: ChanSet,
    me: Chan,
) -> Result<Sweeps, AllocError>
    ensures { IfOk result (λ list. list.items ≡ sweeps_of members (A.got arrived.now) me) }
{
    let _ = members.flags();
    let mut list = Sweeps::new(alloc);
    put_sweeps(alloc, &mut list, arrived, members, me, &every_channel())?;
    Ok(list)
}

fn sweep_one<A: Arrived>(
    alloc: Global,
    node: &mut Node,
    cycle: u32,
    members: ChanSet,
    arrived: &A,
) -> Result<(), AllocError>
    ensures { OnOk result (node.new ≡ with_sweeps cycle members (A.got arrived.now) node.old) }
{
    if node.mode() == Mode::Joining {
        let frames = sweeps(alloc, arrived, members, node.channel())?;
        node.take_sweep(cycle, &frames);
    }
    Ok(())
}

fn sweep_each<A: Arrived>(
    alloc: Global,
    nodes: &mut [Node],
    cycle: u32,
    members: ChanSet,
    arrived: &A,
) -> Result<(), AllocError>
    ensures { OnOk result (nodes.new ≡ map (with_sweeps cycle members (A.got arrived.now)) nodes.old) }
{
    if let Some((node, rest)) = nodes.split_first_mut() {
        sweep_one(alloc, node, cycle, members, arrived)?;
        sweep_each(alloc, rest, cycle, members, arrived)?;
    }
    Ok(())
}

impl Nodes {
    /// The joining nodes take the sweep frames of the members that arrived at them. For want of memory nothing is known
    /// of the nodes but how many there are.
    pub fn take_sweep<A: Arrived>(
        &mut self,
        alloc: Global,
        cycle: u32,
        members: ChanSet,
        arrived: &A,
    ) -> Result<(), AllocError>
        ensures state { OnOk result (self.new ≡ map (with_sweeps cycle members (A.got arrived.now)) self.old) }
        ensures count { length self.new ≡ length self.old }
    {
        sweep_each(alloc, self.list.as_mut_slice(), cycle, members, arrived)
    }
}
