//! The final frames.
ghost use Rattle.std.specs.Prelude.{◌≡◌, ◌<◌, ◌==◌, ◌&&◌, ◌||◌, ◌++◌, [], ◌∷◌, true, length, map, filter, filter_map, OnOk, IfOk};
ghost use Rattle.std.specs.List.{list_all, list_any};
ghost use Rattle.guards_model.specs.Channels.{Channel, has};
ghost use Rattle.guards_model.specs.Frames.{counts_in_range};
ghost use Rattle.guards_model.specs.Replicas.{final_content};
ghost use Rattle.guards_world.specs.NodeLists.{finals_of, with_finals, takes, AreInRange};

use crate::arrived::Arrived;
use crate::channels::every_channel;
use crate::nodes::Nodes;
use channel_node::Node;
use guards_base::{Chan, ChanSet, Mode};
use icn_frames::{Body, Copies, FinalBody, Finals};
use std::alloc::{AllocError, Global};

// A final body of its own.
fn final_copy(alloc: Global, last: &FinalBody) -> Result<FinalBody, AllocError>
    ensures { IfOk result (λ copy. copy ≡ last.now) }
{
    Ok(FinalBody {
        target: last.target,
        start: last.start,
        blocks: Copies::from_slice(alloc, last.blocks.as_slice())?,
        control: last.control,
    })
}

// The final frame of a member that arrived at a channel, if any.
#[tactic(auto, using(crate::proofs::Contents::counts_fit, crate::proofs::Contents::all_more))]
fn put_final<A: Arrived>(
    alloc: Global,
    list: &mut Finals,
    arrived: &A,
    members: ChanSet,
    me: Chan,
    from: Chan,
) -> Result<(), AllocError>
    requires ranges { AreInRange (A.got arrived.now) }
    requires fits { list_all (λ content. counts_in_range content.control.counts) list.old.items ≡ true }
    ensures items { OnOk result
        (list.new.items ≡ list.old.items
        ++ filter_map (λ j. final_content (A.got arrived.now j me)) (filter (has members) (from ∷ []))) }
    ensures fits { OnOk result (list_all (λ content. counts_in_range content.control.counts) list.new.items ≡ true) }
{
    if !members.has(from) {
        return Ok(());
    }
    match arrived.body(from, me.index()) {
        Some(Body::Final(last)) => list.push(final_copy(alloc, last)?),
        _ => Ok(()),
    }
}

// The final frames of these channels.
#[tactic(auto, using(crate::proofs::Changes::contents_more))]
fn put_finals<A: Arrived>(
    alloc: Global,
    list: &mut Finals,
    arrived: &A,
    members: ChanSet,
    me: Chan,
    channels: &[Chan],
) -> Result<(), AllocError>
    requires ranges { AreInRange (A.got arrived.now) }
    requires fits { list_all (λ content. counts_in_range content.control.counts) list.old.items ≡ true }
    ensures items { OnOk result
        (list.new.items ≡ list.old.items
        ++ filter_map (λ j. final_content (A.got arrived.now j me)) (filter (has members) channels.now)) }
    ensures fits { OnOk result (list_all (λ content. counts_in_range content.control.counts) list.new.items ≡ true) }
{
    let Some((from, rest)) = channels.split_first() else {
        return Ok(());
    };
    put_final(alloc, list, arrived, members, me, *from)?;
    put_finals(alloc, list, arrived, members, me, rest)?;
    Ok(())
}

// The final frames of the members that arrived at a channel.
#[tactic(auto, unfolding(guards_model::specs::Channels::channels_where))]
fn finals<A: Arrived>(
    alloc: Global,
    arrived: &A,
    members: ChanSet,
    me: Chan,
) -> Result<Finals, AllocError>
    requires { AreInRange (A.got arrived.now) }
    ensures items { IfOk result (λ list. list.items ≡ finals_of members (A.got arrived.now) me) }
    ensures fits { IfOk result
        (λ list. list_all (λ content. counts_in_range content.control.counts) list.items ≡ true) }
{
    let _ = members.flags();
    let mut list = Finals::new(alloc);
    put_finals(alloc, &mut list, arrived, members, me, &every_channel())?;
    Ok(list)
}

// One node takes the content, where it joins; whether it took one.
fn final_one<A: Arrived>(
    alloc: Global,
    node: &mut Node,
    members: ChanSet,
    arrived: &A,
) -> Result<bool, AllocError>
    requires { AreInRange (A.got arrived.now) }
    ensures state { OnOk result (node.new ≡ with_finals members (A.got arrived.now) node.old) }
    ensures took { IfOk result (λ took. took ≡ takes members (A.got arrived.now) node.old) }
{
    if node.mode() != Mode::Joining {
        return Ok(false);
    }
    let frames = finals(alloc, arrived, members, node.channel())?;
    Ok(node.take_final(&frames))
}

// The set with a channel more, where it took a content.
#[tactic(auto, using(crate::proofs::Contents::with_one))]
fn with_taker(set: ChanSet, c: Chan, took: bool) -> ChanSet
    ensures { (q : Channel) → q < 7 → has result q ≡ ((took && (c == q)) || has set q) }
{
    if took { set.with(c) } else { set }
}

fn final_each<A: Arrived>(
    alloc: Global,
    nodes: &mut [Node],
    members: ChanSet,
    arrived: &A,
) -> Result<ChanSet, AllocError>
    requires { AreInRange (A.got arrived.now) }
    ensures state { OnOk result (nodes.new ≡ map (with_finals members (A.got arrived.now)) nodes.old) }
    ensures took { IfOk result (λ set. (q : Channel) → q < 7 →
        has set q ≡ list_any (λ node. takes members (A.got arrived.now) node && (node.channel == q)) nodes.old) }
{
    let Some((node, rest)) = nodes.split_first_mut() else {
        return Ok(ChanSet::empty());
    };
    let channel = node.channel();
    let took = final_one(alloc, node, members, arrived)?;
    let others = final_each(alloc, rest, members, arrived)?;
    Ok(with_taker(others, channel, took))
}

impl Nodes {
    /// The joining nodes take the content of the final frames of the members that arrived at them. Answers the channels
    /// that took one. For want of memory nothing is known of the nodes but how many there are.
    pub fn take_final<A: Arrived>(
        &mut self,
        alloc: Global,
        members: ChanSet,
        arrived: &A,
    ) -> Result<ChanSet, AllocError>
        requires { AreInRange (A.got arrived.now) }
        ensures state { OnOk result (self.new ≡ map (with_finals members (A.got arrived.now)) self.old) }
        ensures took { IfOk result (λ set. (q : Channel) → q < 7 →
            has set q ≡ list_any (λ node. takes members (A.got arrived.now) node && (node.channel == q)) self.old) }
        ensures count { length self.new ≡ length self.old }
    {
        final_each(alloc, self.list.as_mut_slice(), members, arrived)
    }
}
