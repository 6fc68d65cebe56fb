//! The vote slot.
ghost use Rattle.std.specs.Prelude.{◌≡◌, ◌++◌, length, map, filter_map, All, OnOk, IfOk};
ghost use Rattle.std.specs.Option.{option_to_list};
ghost use Rattle.guards_model.specs.Network.{ballot_of};
ghost use Rattle.guards_world.specs.NodeLists.{ballots_arrived, with_votes, vote_line, HasDecision};

use crate::arrived::Arrived;
use crate::nodes::Nodes;
use channel_node::Node;
use guards_base::{Ballot, Chan, ChannelLine, Mode, Sequence, table_by};
use icn_frames::Body;
use mission_type::Mission;
use std::alloc::{AllocError, Global};

/// What the channels tell at the end of a cycle.
pub type Lines = Sequence<ChannelLine>;

// The ballot of a channel, where one arrived.
fn ballot<A: Arrived>(arrived: &A, from: Chan, me: Chan) -> Option<Ballot>
    ensures { result ≡ ballot_of (A.got arrived.now from me) }
{
    match arrived.body(from, me.index()) {
        Some(Body::Vote(words)) => Some(*words),
        _ => None,
    }
}

// The ballots that arrived at a channel.
fn ballots<A: Arrived>(arrived: &A, me: Chan) -> [Option<Ballot>; 7]
    ensures { result ≡ ballots_arrived (A.got arrived.now) me }
{
    table_by(
        |from: Chan| -> Option<Ballot>
            ensures { result ≡ ballot_of (A.got arrived.entry.now from me) }
        { ballot(arrived, from, me) },
    )
}

// The vote of a node, and its line, where it runs.
fn vote_one<A: Arrived>(node: &mut Node, mission: &Mission, arrived: &A) -> Option<ChannelLine>
    requires { HasDecision mission.now node.old }
    ensures state { node.new ≡ with_votes mission.now (A.got arrived.now) node.old }
    ensures line { result ≡ vote_line mission.now (A.got arrived.now) node.old }
{
    match node.mode() {
        Mode::Up => Some(node.take_votes(mission, &ballots(arrived, node.channel()))),
        Mode::Down | Mode::Waiting | Mode::Joining => None,
    }
}

// Puts a line at the end of the list, if there is one.
fn put_line(lines: &mut Lines, line: Option<ChannelLine>) -> Result<(), AllocError>
    ensures { OnOk result (lines.new.items ≡ lines.old.items ++ option_to_list line) }
{
    match line {
        Some(line) => lines.push(line),
        None => Ok(()),
    }
}

fn vote_each<A: Arrived>(
    lines: &mut Lines,
    nodes: &mut [Node],
    mission: &Mission,
    arrived: &A,
) -> Result<(), AllocError>
    requires { All (HasDecision mission.now) nodes.old }
    ensures state { OnOk result (nodes.new ≡ map (with_votes mission.now (A.got arrived.now)) nodes.old) }
    ensures lines { OnOk result
        (lines.new.items ≡ lines.old.items ++ filter_map (vote_line mission.now (A.got arrived.now)) nodes.old) }
{
    if let Some((node, rest)) = nodes.split_first_mut() {
        let line = vote_one(node, mission, arrived);
        put_line(lines, line)?;
        vote_each(lines, rest, mission, arrived)?;
    }
    Ok(())
}

impl Nodes {
    /// The running nodes, which have decided, vote on the ballots that arrived. Answers the line of each, in order. For
    /// want of memory nothing is known of the nodes but how many there are.
    pub fn take_votes<A: Arrived>(
        &mut self,
        alloc: Global,
        mission: &Mission,
        arrived: &A,
    ) -> Result<Lines, AllocError>
        requires { All (HasDecision mission.now) self.old }
        ensures state { OnOk result (self.new ≡ map (with_votes mission.now (A.got arrived.now)) self.old) }
        ensures lines { IfOk result
            (λ lines. lines.items ≡ filter_map (vote_line mission.now (A.got arrived.now)) self.old) }
        ensures count { length self.new ≡ length self.old }
    {
        let mut lines = Lines::new(alloc);
        vote_each(&mut lines, self.list.as_mut_slice(), mission, arrived)?;
        Ok(lines)
    }
}
