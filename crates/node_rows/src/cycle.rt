//! A cycle of a node, whole, and what is seen of it.
ghost use Rattle.std.specs.Prelude.{◌≡◌, ◌≤◌, ◌<◌, ◌+◌, OnOk, IfOk, true, is_some};
ghost use Rattle.channel_node.specs.Answers.{HasDecidedState};
ghost use Rattle.node_rows.specs.Driven.{InRound};

use crate::alone::{Decided, begin, close, decide, receive, take_votes, work};
use crate::frames::{ended, last_word, own_word, swept, switch_in, vote_in};
use crate::seen::Seen;
use crate::small::word;
use crate::told::Told;
use channel_node::Node;
use guards_base::{Chan, SourceWord};
use mission_type::Mission;
use std::alloc::{AllocError, Global};
use std::sync::Wait;
use std::thread::Threads;

/// How an exchange went: the node's own word, how many words it told in round 2 and the last of them, and the decision.
#[derive(Clone, Copy)]
pub struct Exchanged {
    pub own: Option<SourceWord>,
    pub relayed: Option<(usize, Option<i64>)>,
    pub decided: Decided,
}

// Receives what comes of a channel in a round.
fn hear_one(
    alloc: Global,
    node: &mut Node,
    told: &Told,
    round: u8,
    from: u8,
    own: &Option<SourceWord>,
) -> Result<(), AllocError>
    requires low { 1 ≤ round }
    requires few { from < 7 }
    requires at { InRound round from node.old }
    ensures rules { OnOk result (node.new.rules ≡ node.old.rules) }
    ensures at { OnOk result (InRound round (from + 1) node.new) }
{
    let me = node.channel().index();
    let frame = told.frame(alloc, round, from, me, own)?;
    receive(node, round, Chan::new(from).unwrap(), frame.as_ref());
    Ok(())
}

// Receives what comes in a round.
fn hear_round(
    alloc: Global,
    node: &mut Node,
    told: &Told,
    round: u8,
    own: &Option<SourceWord>,
) -> Result<(), AllocError>
    requires low { 1 ≤ round }
    requires at { InRound round 0 node.old }
    ensures rules { OnOk result (node.new.rules ≡ node.old.rules) }
    ensures at { OnOk result (InRound (round + 1) 0 node.new) }
{
    hear_one(alloc, node, told, round, 0, own)?;
    hear_one(alloc, node, told, round, 1, own)?;
    hear_one(alloc, node, told, round, 2, own)?;
    hear_one(alloc, node, told, round, 3, own)?;
    hear_one(alloc, node, told, round, 4, own)?;
    hear_one(alloc, node, told, round, 5, own)?;
    hear_one(alloc, node, told, round, 6, own)?;
    Ok(())
}

/// The exchange of a cycle and the decision, where the node runs as one of the active channels.
pub fn exchange(
    alloc: Global,
    node: &mut Node,
    mission: &Mission,
    cycle: u32,
    told: &Told,
) -> Result<Option<Exchanged>, AllocError>
    requires { mission.now.rules ≡ node.old.rules }
    ensures rules { OnOk result (mission.now.rules ≡ node.new.rules) }
    ensures decided { IfOk result (λ exchanged. is_some exchanged ≡ true → HasDecidedState node.new.state) }
{
    if !begin(alloc, node, mission, cycle)? {
        return Ok(None);
    }
    let own = own_word(node.relay(alloc, cycle, 1)?);
    hear_round(alloc, node, told, 1, &own)?;
    let relayed = last_word(node.relay(alloc, cycle, 2)?);
    hear_round(alloc, node, told, 2, &own)?;
    let decided = decide(node, mission, cycle);
    Ok(Some(Exchanged {
        own,
        relayed,
        decided,
    }))
}

/// A whole cycle, where the node runs as one of the active channels.
pub fn cycle<R: Threads + Wait + Sync>(
    rt: &R,
    alloc: Global,
    node: &mut Node,
    mission: &Mission,
    cycle: u32,
    told: &Told,
) -> Result<Option<Seen>, AllocError>
    requires { mission.now.rules ≡ node.old.rules }
    ensures { OnOk result (mission.now.rules ≡ node.new.rules) }
{
    let Some(exchanged) = exchange(alloc, node, mission, cycle, told)? else {
        return Ok(None);
    };
    work(rt, alloc, node, mission, cycle)?;
    let vote = vote_in(node.vote_frame(mission, cycle));
    let voted = take_votes(node, mission, &told.ballots());
    let target = Chan::new(3).unwrap();
    let sweep = swept(node.sweep_frame(alloc, cycle, target)?);
    let remaining = close(node, mission, cycle);
    let last = ended(node.final_frame(alloc, cycle, target)?);
    Ok(Some(Seen {
        own: exchanged.own,
        relayed: exchanged.relayed,
        decided: exchanged.decided,
        vote,
        voted,
        sweep,
        remaining,
        last,
        next: switch_in(node.switch_frame(cycle)),
        words: [word(node, 0), word(node, 1), word(node, 2)],
    }))
}
