//! The calls of a cycle on a node alone, each of which first looks whether it may be made.
ghost use Rattle.std.specs.Prelude.{◌≡◌, ◌≢◌, ◌≤◌, ◌<◌, ◌+◌, true, length, OnOk, IfOk, IfSome};
ghost use Rattle.std.specs.List.{list_all};
ghost use Rattle.std.specs.Option.{option_copied};
ghost use Rattle.guards_model.specs.Channels.{has, tolerated_faults};
ghost use Rattle.guards_model.specs.Frames.{counts_in_range};
ghost use Rattle.guards_nodes.specs.NodeStates.{running, RunningValue};
ghost use Rattle.channel_node.specs.Answers.{HasDecidedState};
ghost use Rattle.oral_messages.specs.Received.{IsExchangeInRange};
ghost use Rattle.node_rows.specs.Driven.{InRound};

use crate::ready::is_ready;
use crate::small::Plain;
use channel_node::Node;
use ctx_lock::OpenGate;
use guards_base::{Ballot, Chan, Mode};
use icn_frames::{Exchange, Finals};
use mission_type::Mission;
use std::alloc::{AllocError, Global};
use std::sync::Wait;
use std::thread::Threads;

/// A decision. Sets are masks: bit q is channel q.
#[derive(Clone, Copy, PartialEq, Eq)]
pub struct Decided {
    pub judged: u8,
    pub removed: u8,
    pub started: bool,
}

/// What a vote answers: the first input and the first vote, and the counts.
#[derive(Clone, Copy, PartialEq, Eq)]
pub struct Voted {
    pub input: i64,
    pub vote: Option<i64>,
    pub counts: [u32; 7],
}

/// Forms the source word of a cycle. True where the node runs, as one of at least three active channels.
pub fn begin(
    alloc: Global,
    node: &mut Node,
    mission: &Mission,
    cycle: u32,
) -> Result<bool, AllocError>
    requires { mission.now.rules ≡ node.old.rules }
    ensures rules { OnOk result (mission.now.rules ≡ node.new.rules) }
    ensures begun { IfOk result (λ done. done ≡ true → InRound 1 0 node.new) }
{
    match node.mode() {
        Mode::Up => {
            if !is_ready(node) {
                return Ok(false);
            }
            node.source(alloc, mission, cycle)?;
            Ok(true)
        }
        Mode::Down | Mode::Waiting | Mode::Joining => Ok(false),
    }
}

// Whether a frame is one of this round that the sender may send.
fn fits(round: u8, from: Chan, frame: Option<&Exchange>) -> bool
    ensures { result ≡ true → IsExchangeInRange (option_copied frame.entry) round from }
{
    match frame {
        None => true,
        Some(exchange) => exchange.round == round && exchange.in_range(from),
    }
}

// Whether the node, if it runs, may receive of this channel in this round.
fn may_hear(node: &Node, round: u8, from: Chan) -> bool
    ensures another { result ≡ true → from ≢ node.now.channel }
    ensures member { result ≡ true → (r : RunningValue) → node.now.state ≡ running r →
        has r.control.active from ≡ true }
    ensures high { result ≡ true → (r : RunningValue) → node.now.state ≡ running r →
        round ≤ tolerated_faults r.control.active + 1 }
{
    match node.control() {
        None => from != node.channel(),
        Some(control) => {
            from != node.channel()
                && control.active.has(from)
                && round <= control.active.count().saturating_sub(1) / 3 + 1
        }
    }
}

/// Receives a frame of a round from a channel, where it may.
pub fn receive(node: &mut Node, round: u8, from: Chan, frame: Option<&Exchange>)
    requires low { 1 ≤ round }
    requires at { InRound round from node.old }
    ensures rules { node.new.rules ≡ node.old.rules }
    ensures at { InRound round (from + 1) node.new }
{
    if fits(round, from, frame) && may_hear(node, round, from) {
        node.receive(round, from, frame);
    }
}

/// Decides by what was received in two rounds.
pub fn decide(node: &mut Node, mission: &Mission, cycle: u32) -> Decided
    requires rules { mission.now.rules ≡ node.old.rules }
    requires at { InRound 3 0 node.old }
    ensures rules { mission.now.rules ≡ node.new.rules }
    ensures decided { HasDecidedState node.new.state }
{
    let decision = node.decide(mission, cycle);
    Decided {
        judged: decision.judged.mask(),
        removed: decision.removed.mask(),
        started: decision.started,
    }
}

/// Works with the gate open.
pub fn work<R: Threads + Wait + Sync>(
    rt: &R,
    alloc: Global,
    node: &mut Node,
    mission: &Mission,
    cycle: u32,
) -> Result<(), AllocError>
    requires rules { mission.now.rules ≡ node.old.rules }
    requires decided { HasDecidedState node.old.state }
    ensures rules { mission.now.rules ≡ node.new.rules }
    ensures decided { HasDecidedState node.new.state }
{
    node.work(rt, alloc, mission, cycle, &OpenGate, &Plain)
}

/// Votes.
pub fn take_votes(node: &mut Node, mission: &Mission, ballots: &[Option<Ballot>; 7]) -> Voted
    requires rules { mission.now.rules ≡ node.old.rules }
    requires decided { HasDecidedState node.old.state }
    ensures rules { mission.now.rules ≡ node.new.rules }
    ensures decided { HasDecidedState node.new.state }
{
    let line = node.take_votes(mission, ballots);
    Voted {
        input: line.inputs[0],
        vote: line.votes[0],
        counts: line.alphas,
    }
}

/// Closes the cycle. Answers how many blocks remain.
pub fn close(node: &mut Node, mission: &Mission, cycle: u32) -> Option<u16>
    requires rules { mission.now.rules ≡ node.old.rules }
    requires decided { HasDecidedState node.old.state }
    ensures rules { mission.now.rules ≡ node.new.rules }
{
    let closed = node.close_cycle(mission, cycle);
    closed.remaining
}

/// Takes the content of these frames and runs with it, where it joins and they give one.
pub fn rise(node: &mut Node, frames: &Finals) -> bool
    requires counts { list_all (λ content. counts_in_range content.control.counts) frames.now.items ≡ true }
    ensures { node.new.rules ≡ node.old.rules }
{
    if node.mode() != Mode::Joining {
        return false;
    }
    if node.take_final(frames) {
        node.rise();
        return true;
    }
    false
}
