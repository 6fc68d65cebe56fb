//! What is seen of a node after some cycles, as plain values to compare.
ghost use Rattle.std.specs.Prelude.{◌≡◌, OnOk};

use crate::alone::{Decided, Voted};
use crate::cycle::cycle;
use crate::small::first;
use crate::told::Told;
use channel_node::Node;
use guards_base::{Chan, SourceWord};
use mission_type::Mission;
use std::alloc::{AllocError, Global};
use std::sync::Wait;
use std::thread::Threads;

/// What a frame copies: the start of its transfer, and the numbers of its first two blocks.
#[derive(Clone, Copy, PartialEq, Eq)]
pub struct Copied {
    pub start: u32,
    pub blocks: [Option<u8>; 2],
}

/// What a channel's frames and answers of a cycle say.
#[derive(Clone, Copy, PartialEq, Eq)]
pub struct Seen {
    pub own: Option<SourceWord>,
    /// How many words it told in round 2, and the last of them.
    pub relayed: Option<(usize, Option<i64>)>,
    pub decided: Decided,
    /// The first word of its vote.
    pub vote: Option<i64>,
    pub voted: Voted,
    /// What it sent to channel 3 in the sweep slot.
    pub sweep: Option<Copied>,
    pub remaining: Option<u16>,
    /// What it sent to channel 3 in the final slot.
    pub last: Option<Copied>,
    /// The mask of the next active set: bit q is channel q.
    pub next: Option<u8>,
    /// The first words of its three blocks.
    pub words: [Option<i64>; 3],
}

// Hears the request of channel 3.
fn hear(node: &mut Node, told: &Told)
    ensures { node.new.rules ≡ node.old.rules }
{
    if let Some(have) = told.request {
        node.hear(Chan::new(3).unwrap(), have);
    }
}

/// These cycles of a node, one after the other; what is seen of the last one, where the node ran in each.
pub fn cycles<R: Threads + Wait + Sync>(
    rt: &R,
    alloc: Global,
    node: &mut Node,
    mission: &Mission,
    number: u32,
    told: &[Told],
) -> Result<Option<Seen>, AllocError>
    requires { mission.now.rules ≡ node.old.rules }
    ensures { OnOk result (mission.now.rules ≡ node.new.rules) }
{
    let Some((this, rest)) = told.split_first() else {
        return Ok(None);
    };
    hear(node, this);
    let seen = cycle(rt, alloc, node, mission, number, this)?;
    if seen.is_none() || rest.is_empty() {
        return Ok(seen);
    }
    let last = cycles(rt, alloc, node, mission, number.saturating_add(1), rest)?;
    Ok(last)
}

/// The first cycles of channel 1; what is seen of the last one.
pub fn after<R: Threads + Wait + Sync>(
    rt: &R,
    alloc: Global,
    mission: &Mission,
    told: &[Told],
) -> Result<Option<Seen>, AllocError> {
    match first(alloc, mission, 1)? {
        Some(mut node) => cycles(rt, alloc, &mut node, mission, 0, told),
        None => Ok(None),
    }
}
