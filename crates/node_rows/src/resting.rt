//! A node that does not run: it crashed, was switched off, or returns.
ghost use Rattle.std.specs.Prelude.{◌≡◌};

use crate::frames::{asked, own_word};
use crate::small::first;
use channel_node::Node;
use guards_base::{Chan, Mode};
use icn_frames::{Copies, SweepBody, Sweeps};
use mission_type::Mission;
use std::alloc::{AllocError, Global};

// Whether it is in this mode, holds nothing and owes no frame.
fn owes_nothing(alloc: Global, node: &Node, mode: Mode) -> Result<bool, AllocError> {
    let relayed = own_word(node.relay(alloc, 2, 1)?);
    Ok(
        node.mode() == mode
            && node.context().is_none()
            && relayed.is_none()
            && node.request(2).is_none()
            && node.switch_frame(2).is_none(),
    )
}

pub fn a_crashed_node_owes_nothing(alloc: Global, mission: &Mission) -> Result<bool, AllocError> {
    match first(alloc, mission, 1)? {
        Some(mut node) => {
            node.crash();
            owes_nothing(alloc, &node, Mode::Down)
        }
        None => Ok(false),
    }
}

pub fn a_switched_off_node_waits(alloc: Global, mission: &Mission) -> Result<bool, AllocError> {
    match first(alloc, mission, 1)? {
        Some(mut node) => {
            node.reset();
            owes_nothing(alloc, &node, Mode::Waiting)
        }
        None => Ok(false),
    }
}

// A sweep frame without copies, of the transfer to channel 1 that began at this cycle.
fn swept(alloc: Global, start: u32) -> Result<Sweeps, AllocError> {
    let mut frames = Sweeps::new(alloc);
    frames.push(SweepBody {
        target: Chan::new(1).unwrap(),
        start,
        blocks: Copies::new(alloc),
    })?;
    Ok(frames)
}

// What it asks for when it took this sweep frame in cycle 4.
fn asks_after(
    alloc: Global,
    node: &mut Node,
    start: u32,
) -> Result<Option<Option<u32>>, AllocError> {
    let frames = swept(alloc, start)?;
    node.take_sweep(4, &frames);
    Ok(asked(node.request(4)))
}

// Whether a node that crashed and was restarted asks: with no start, and once it took a frame of the transfer of cycle
// 4 with this one.
fn asks(alloc: Global, node: &mut Node, mission: &Mission) -> Result<bool, AllocError>
    requires { mission.now.rules ≡ node.old.rules }
{
    node.crash();
    node.restart(alloc, mission.rules().blocks)?;
    let first = asks_after(alloc, node, 3)?;
    let second = asks_after(alloc, node, 4)?;
    Ok(node.mode() == Mode::Joining && first == Some(None) && second == Some(Some(4)))
}

pub fn a_restarted_node_asks(alloc: Global, mission: &Mission) -> Result<bool, AllocError> {
    match first(alloc, mission, 1)? {
        Some(mut node) => asks(alloc, &mut node, mission),
        None => Ok(false),
    }
}
