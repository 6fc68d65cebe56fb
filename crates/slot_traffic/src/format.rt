//! Which frames count as received.
ghost use Rattle.std.specs.Prelude.{◌≡◌, ◌&&◌, ◌==◌};
ghost use Rattle.guards_model.specs.Slots.{same_slot, round_number};
ghost use Rattle.guards_model.specs.Network.{same_law, blocks_below, suits};
ghost use Rattle.icn_frames.specs.Bodies.{view_body};
ghost use Rattle.slot_traffic.specs.Counting.{counts};

use guards_base::{Chan, Law, Slot};
use icn_frames::{BlockCopy, Body, ControlWord, FinalBody, Frame, SweepBody};
use std::marker::Model;

/// What frames are judged by: the mission's version (1 or 2) and law, how many blocks a context has (up to 256), and
/// how many output words there are (up to 8).
#[derive(Clone, Copy, Debug, PartialEq, Eq)]
pub struct Format {
    pub version: u8,
    pub law: Law,
    pub blocks: u16,
    pub outputs: u8,
}

impl Model for Format {
    ghost use Rattle.guards_model.specs.Missions.{FormatValue};

    ghost Value = { FormatValue };

    ghost view = { λ f. record { version = f.version; law = f.law; blocks = f.blocks; outputs = f.outputs } };

    ghost inverse = { λ f. record { version = f.version; law = f.law; blocks = f.blocks; outputs = f.outputs } };
}

fn is_same(slot: Slot, other: Slot) -> bool
    ensures { result ≡ same_slot slot other }
{
    slot.index() == other.index()
}

/// The round of oral messages of a slot, 0 for a slot of none.
fn round_of(slot: Slot) -> u8
    ensures { result ≡ round_number slot }
{
    match slot {
        Slot::Round1 => 1,
        Slot::Round2 => 2,
        Slot::Round3 => 3,
        Slot::Request
        | Slot::Tasks
        | Slot::Vote
        | Slot::Sweep
        | Slot::Final
        | Slot::Switch
        | Slot::Output => 0,
    }
}

fn is_one_law(a: Law, b: Law) -> bool
    ensures { result ≡ same_law a b }
{
    match a {
        Law::Multiply => match b {
            Law::Multiply => true,
            Law::Subtract => false,
        },
        Law::Subtract => match b {
            Law::Multiply => false,
            Law::Subtract => true,
        },
    }
}

/// Whether each copy is of one of so many blocks.
fn are_below(blocks: u16, copies: &[BlockCopy]) -> bool
    ensures { result ≡ blocks_below blocks copies.now }
{
    match copies {
        [] => true,
        [copy, rest @ ..] => u16::from(copy.block) < blocks && are_below(blocks, rest),
    }
}

/// Whether a sweep body is for this receiver, and of blocks that there are.
fn sweep_suits(blocks: u16, to: u8, sweep: &SweepBody) -> bool
    ensures { result ≡ (sweep.now.target == to && blocks_below blocks sweep.now.copies) }
{
    sweep.target.index() == to && are_below(blocks, sweep.blocks.as_slice())
}

/// Whether a final body is for this receiver, and of blocks that there are.
fn final_suits(blocks: u16, to: u8, last: &FinalBody) -> bool
    ensures { result ≡ (last.now.target == to && blocks_below blocks last.now.copies) }
{
    last.target.index() == to && are_below(blocks, last.blocks.as_slice())
}

fn law_of(control: &ControlWord) -> Law
    ensures { result ≡ control.now.law }
{
    control.law
}

fn final_law(last: &FinalBody) -> Law
    ensures { result ≡ last.now.control.law }
{
    law_of(&last.control)
}

impl Format {
    /// Whether a body suits a slot and its receiver.
    fn suits(&self, slot: Slot, to: u8, body: &Body) -> bool
        ensures { result ≡ suits self.now slot to (view_body body.now) }
    {
        match body {
            Body::Request(_) => is_same(slot, Slot::Request),
            Body::Exchange(exchange) => round_of(slot) == exchange.round,
            Body::Vote(words) => {
                is_same(slot, Slot::Vote) && words.in_use().len() == usize::from(self.outputs)
            }
            Body::Sweep(sweep) => is_same(slot, Slot::Sweep) && sweep_suits(self.blocks, to, sweep),
            Body::Final(last) => {
                is_same(slot, Slot::Final)
                    && final_suits(self.blocks, to, last)
                    && is_one_law(final_law(last), self.law)
            }
            Body::Switch(_) => is_same(slot, Slot::Switch),
        }
    }

    /// Whether a frame counts that came from this sender to this receiver.
    pub(crate) fn counts(&self, cycle: u32, slot: Slot, from: Chan, to: u8, frame: &Frame) -> bool
        ensures { result ≡ counts self.now cycle slot from to frame.now }
    {
        frame.version == self.version
            && frame.sender.index() == from.index()
            && frame.cycle == cycle
            && self.suits(slot, to, &frame.body)
    }
}
