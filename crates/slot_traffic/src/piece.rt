//! The pieces of one frame: what was delivered to each receiver.
ghost use Rattle.std.specs.Prelude.{◌≡◌, ◌≤◌, [], bytes_eq, length, map, OnOk, OnErr};
ghost use Rattle.std.specs.List.{AllByRecursion};
ghost use Rattle.guards_runs.specs.Disturbed.{differs_from};
ghost use Rattle.icn_bus.specs.Deliveries.{delivery_value};
ghost use Rattle.slot_traffic.specs.Arrivals.{IsMarked, delivered_of, is_changed, piece_value};
ghost use Rattle.slot_traffic.specs.Carried.{AreDelivered, AreSomeDelivered};

use guards_base::{Bytes, Chan, Sequence, Slot};
use icn_bus::{Bus, Delivery};
use icn_frames::Frame;
use std::alloc::{AllocError, Global};

/// What was delivered of a piece.
#[derive(Drop)]
pub enum Arrival {
    /// It arrived as it was sent.
    AsSent,
    Lost,
    /// These bytes arrived, which are not the ones that were sent.
    Changed(Bytes),
}

/// What was delivered to a receiver, a channel or 7 for the switchboard.
#[derive(Drop)]
pub struct Piece {
    pub to: u8,
    pub arrival: Arrival,
}

/// The frame that was read of a piece.
#[derive(Drop)]
pub enum Reading {
    /// That of the sender.
    Own,
    /// This one, or none.
    Other(Option<Frame>),
}

/// Whether two pieces are equal: four bytes at a time.
fn is_same(a: &[u8], b: &[u8]) -> bool
    ensures { result ≡ bytes_eq a.now b.now }
{
    match (a, b) {
        ([a0, a1, a2, a3, xs @ ..], [b0, b1, b2, b3, ys @ ..]) => {
            *a0 == *b0 && *a1 == *b1 && *a2 == *b2 && *a3 == *b3 && is_same(xs, ys)
        }
        ([x, xs @ ..], [y, ys @ ..]) => *x == *y && is_same(xs, ys),
        ([], []) => true,
        _ => false,
    }
}

/// Compares what was delivered with what was sent, where they may differ.
fn arrival_of(sent: &[u8], delivered: Delivery) -> Arrival
    ensures delivered { delivered_of sent.now result ≡ delivery_value sent.now delivered }
    ensures marked { is_changed result ≡ differs_from sent.now (delivered_of sent.now result) }
{
    match delivered {
        Delivery::AsSent => Arrival::AsSent,
        Delivery::Lost => Arrival::Lost,
        Delivery::Other(piece) => {
            if is_same(sent, piece.as_slice()) {
                Arrival::AsSent
            } else {
                Arrival::Changed(piece)
            }
        }
    }
}

/// Carries a piece to each receiver, in order, and puts what was delivered into the list, which has room for it. For
/// want of memory the first few receivers were served, and the list has their pieces.
pub fn carry_to_each<B: Bus>(
    bus: &mut B,
    cycle: u32,
    slot: Slot,
    from: Chan,
    receivers: &[u8],
    sent: &[u8],
    pieces: &mut Sequence<Piece>,
) -> Result<(), AllocError>
    requires empty { pieces.old.items ≡ [] }
    requires room { length receivers.now ≤ pieces.old.spare }
    ensures script { (B.seen bus.new).script ≡ (B.seen bus.old).script }
    ensures carried { OnOk result (AreDelivered B.may (B.seen bus.old).script (B.seen bus.old).log (B.seen bus.new).log
        cycle slot from receivers.now sent.now (map (piece_value sent.now) pieces.new.items)) }
    ensures some { OnErr result
        (AreSomeDelivered B.may (B.seen bus.old).script (B.seen bus.old).log (B.seen bus.new).log
        cycle slot from receivers.now sent.now (map (piece_value sent.now) pieces.new.items)) }
    ensures marked { AllByRecursion (IsMarked sent.now) pieces.new.items }
{
    for to in receivers {
        let delivered = bus.pass(cycle, slot, from, *to, sent)?;
        let arrival = arrival_of(sent, delivered);
        pieces.push_reserved(Piece { to: *to, arrival });
    }
    Ok(())
}
