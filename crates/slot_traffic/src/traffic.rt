//! The traffic of a slot, and what arrived of it.
ghost use Rattle.std.specs.Prelude.{◌≡◌, ◌≤◌, ℕ, true, IsTrue, [], length, map, take, sum_by, Some, find, option_and_then, option_map, IfOk, IfSome, OnOk, OnErr};
ghost use Rattle.std.specs.List.{AllByRecursion, list_any};
ghost use Rattle.std.specs.Option.{option_copied};
ghost use Rattle.guards_model.specs.declared.Slot.{Slot};
ghost use Rattle.guards_model.specs.Channels.{channels_where};
ghost use Rattle.guards_model.specs.Frames.{BodyValue, body_in_range, in_range, spelling};
ghost use Rattle.guards_model.specs.Fields.{frame_in};
ghost use Rattle.guards_model.specs.Network.{counted_body, is_carry};
ghost use Rattle.guards_runs.specs.Disturbed.{is_charge};
ghost use Rattle.icn_frames.specs.Bodies.{view_body};
ghost use Rattle.slot_traffic.specs.Arrivals.{IsMarked, SpellInRange, piece_value};
ghost use Rattle.slot_traffic.specs.Pieces.{entry_by, entries_of_all};
ghost use Rattle.slot_traffic.specs.Receiving.{receiver_numbers};
ghost use Rattle.slot_traffic.specs.Sending.{AreCarried, SendsFrame, SendsFirstOfFrame, carries_from};

use crate::format::Format;
use crate::opened::Opened;
use crate::parcel::{Parcel, sender_of};
use crate::piece::{Piece, carry_to_each};
use crate::receivers::Receivers;
use guards_base::{Chan, ChanSet, Sequence, Slot};
use icn_bus::Bus;
use icn_frames::{Body, Frame, encode};
use std::alloc::{AllocError, Global};
use std::marker::Model;

/// What was carried in a slot of a cycle: the frames, and of each piece what was delivered. Contracts see its entries,
/// the same as in the log of the bus.
#[derive(Drop)]
pub struct Traffic {
    alloc: Global,
    cycle: u32,
    slot: Slot,
    parcels: Sequence<Parcel>,
}

impl Model for Traffic {
    ghost use Rattle.slot_traffic.specs.Pieces.{entries_of_all};
    ghost use Rattle.guards_model.specs.Network.{TrafficValue};

    ghost Value = { TrafficValue };

    ghost view = { λ t. record {
      cycle = t.cycle;
      slot = t.slot;
      entries = entries_of_all t.cycle t.slot t.parcels.items;
    } };
}

/// The traffic of a slot, read by a format.
#[derive(Drop)]
pub struct Arrived {
    format: Format,
    cycle: u32,
    slot: Slot,
    parcels: Sequence<Opened>,
}

impl Model for Arrived {
    ghost use Rattle.std.specs.List.{AllByRecursion};
    ghost use Rattle.slot_traffic.specs.Arrivals.{SpellInRange};
    ghost use Rattle.slot_traffic.specs.Pieces.{ArrivedValue, entries_of_all};

    ghost Value = { ArrivedValue };

    ghost invariant = { λ a. AllByRecursion SpellInRange a.parcels.items };

    ghost view = { λ a. record {
      format = a.format;
      traffic = record {
        cycle = a.cycle;
        slot = a.slot;
        entries = entries_of_all a.cycle a.slot a.parcels.items;
      };
    } };
}

/// Encodes a frame once, and carries it to each receiver but its sender. The list gets what was delivered, also where
/// memory ran out after the first few.
fn carried<B: Bus>(
    alloc: Global,
    bus: &mut B,
    cycle: u32,
    slot: Slot,
    frame: &Frame,
    receivers: Receivers,
    pieces: &mut Sequence<Piece>,
) -> Result<(), AllocError>
    requires range { IsTrue (in_range frame.now) }
    requires empty { pieces.old.items ≡ [] }
    ensures script { (B.seen bus.new).script ≡ (B.seen bus.old).script }
    ensures sent { OnOk result
        (let entries = map (entry_by cycle slot frame.now.sender (spelling frame.now))
        (map (piece_value (spelling frame.now)) pieces.new.items) in
        AreCarried B.may (B.seen bus.old).script (B.seen bus.old).log (B.seen bus.new).log (spelling frame.now)
        (carries_from cycle slot frame.now.sender (receiver_numbers receivers)) entries) }
    ensures some { OnErr result
        (let entries = map (entry_by cycle slot frame.now.sender (spelling frame.now))
        (map (piece_value (spelling frame.now)) pieces.new.items) in
        AreCarried B.may (B.seen bus.old).script (B.seen bus.old).log (B.seen bus.new).log (spelling frame.now)
        (take (length entries) (carries_from cycle slot frame.now.sender (receiver_numbers receivers))) entries) }
    ensures marked { AllByRecursion (IsMarked (spelling frame.now)) pieces.new.items }
{
    let sender = sender_of(frame);
    let numbers = receivers.but(alloc, sender)?;
    let sent = encode(alloc, frame)?;
    pieces.reserve(numbers.len())?;
    match carry_to_each(
        bus,
        cycle,
        slot,
        sender,
        numbers.as_slice(),
        sent.as_slice(),
        pieces,
    ) {
        Ok(()) => Ok(()),
        Err(error) => Err(error),
    }
}

/// The senders of whom a piece was not delivered as sent.
fn charged_of(parcels: &[Parcel]) -> ChanSet
    ensures { (c : ℕ) (slot : Slot) →
        result ≡ channels_where (λ q. list_any (is_charge c slot q) (entries_of_all c slot parcels.now)) }
{
    let Some((parcel, rest)) = parcels.split_first() else {
        return ChanSet::empty();
    };
    let others = charged_of(rest);
    if parcel.is_changed() {
        others.with(parcel.sender())
    } else {
        others
    }
}

/// The number of pieces of these.
fn pieces_in(parcels: &[Parcel]) -> usize
    requires { sum_by (λ p. length p.pieces) parcels.now ≤ usize.MAX }
    ensures { result ≡ sum_by (λ p. length p.pieces) parcels.now }
{
    match parcels {
        [] => 0,
        [parcel, rest @ ..] => parcel.len() + pieces_in(rest),
    }
}

/// Reads each parcel.
fn opened(alloc: Global, parcels: Vec<Parcel>) -> Result<Sequence<Opened>, AllocError>
    ensures same { IfOk result (λ all. all.items ≡ parcels.items) }
    ensures spelled { IfOk result (λ all. AllByRecursion SpellInRange all.items) }
{
    let mut all = Sequence::new(alloc);
    for parcel in parcels {
        let one = Opened::of(alloc, parcel)?;
        all.push(one)?;
    }
    Ok(all)
}

/// The frame that the first piece between these two spells.
fn frame_between(parcels: &[Opened], from: Chan, to: u8) -> Option<&Frame>
    ensures same { (c : ℕ) (slot : Slot) →
        option_copied result ≡ option_and_then frame_in (option_and_then (λ e. e.delivered)
        (find (is_carry c slot from to) (entries_of_all c slot parcels.now))) }
    ensures range { IfSome result (λ frame. IsTrue (in_range frame.now)) }
{
    let (parcel, rest) = parcels.split_first()?;
    if parcel.is_between(from, to) {
        parcel.frame_to(to)
    } else {
        frame_between(rest, from, to)
    }
}

impl Traffic {
    /// Nothing was carried yet in this slot.
    pub fn begin(alloc: Global, cycle: u32, slot: Slot) -> Traffic
        ensures { result ≡ record { cycle = cycle; slot = slot; entries = [] } }
    {
        Traffic {
            alloc,
            cycle,
            slot,
            parcels: Sequence::new(alloc),
        }
    }

    /// Carries a frame to each receiver but its sender, in ascending order. It is encoded once.
    ///
    /// For want of memory the first few receivers may have been served, and the traffic has their entries.
    pub fn send<B: Bus>(
        &mut self,
        bus: &mut B,
        frame: Frame,
        receivers: Receivers,
    ) -> Result<(), AllocError>
        requires { IsTrue (in_range frame) }
        ensures script { (B.seen bus.new).script ≡ (B.seen bus.old).script }
        ensures sent { OnOk result
            (SendsFrame B.may (B.seen bus.old).script (B.seen bus.old).log (B.seen bus.new).log (spelling frame)
            (carries_from self.old.cycle self.old.slot frame.sender (receiver_numbers receivers)) self.old self.new) }
        ensures some { OnErr result
            (SendsFirstOfFrame B.may (B.seen bus.old).script (B.seen bus.old).log (B.seen bus.new).log (spelling frame)
            (carries_from self.old.cycle self.old.slot frame.sender (receiver_numbers receivers)) self.old self.new) }
    {
        self.parcels.reserve(1)?;
        let mut pieces = Sequence::new(self.alloc);
        let served = carried(
            self.alloc,
            bus,
            self.cycle,
            self.slot,
            &frame,
            receivers,
            &mut pieces,
        );
        self.parcels.push_reserved(Parcel::new(frame, pieces));
        served
    }

    /// The cycle of the slot.
    pub fn cycle(&self) -> u32
        ensures { result ≡ self.now.cycle }
    {
        self.cycle
    }

    /// The slot.
    pub fn slot(&self) -> Slot
        ensures { result ≡ self.now.slot }
    {
        self.slot
    }

    /// The number of entries.
    pub fn len(&self) -> usize
        requires { length self.now.entries ≤ usize.MAX }
        ensures { result ≡ length self.now.entries }
    {
        pieces_in(self.parcels.as_slice())
    }

    /// The senders of whom a piece was not delivered as sent.
    pub fn charged(&self) -> ChanSet
        ensures { result ≡ channels_where (λ q. list_any (is_charge self.now.cycle self.now.slot q) self.now.entries) }
    {
        charged_of(self.parcels.as_slice())
    }

    /// Reads what was delivered. What arrived as sent is not decoded.
    pub fn read(self, format: Format) -> Result<Arrived, AllocError>
        ensures { IfOk result (λ arrived. arrived ≡ record { format = format; traffic = self }) }
    {
        Ok(Arrived {
            format,
            cycle: self.cycle,
            slot: self.slot,
            parcels: opened(self.alloc, self.parcels.into_vec())?,
        })
    }
}

impl Arrived {
    /// What a receiver, a channel or 7 for the switchboard, received of a sender: nothing where nothing was carried
    /// between them or delivered, or where it does not count.
    pub fn body(&self, from: Chan, to: u8) -> Option<&Body>
        ensures received { option_map view_body (option_copied result)
            ≡ counted_body self.now.format self.now.traffic.entries self.now.traffic.cycle self.now.traffic.slot from
            to }
        ensures range { IfSome result
            (λ body. IsTrue (body_in_range self.now.format.version from (view_body body.now))) }
    {
        let frame = frame_between(self.parcels.as_slice(), from, to)?;
        if self.format.counts(self.cycle, self.slot, from, to, frame) {
            Some(&frame.body)
        } else {
            None
        }
    }
    /// Whatever counts is in range of the format's version: its frame was read.
    pub fn fits(&self)
        ensures { (from to : ℕ) (body : BodyValue) →
            counted_body self.now.format self.now.traffic.entries self.now.traffic.cycle self.now.traffic.slot from to
            ≡ Some body →
            body_in_range self.now.format.version from body ≡ true }
    {
        let _slot = self.slot;
    }
}
