//! The frame of a sender, with what was delivered of it.
ghost use Rattle.std.specs.Prelude.{◌≡◌, ◌==◌, ℕ, List, IsTrue, length, map, find, option_and_then, IfOk, IfSome};
ghost use Rattle.std.specs.List.{AllByRecursion, list_any};
ghost use Rattle.std.specs.Option.{option_copied};
ghost use Rattle.guards_model.specs.Frames.{FrameValue, in_range, spelling};
ghost use Rattle.guards_model.specs.Fields.{frame_in};
ghost use Rattle.guards_runs.specs.Disturbed.{differs_from};
ghost use Rattle.slot_traffic.specs.Arrivals.{AreRead, IsReadingInRange, IsMarked, delivered_of, is_changed, piece_value, reading_value};
ghost use Rattle.slot_traffic.specs.Pieces.{spelled_by};

use crate::piece::{Arrival, Piece, Reading};
use guards_base::{Chan, Sequence};
use icn_frames::{Frame, decode};
use std::alloc::{AllocError, Global};
use std::marker::Model;

/// A frame that has a spelling, and its pieces in the order in which they were carried.
#[derive(Drop)]
pub struct Parcel {
    frame: Frame,
    pieces: Sequence<Piece>,
}

impl Model for Parcel {
    ghost use Rattle.std.specs.Prelude.{map};
    ghost use Rattle.guards_model.specs.Frames.{spelling};
    ghost use Rattle.slot_traffic.specs.Pieces.{ParcelValue};
    ghost use Rattle.slot_traffic.specs.Arrivals.{IsParcel, piece_value};

    ghost Value = { ParcelValue };

    ghost view = { λ parcel. record {
      frame = parcel.frame;
      pieces = map (piece_value (spelling parcel.frame)) parcel.pieces.items;
    } };

    ghost invariant = { λ parcel. IsParcel parcel.frame parcel.pieces.items };
}

/// Who sends a frame.
pub fn sender_of(frame: &Frame) -> Chan
    ensures { result ≡ frame.now.sender }
{
    frame.sender
}

/// Whether one of the pieces did not arrive as sent.
fn any_changed(pieces: &[Piece]) -> bool
    ensures { result ≡ list_any (λ p. is_changed p.arrival) pieces.now }
{
    match pieces {
        [] => false,
        [piece, rest @ ..] => match &piece.arrival {
            Arrival::AsSent => any_changed(rest),
            Arrival::Lost => true,
            Arrival::Changed(_) => true,
        },
    }
}

/// Whether one of the pieces went to this receiver.
fn goes_to(pieces: &[Piece], to: u8) -> bool
    ensures { result ≡ list_any (λ p. p.to == to) pieces.now }
{
    match pieces {
        [] => false,
        [piece, rest @ ..] => piece.to == to || goes_to(rest, to),
    }
}

/// Reads the frame of a piece, if it spells one. What arrived as sent is not decoded.
fn reading(alloc: Global, arrival: &Arrival) -> Result<Reading, AllocError>
    ensures same { IfOk result (λ reading. (f : FrameValue) → IsTrue (in_range f) →
        reading_value f reading ≡ option_and_then frame_in (delivered_of (spelling f) arrival.now)) }
    ensures range { IfOk result IsReadingInRange }
{
    match arrival {
        Arrival::AsSent => Ok(Reading::Own),
        Arrival::Lost => Ok(Reading::Other(None)),
        Arrival::Changed(piece) => Ok(Reading::Other(decode(alloc, piece.as_slice())?)),
    }
}

/// Reads the frame of each piece.
fn readings(alloc: Global, pieces: &[Piece]) -> Result<Sequence<Reading>, AllocError>
    ensures same { IfOk result (λ readings. (f : FrameValue) → IsTrue (in_range f) →
        map (reading_value f) readings.items ≡ map spelled_by (map (piece_value (spelling f)) pieces.now)) }
    ensures range { IfOk result (λ readings. AllByRecursion IsReadingInRange readings.items) }
{
    let mut readings = Sequence::new(alloc);
    for piece in pieces {
        let found = reading(alloc, &piece.arrival)?;
        readings.push(found)?;
    }
    Ok(readings)
}

/// The frame of a reading.
fn frame_of<'a>(own: &'a Frame, reading: &'a Reading) -> Option<&'a Frame>
    ensures same { option_copied result ≡ reading_value own.now reading.now }
    ensures range { IsTrue (in_range own.now) → IsReadingInRange reading.now →
        IfSome result (λ frame. IsTrue (in_range frame.now)) }
{
    match reading {
        Reading::Own => Some(own),
        Reading::Other(found) => found.as_ref(),
    }
}

/// The frame that was read of the first piece to this receiver.
fn first_frame<'a>(
    own: &'a Frame,
    pieces: &'a [Piece],
    readings: &'a [Reading],
    to: u8,
) -> Option<&'a Frame>
    ensures same { (sent : List ℕ) →
        map (reading_value own.now) readings.now ≡ map spelled_by (map (piece_value sent) pieces.now) →
        option_copied result ≡ option_and_then spelled_by (find (λ p. p.to == to) (map (piece_value sent) pieces.now)) }
    ensures range { IsTrue (in_range own.now) → AllByRecursion IsReadingInRange readings.now →
        IfSome result (λ frame. IsTrue (in_range frame.now)) }
{
    match pieces {
        [] => None,
        [piece, others @ ..] => match readings {
            [] => None,
            [reading, later @ ..] => {
                if piece.to == to {
                    frame_of(own, reading)
                } else {
                    first_frame(own, others, later, to)
                }
            }
        },
    }
}

impl Parcel {
    /// A frame with the pieces that carried it.
    pub fn new(frame: Frame, pieces: Sequence<Piece>) -> Parcel
        requires range { IsTrue (in_range frame) }
        requires marked { AllByRecursion (IsMarked (spelling frame)) pieces.items }
        ensures { result ≡ record { frame = frame; pieces = map (piece_value (spelling frame)) pieces.items } }
    {
        Parcel { frame, pieces }
    }

    /// The sender of the frame.
    pub fn sender(&self) -> Chan
        ensures { result ≡ self.now.frame.sender }
    {
        sender_of(&self.frame)
    }

    /// The number of its pieces.
    pub fn len(&self) -> usize
        ensures { result ≡ length self.now.pieces }
    {
        self.pieces.len()
    }

    /// Whether one of the pieces was not delivered as sent.
    pub fn is_changed(&self) -> bool
        ensures { result ≡ list_any (λ p. differs_from (spelling self.now.frame) p.delivered) self.now.pieces }
    {
        any_changed(self.pieces.as_slice())
    }

    /// Whether one of the pieces went to this receiver.
    pub fn goes_to(&self, to: u8) -> bool
        ensures { result ≡ list_any (λ p. p.to == to) self.now.pieces }
    {
        goes_to(self.pieces.as_slice(), to)
    }

    /// Reads the frame of each piece. What arrived as sent is not decoded: it spells the sender's own frame.
    pub fn read(&self, alloc: Global) -> Result<Sequence<Reading>, AllocError>
        ensures { IfOk result (λ readings. AreRead self.now readings.items) }
    {
        readings(alloc, self.pieces.as_slice())
    }

    /// The frame that was read of the first piece to this receiver.
    pub fn frame_to<'a>(&'a self, readings: &'a [Reading], to: u8) -> Option<&'a Frame>
        requires { AreRead self.now readings.now }
        ensures same { option_copied result ≡ option_and_then spelled_by (find (λ p. p.to == to) self.now.pieces) }
        ensures range { IfSome result (λ frame. IsTrue (in_range frame.now)) }
    {
        first_frame(&self.frame, self.pieces.as_slice(), readings, to)
    }
}
