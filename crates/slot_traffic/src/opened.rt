//! A sender's frame with the frames that were read of its pieces.
ghost use Rattle.std.specs.Prelude.{◌≡◌, ◌==◌, ◌&&◌, IsTrue, find, option_and_then, IfOk, IfSome};
ghost use Rattle.std.specs.List.{list_any};
ghost use Rattle.std.specs.Option.{option_copied};
ghost use Rattle.guards_model.specs.Frames.{in_range};
ghost use Rattle.slot_traffic.specs.Arrivals.{SpellInRange};
ghost use Rattle.slot_traffic.specs.Pieces.{spelled_by};

use crate::parcel::Parcel;
use crate::piece::Reading;
use guards_base::{Chan, Sequence};
use icn_frames::Frame;
use std::alloc::{AllocError, Global};
use std::marker::Model;

/// A parcel, and beside each of its pieces the frame that was read of it.
#[derive(Drop)]
pub struct Opened {
    parcel: Parcel,
    readings: Sequence<Reading>,
}

impl Model for Opened {
    ghost use Rattle.slot_traffic.specs.Pieces.{ParcelValue};
    ghost use Rattle.slot_traffic.specs.Arrivals.{AreRead};

    ghost Value = { ParcelValue };

    ghost view = { λ opened. opened.parcel };

    ghost invariant = { λ opened. AreRead opened.parcel opened.readings.items };
}

impl Opened {
    /// Reads what was delivered of a parcel.
    pub fn of(alloc: Global, parcel: Parcel) -> Result<Opened, AllocError>
        ensures same { IfOk result (λ opened. opened ≡ parcel) }
        ensures spelled { IfOk result SpellInRange }
    {
        let readings = parcel.read(alloc)?;
        Ok(Opened { parcel, readings })
    }

    /// Whether the frame is of this sender, and one of its pieces went to this receiver.
    pub fn is_between(&self, from: Chan, to: u8) -> bool
        ensures { result ≡ (self.now.frame.sender == from && list_any (λ p. p.to == to) self.now.pieces) }
    {
        self.parcel.sender().index() == from.index() && self.parcel.goes_to(to)
    }

    /// The frame that the first piece to this receiver spells.
    pub fn frame_to(&self, to: u8) -> Option<&Frame>
        ensures same { option_copied result ≡ option_and_then spelled_by (find (λ p. p.to == to) self.now.pieces) }
        ensures range { IfSome result (λ frame. IsTrue (in_range frame.now)) }
    {
        self.parcel.frame_to(self.readings.as_slice(), to)
    }
}
