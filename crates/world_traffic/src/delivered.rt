//! What arrived in a slot, as the nodes take it.
ghost use Rattle.std.specs.Prelude.{◌≡◌};
ghost use Rattle.guards_world.specs.NodeLists.{AreInRange};
ghost use Rattle.world_traffic.specs.Reading.{got_of};

use guards_base::Chan;
use icn_frames::Body;
use std::marker::Model;
use world_nodes::Arrived;

/// What arrived in a slot, by sender and receiver.
#[derive(Drop)]
pub struct Delivered {
    arrived: slot_traffic::Arrived,
}

impl Model for Delivered {
    ghost use Rattle.slot_traffic.specs.Pieces.{ArrivedValue};

    ghost Value = { ArrivedValue };

    ghost view = { λ d. d.arrived };
}

impl Delivered {
    /// What arrived, as the nodes see it.
    pub fn of(arrived: slot_traffic::Arrived) -> Delivered
        ensures { result ≡ arrived }
    {
        Delivered { arrived }
    }

    /// Whatever arrived is in range: its frame was read.
    pub fn fits(&self)
        ensures { AreInRange (got_of self.now) }
    {
        self.arrived.fits()
    }
}

impl Arrived for Delivered {
    ghost use Rattle.world_traffic.specs.Reading.{got_of};

    ghost got = { got_of };

    fn body(&self, from: Chan, to: u8) -> Option<&Body> {
        self.arrived.body(from, to)
    }
}
