//! The sizes of a mission on which its drawn faults depend.

use std::marker::Model;

/// How many channels (3 to 7), cycles (up to 2,000), blocks (1 to 256) and outputs (1 to 8) there are, and the version
/// of the frames (1 or 2).
#[derive(Clone, Copy, Debug, PartialEq, Eq)]
pub struct Sizes {
    pub channels: u8,
    pub cycles: u32,
    pub blocks: u16,
    pub outputs: u8,
    pub version: u8,
}

impl Model for Sizes {
    ghost use Rattle.std.specs.Prelude.{◌≤◌};
    ghost use Rattle.campaign_draws.specs.Drawing.{SizesValue};

    ghost Value = { SizesValue };

    ghost view = { λ s. record {
      channels = s.channels;
      cycles = s.cycles;
      blocks = s.blocks;
      outputs = s.outputs;
      version = s.version;
    } };

    ghost invariant = { λ s. (3 ≤ s.channels) × (s.channels ≤ 7) × (s.cycles ≤ 2000) × (1 ≤ s.blocks) × (s.blocks ≤ 256)
        × (1 ≤ s.outputs) × (s.outputs ≤ 8) × (1 ≤ s.version) × (s.version ≤ 2) };

    ghost inverse = { λ s. record {
      channels = s.channels;
      cycles = s.cycles;
      blocks = s.blocks;
      outputs = s.outputs;
      version = s.version;
    } };
}
