//! The rules of a mission.

use crate::Law;
use std::marker::Model;

/// The rules of diagnosis, removal and transfer.
#[derive(Clone, Copy, Debug, PartialEq, Eq)]
pub struct Rules {
    /// The number of channels, 3 to 7.
    pub channels: u8,
    /// The number of blocks of a context, 1 to 256.
    pub blocks: u16,
    /// The version of the frames, 1 or 2. The law of version 1 is Multiply.
    pub version: u8,
    /// How the count of a channel that is not errant decays.
    pub law: Law,
    /// The factor of Multiply in units of 1/65536, at most 65,536.
    pub keep: u32,
    /// What Subtract takes, in units of 1/65536, at most 6,553,600.
    pub decrement: u32,
    /// The count from which on a channel is removed, in units of 1/65536, 65,536 to 6,553,600.
    pub threshold: u32,
    /// The most blocks of a cycle's plan, 1 to 64.
    pub sweep: u8,
    /// The most blocks of a final frame, at most 64.
    pub last: u8,
    /// The most channels that one transfer restores, 1 or 2.
    pub returning: u8,
}

impl Model for Rules {
    ghost use Rattle.guards_model.specs.Missions.{RulesValue};

    ghost Value = { RulesValue };

    ghost view = { λ r. record {
      channels = r.channels;
      blocks = r.blocks;
      version = r.version;
      law = r.law;
      keep = r.keep;
      decrement = r.decrement;
      threshold = r.threshold;
      sweep = r.sweep;
      last = r.last;
      returning = r.returning;
    } };

    ghost inverse = { λ v. record {
      channels = v.channels;
      blocks = v.blocks;
      version = v.version;
      law = v.law;
      keep = v.keep;
      decrement = v.decrement;
      threshold = v.threshold;
      sweep = v.sweep;
      last = v.last;
      returning = v.returning;
    } };
}
