//! The record of a cycle, from which its report is written.
ghost use Rattle.std.specs.Prelude.{◌<◌, All};

use crate::list::{Bytes, Sequence};
use crate::{Chan, ChanSet};
use std::marker::Model;

/// What a channel tells at the end of a cycle. Places past the mission's width, outputs and channels are not shown.
#[derive(Debug, Drop)]
pub struct ChannelLine {
    pub chan: Chan,
    pub inputs: [i64; 4],
    pub votes: [Option<i64>; 8],
    pub judged: ChanSet,
    pub alphas: [u32; 7],
}

impl Model for ChannelLine {
    ghost use Rattle.guards_model.specs.Texts.{LineValue};

    ghost Value = { LineValue };

    ghost view = { λ l. record {
      channel = l.chan;
      inputs = l.inputs;
      votes = l.votes;
      judged = l.judged;
      counts = l.alphas;
    } };
}

/// The steps of a channel's round, in order: 0 for a write and 1 for a copy.
#[derive(Debug, Drop)]
pub struct TraceLine {
    pub chan: Chan,
    pub steps: Bytes,
    ghost of_two: { All (λ s. s < 2) steps.items },
}

impl Model for TraceLine {
    ghost use Rattle.std.specs.Prelude.{map};
    ghost use Rattle.guards_model.specs.Texts.{TraceValue};
    ghost use Rattle.guards_model.specs.Records.{actor_of_step};

    ghost Value = { TraceValue };

    ghost view = { λ t. record { channel = t.chan; steps = map actor_of_step t.steps.items } };
}

/// The lines of a cycle's channels.
pub type Lines = Sequence<ChannelLine>;

/// The rounds of a cycle's channels.
pub type Traces = Sequence<TraceLine>;

/// What is told of a cycle: its active channels, the targets and the start of its transfer as they stand after the
/// decision, the lines and rounds of its channels, who was removed and who joined, and how many blocks remain.
#[derive(Debug, Drop)]
pub struct CycleRecord {
    pub cycle: u32,
    pub active: ChanSet,
    pub transfer: Option<(ChanSet, u32)>,
    pub lines: Lines,
    pub traces: Traces,
    pub removed: ChanSet,
    pub joined: ChanSet,
    pub remaining: Option<u16>,
}

impl Model for CycleRecord {
    ghost use Rattle.guards_model.specs.Texts.{RecordValue};
    ghost use Rattle.guards_model.specs.Records.{transfer_of_pair};

    ghost Value = { RecordValue };

    ghost view = { λ r. record {
      cycle = r.cycle;
      active = r.active;
      transfer = transfer_of_pair r.transfer;
      lines = r.lines.items;
      traces = r.traces.items;
      removed = r.removed;
      joined = r.joined;
      remaining = r.remaining;
    } };
}
