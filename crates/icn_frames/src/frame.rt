//! Frames and their parts. Contracts see each as a plain value of `guards_model`.

use context_blocks::Block;
use guards_base::{Ballot, Chan, ChanSet, Sequence, SourceWord};
use guards_model::Law;
use std::marker::Model;

/// The labels of a path: its source, and the relay after it.
#[derive(Clone, Copy, Debug, PartialEq, Eq)]
pub struct Labels {
    /// The number of labels in use, at most 2. The labels past it are 0.
    pub count: u8,
    pub at: [u8; 2],
}

impl Model for Labels {
    ghost use Rattle.std.specs.Prelude.{ℕ, List, length, take};
    ghost use Rattle.std.proofs.Common.{ap};
    ghost use Rattle.icn_frames.specs.Paths.{IsLabelPath, both_places, labels_back};

    ghost Value = { List ℕ };

    ghost view = { λ labels. take labels.count labels.at };

    ghost invariant = { λ labels. IsLabelPath labels.count labels.at };

    ghost inverse = { λ path. record { count = length path; at = both_places path } };

    ghost inverse_ok = { λ labels h.
        ap (λ used. record { count = used.0; at = used.1 }) (labels_back labels.count labels.at h) };
}

/// What the sender holds for a path. A word that is None is missing.
#[derive(Clone, Copy, Debug, PartialEq, Eq)]
pub struct Item {
    pub path: Labels,
    pub word: Option<SourceWord>,
}

impl Model for Item {
    ghost use Rattle.guards_model.specs.Frames.{ItemValue};

    ghost Value = { ItemValue };

    ghost view = { λ item. record { path = item.path; word = item.word } };

    ghost inverse = { λ item. record { path = item.path; word = item.word } };
}

/// A list of items.
pub type Items = Sequence<Item>;

/// What a member relays in a round.
#[derive(Debug, Drop)]
pub struct Exchange {
    /// The round, 1 to 3: the paths of its items have one label less.
    pub round: u8,
    pub items: Items,
}

impl Model for Exchange {
    ghost use Rattle.guards_model.specs.Frames.{ExchangeValue};

    ghost Value = { ExchangeValue };

    ghost view = { λ exchange. record { round = exchange.round; items = exchange.items.items } };
}

/// A block of the sender's context.
#[derive(Clone, Copy, Debug, PartialEq, Eq)]
pub struct BlockCopy {
    pub block: u8,
    pub words: Block,
}

impl Model for BlockCopy {
    ghost use Rattle.guards_model.specs.Frames.{CopyValue};

    ghost Value = { CopyValue };

    ghost view = { λ copy. record { block = copy.block; words = copy.words.words } };

    ghost inverse = { λ copy. record { block = copy.block; words = record { words = copy.words } } };
}

/// A list of copies.
pub type Copies = Sequence<BlockCopy>;

/// What a joining channel is sent in a cycle of its transfer.
#[derive(Debug, Drop)]
pub struct SweepBody {
    pub target: Chan,
    /// The cycle in which the transfer started.
    pub start: u32,
    pub blocks: Copies,
}

impl Model for SweepBody {
    ghost use Rattle.guards_model.specs.Frames.{SweepValue};

    ghost Value = { SweepValue };

    ghost view = { λ sweep. record { target = sweep.target; start = sweep.start; copies = sweep.blocks.items } };
}

/// The control that a joined channel begins with.
#[derive(Clone, Copy, Debug, PartialEq, Eq)]
pub struct ControlWord {
    /// The law by which the counts decay.
    pub law: Law,
    pub active: ChanSet,
    /// The channels that joined in the cycle before.
    pub fresh: ChanSet,
    /// The alpha-counts by channel, in units of 1/65536.
    pub alphas: [u32; 7],
}

impl Model for ControlWord {
    ghost use Rattle.guards_model.specs.Frames.{ControlWordValue};

    ghost Value = { ControlWordValue };

    ghost view = { λ word. record { law = word.law; active = word.active; fresh = word.fresh; counts = word.alphas } };

    ghost inverse = { λ word.
        record { law = word.law; active = word.active; fresh = word.fresh; alphas = word.counts } };
}

/// What a joining channel is sent at the end of its transfer.
#[derive(Debug, Drop)]
pub struct FinalBody {
    pub target: Chan,
    /// The cycle in which the transfer started.
    pub start: u32,
    pub blocks: Copies,
    pub control: ControlWord,
}

impl Model for FinalBody {
    ghost use Rattle.guards_model.specs.Frames.{FinalValue};

    ghost Value = { FinalValue };

    ghost view = { λ last. record {
      target = last.target;
      start = last.start;
      copies = last.blocks.items;
      control = last.control;
    } };
}

/// A list of sweep bodies.
pub type Sweeps = Sequence<SweepBody>;

/// A list of final bodies.
pub type Finals = Sequence<FinalBody>;

/// The content of a frame, by its kind.
#[derive(Debug, Drop)]
pub enum Body {
    /// The start of the transfer whose copies the sender has, if any.
    Request(Option<u32>),
    Exchange(Exchange),
    Vote(Ballot),
    Sweep(SweepBody),
    Final(FinalBody),
    /// The active set of the next cycle.
    Switch(ChanSet),
}

/// What a channel sends.
#[derive(Debug, Drop)]
pub struct Frame {
    pub version: u8,
    pub sender: Chan,
    pub cycle: u32,
    pub body: Body,
}

impl Model for Frame {
    ghost use Rattle.guards_model.specs.Frames.{FrameValue};

    ghost Value = { FrameValue };

    ghost use Rattle.icn_frames.specs.Bodies.{view_body};

    ghost view = { λ frame. record {
      version = frame.version;
      sender = frame.sender;
      cycle = frame.cycle;
      body = view_body frame.body;
    } };
}
