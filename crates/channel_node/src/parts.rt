//! What a running channel keeps of the steps of a cycle.
ghost use Rattle.std.specs.Prelude.{◌≡◌, ◌≤◌, length};

use arrayvec::ArrayVec;
use control_state::Closed;
use guards_base::ChanSet;
use icn_frames::Copies;
use std::marker::Model;
use sweep_round::Trail;

/// What it keeps of its decision. The inputs past the width are 0.
#[derive(Drop)]
pub struct Decided {
    pub judged: ChanSet,
    pub removed: ChanSet,
    pub width: u8,
    pub inputs: [i64; 4],
}

impl Model for Decided {
    ghost use Rattle.std.specs.Prelude.{take};
    ghost use Rattle.channel_node.specs.Fits.{AreInputs};
    ghost use Rattle.guards_nodes.specs.NodeStates.{DecidedValue};

    ghost Value = { DecidedValue };

    ghost view = { λ d. record { judged = d.judged; removed = d.removed; inputs = take d.width d.inputs } };

    ghost invariant = { λ d. AreInputs d.width d.inputs };
}

impl Decided {
    ghost use Rattle.std.specs.Prelude.{◌-◌, ◌++◌, pos, replicate};

    /// The four words that its writes read.
    pub fn whole_inputs(&self) -> [i64; 4]
        ensures { result ≡ self.now.inputs ++ replicate (4 - length self.now.inputs) (pos 0) }
    {
        self.inputs
    }
}

/// The trail of its round, and the copies that the round made.
#[derive(Drop)]
pub struct Worked {
    pub history: Trail,
    pub copies: Copies,
}

impl Model for Worked {
    ghost use Rattle.guards_nodes.specs.NodeStates.{WorkedValue};

    ghost Value = { WorkedValue };

    ghost use Rattle.sweep_round.specs.Trails.{trail_cycle, trail_steps};

    ghost view = { λ w. record {
      cycle = trail_cycle w.history;
      steps = trail_steps w.history;
      copies = w.copies.items;
    } };
}

/// What closing the cycle answered.
#[derive(Drop)]
pub struct Ended {
    pub joined: ChanSet,
    pub start: u32,
    pub remaining: Option<u16>,
    pub rest: ArrayVec<u8, 64>,
}

impl Model for Ended {
    ghost use Rattle.guards_model.specs.Controls.{ClosedValue};

    ghost Value = { ClosedValue };

    ghost view = { λ e. record { joined = e.joined; start = e.start; remaining = e.remaining; rest = e.rest.items } };
}

// A list of blocks of its own.
fn copied(blocks: &[u8]) -> ArrayVec<u8, 64>
    requires { length blocks.now ≤ 64 }
    ensures { result.items ≡ blocks.now }
{
    let mut copy = ArrayVec::new();
    for block in blocks {
        copy.push(*block);
    }
    copy
}

impl Ended {
    ghost use Rattle.guards_model.specs.Controls.{ClosedValue};

    /// Keeps an answer.
    pub fn of(closed: &Closed) -> Ended
        ensures { result ≡ record {
          joined = closed.now.joined;
          start = closed.now.start;
          remaining = closed.now.remaining;
          rest = closed.now.rest;
        } }
    {
        Ended {
            joined: closed.joined,
            start: closed.start,
            remaining: closed.remaining,
            rest: copied(closed.rest.as_slice()),
        }
    }
}
