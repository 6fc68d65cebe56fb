//! The traffic of single slots over both kinds of bus. What owns frames or pieces has one way out, or drops them by
//! name: each place where they may end costs the proof seconds.
use context_blocks::Block;
use guards_base::{Ballot, Bytes, Chan, ChanSet, Law, Slot};
use icn_bus::{Act, Acts, Bus, Entry, MemBus, Rule, ScriptBus};
use icn_frames::{BlockCopy, Body, Copies, Frame, SweepBody, encode};
use slot_traffic::{Arrived, Format, Receivers, Traffic};
use std::alloc::{AllocError, Global};
use std::test::Fail;

/// The vote of channel 0 in cycle 4 for the word 5.
const FIVE: [u8; 17] = [0x47, 1, 3, 0, 0, 0, 0, 4, 1, 0, 0, 0, 0, 0, 0, 0, 5];

/// The vote of channel 1 in cycle 4 for the word 9.
const NINE: [u8; 17] = [0x47, 1, 3, 1, 0, 0, 0, 4, 1, 0, 0, 0, 0, 0, 0, 0, 9];

const FORMAT: Format = Format {
    version: 1,
    law: Law::Multiply,
    blocks: 2,
    outputs: 1,
};

/// What came of a slot: whether each frame had a spelling, the receivers of the entries, in order and as digits, the
/// mask of those who are charged, and how many rows hold of what is received.
#[derive(Clone, Copy, PartialEq, Eq, Debug)]
struct Told {
    sent: bool,
    to: u64,
    charged: u8,
    rows: u32,
}

fn channel(number: u8) -> Result<Chan, Fail> {
    Ok(Chan::new(number).ok_or("a channel")?)
}

/// A frame of cycle 4.
fn frame(sender: Chan, body: Body) -> Frame {
    Frame {
        version: 1,
        sender,
        cycle: 4,
        body,
    }
}

/// One copy of block 1 for a target.
fn sweep(alloc: Global, target: Chan) -> Result<Body, AllocError> {
    let mut blocks = Copies::new(alloc);
    blocks.push(BlockCopy {
        block: 1,
        words: Block {
            words: [1, 2, 3, 4, 5, 6, 7, 8],
        },
    })?;
    Ok(Body::Sweep(SweepBody {
        target,
        start: 3,
        blocks,
    }))
}

/// Sends a frame, if it has a spelling.
fn send<B: Bus>(
    traffic: &mut Traffic,
    bus: &mut B,
    frame: Frame,
    receivers: Receivers,
) -> Result<bool, AllocError> {
    if frame.in_range() {
        match traffic.send(bus, frame, receivers) {
            Ok(()) => Ok(true),
            Err(error) => Err(error),
        }
    } else {
        drop(frame);
        Ok(false)
    }
}

/// The bytes of a frame, or none where it has no spelling.
fn spelled(alloc: Global, frame: &Frame) -> Result<Bytes, AllocError> {
    if frame.in_range() {
        encode(alloc, frame)
    } else {
        Ok(Bytes::new(alloc))
    }
}

/// The receivers of entries, in order and as digits.
fn receivers(log: &[Entry]) -> u64 {
    let mut digits: u64 = 0;
    for entry in log {
        digits = digits
            .saturating_mul(10)
            .saturating_add(u64::from(entry.to));
    }
    digits
}

/// The word for which a receiver saw a sender vote: -1 where it received nothing that counts, 0 where no vote.
fn received(arrived: &Arrived, from: Chan, to: u8) -> i64 {
    let Some(body) = arrived.body(from, to) else {
        return -1;
    };
    match body {
        Body::Vote(words) => words.in_use().first().copied().unwrap_or(0),
        _ => 0,
    }
}

/// Whether a row holds: a sender, a receiver, and what it received.
fn holds(arrived: &Arrived, row: &str) -> bool {
    let mut fields = row.split(' ');
    let from = fields.next().and_then(|field| field.parse::<u8>().ok());
    let to = fields.next().and_then(|field| field.parse::<u8>().ok());
    let wanted = fields.next().and_then(|field| field.parse::<i64>().ok());
    let (Some(from), Some(to), Some(wanted)) = (from, to, wanted) else {
        return false;
    };
    match Chan::new(from) {
        Some(from) => received(arrived, from, to) == wanted,
        None => false,
    }
}

/// How many rows hold.
fn holding(arrived: &Arrived, rows: &str) -> u32 {
    let mut count: u32 = 0;
    for row in rows.lines() {
        if holds(arrived, row) {
            count = count.saturating_add(1);
        }
    }
    count
}

/// What came of a slot.
fn outcome(traffic: Traffic, log: &[Entry], sent: bool, rows: &str) -> Result<Told, AllocError> {
    let charged = traffic.charged().mask();
    let arrived = traffic.read(FORMAT)?;
    let rows = holding(&arrived, rows);
    drop(arrived);
    Ok(Told {
        sent,
        to: receivers(log),
        charged,
        rows,
    })
}

fn push_forged(alloc: Global, acts: &mut Acts, piece: &[u8]) -> Result<(), AllocError> {
    let piece = Bytes::from_slice(alloc, piece)?;
    acts.push(Some(Act::Forge(piece)))
}

/// Of channel 0's vote the second piece is lost; of channel 1's the first one is channel 0's vote and the second one
/// votes for 9; channel 2's are as sent; of channel 3's the first one is no frame.
fn push_acts(alloc: Global, acts: &mut Acts) -> Result<(), AllocError> {
    acts.push(None)?;
    acts.push(Some(Act::Lose))?;
    acts.push(None)?;
    push_forged(alloc, acts, &FIVE)?;
    push_forged(alloc, acts, &NINE)?;
    for _ in 0..4u8 {
        acts.push(None)?;
    }
    push_forged(alloc, acts, &[1, 2, 3])
}

/// Four channels vote for 5, 6, 7 and 8.
fn send_votes<B: Bus>(traffic: &mut Traffic, bus: &mut B) -> Result<bool, Fail> {
    let mut sent = true;
    for sender in 0..4u8 {
        let ballot = Ballot::of(&[5 + i64::from(sender)]);
        let frame = frame(channel(sender)?, Body::Vote(ballot));
        let all = Receivers::Channels(ChanSet::below(4));
        let is_sent = send(traffic, bus, frame, all)?;
        sent = sent && is_sent;
    }
    Ok(sent)
}

fn votes(alloc: Global, rows: &str) -> Result<Told, Fail> {
    let mut acts = Acts::new(alloc);
    push_acts(alloc, &mut acts)?;
    let mut bus = MemBus::new(alloc, acts);
    let mut traffic = Traffic::begin(alloc, 4, Slot::Vote);
    let sent = send_votes(&mut traffic, &mut bus)?;
    Ok(outcome(traffic, bus.log(), sent, rows)?)
}

const VOTES: &str = "0 1 5
0 2 -1
1 0 -1
1 2 9
1 3 6
2 0 7
3 0 -1
2 2 -1
";

#[test]
fn votes_are_charged_and_read(rt: HostRuntime) -> Result<(), Fail> {
    let told = votes(rt.alloc(), VOTES)?;
    assert_eq!(rt;
        told,
        Told {
            sent: true,
            to: 123_023_013_012,
            charged: 0b1011,
            rows: 8
        }
    );
    Ok(())
}

/// The second piece is one of channel 0 for channel 2.
fn push_copy(alloc: Global, acts: &mut Acts) -> Result<(), Fail> {
    acts.push(None)?;
    let frame = frame(channel(0)?, sweep(alloc, channel(2)?)?);
    let piece = spelled(alloc, &frame);
    drop(frame);
    acts.push(Some(Act::Forge(piece?)))?;
    Ok(())
}

/// Channel 0 sends a copy to a target alone.
fn send_copy<B: Bus>(
    alloc: Global,
    traffic: &mut Traffic,
    bus: &mut B,
    target: u8,
) -> Result<bool, Fail> {
    let target = channel(target)?;
    let frame = frame(channel(0)?, sweep(alloc, target)?);
    let to = Receivers::Channels(ChanSet::empty().with(target));
    Ok(send(traffic, bus, frame, to)?)
}

fn copies(alloc: Global, rows: &str) -> Result<Told, Fail> {
    let mut acts = Acts::new(alloc);
    push_copy(alloc, &mut acts)?;
    let mut bus = MemBus::new(alloc, acts);
    let mut traffic = Traffic::begin(alloc, 4, Slot::Sweep);
    let first = send_copy(alloc, &mut traffic, &mut bus, 2)?;
    let second = send_copy(alloc, &mut traffic, &mut bus, 3)?;
    Ok(outcome(traffic, bus.log(), first && second, rows)?)
}

/// A copy for one target does not count where it arrives at another one.
#[test]
fn copies_are_for_their_target(rt: HostRuntime) -> Result<(), Fail> {
    let told = copies(rt.alloc(), "0 2 0\n0 3 -1\n")?;
    assert_eq!(rt;
        told,
        Told {
            sent: true,
            to: 23,
            charged: 1,
            rows: 2
        }
    );
    Ok(())
}

/// The rule of a script loses channel 1's piece to the switchboard.
fn load_loss(bus: &mut ScriptBus) -> Result<(), Fail> {
    let rule = Rule {
        cycle: 4,
        slot: Slot::Switch,
        from: channel(1)?,
        to: Some(7),
        act: Act::Lose,
    };
    Ok(bus.load(&[rule])?)
}

/// Channels 0 and 1 send the set of three.
fn send_sets<B: Bus>(traffic: &mut Traffic, bus: &mut B) -> Result<bool, Fail> {
    let mut sent = true;
    for sender in 0..2u8 {
        let frame = frame(channel(sender)?, Body::Switch(ChanSet::below(3)));
        let is_sent = send(traffic, bus, frame, Receivers::Switchboard)?;
        sent = sent && is_sent;
    }
    Ok(sent)
}

fn sets(alloc: Global, rows: &str) -> Result<Told, Fail> {
    let mut bus = ScriptBus::empty(alloc);
    load_loss(&mut bus)?;
    let mut traffic = Traffic::begin(alloc, 4, Slot::Switch);
    let sent = send_sets(&mut traffic, &mut bus)?;
    Ok(outcome(traffic, bus.log(), sent, rows)?)
}

#[test]
fn switchboard_receives(rt: HostRuntime) -> Result<(), Fail> {
    let told = sets(rt.alloc(), "0 7 0\n1 7 -1\n")?;
    assert_eq!(rt;
        told,
        Told {
            sent: true,
            to: 77,
            charged: 2,
            rows: 2
        }
    );
    Ok(())
}
