//! The records that the tests write.
ghost use Rattle.std.specs.Prelude.{◌<◌, All};

use guards_base::{Bytes, Chan, ChanSet, ChannelLine, CycleRecord, Lines, TraceLine, Traces};
use std::alloc::{AllocError, Global};

fn chan(number: u8) -> Chan {
    let Some(chan) = Chan::new(number % 7) else {
        unreachable!()
    };
    chan
}

/// The set whose mask is the number's last seven bits.
pub fn set(mask: u8) -> ChanSet {
    let Some(set) = ChanSet::from_mask(mask % 128) else {
        unreachable!()
    };
    set
}

/// A cycle of four channels in which nothing goes wrong.
pub fn quiet_cycle(alloc: Global, cycle: u32, vote: i64) -> Result<CycleRecord, AllocError> {
    let mut lines = Lines::new(alloc);
    for number in 0..4 {
        lines.push(ChannelLine {
            chan: chan(number),
            inputs: [5, 0, 0, 0],
            votes: [Some(vote), None, None, None, None, None, None, None],
            judged: ChanSet::empty(),
            alphas: [0; 7],
        })?;
    }
    Ok(CycleRecord {
        cycle,
        active: set(0b1111),
        transfer: None,
        lines,
        traces: Traces::new(alloc),
        removed: ChanSet::empty(),
        joined: ChanSet::empty(),
        remaining: None,
    })
}

// The round of a channel that made these steps.
fn round(alloc: Global, number: u8, steps: &[u8]) -> Result<TraceLine, AllocError>
    requires { All (λ s. s < 2) steps.now }
{
    Ok(TraceLine {
        chan: chan(number),
        steps: Bytes::from_slice(alloc, steps)?,
    })
}

/// A cycle with negative words, votes without a word, two targets, and rounds with and without steps.
pub fn busy_cycle(alloc: Global) -> Result<CycleRecord, AllocError> {
    let mut lines = Lines::new(alloc);
    lines.push(ChannelLine {
        chan: chan(6),
        inputs: [-9223372036854775808, -1, 0, 9223372036854775807],
        votes: [
            Some(-1),
            None,
            Some(0),
            Some(7),
            None,
            Some(10),
            Some(-10),
            None,
        ],
        judged: set(0b1000001),
        alphas: [65536, 0, 16777216, 0, 1, 0, 81919],
    })?;
    let mut traces = Traces::new(alloc);
    traces.push(round(alloc, 0, &[0, 1, 1, 0])?)?;
    traces.push(round(alloc, 6, &[])?)?;
    Ok(CycleRecord {
        cycle: 4294967295,
        active: set(127),
        transfer: Some((set(0b110000), 3)),
        lines,
        traces,
        removed: set(0b1000),
        joined: set(0b110000),
        remaining: Some(256),
    })
}
