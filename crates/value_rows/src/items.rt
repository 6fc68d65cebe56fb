//! An item of each list that takes memory of its own.
use guards_base::{Bytes, Chan, ChanSet, ChannelLine, Law, Numbers, Text, TraceLine};
use icn_frames::{ControlWord, Copies, FinalBody, SweepBody};
use mission_type::SensorRow;
use std::alloc::{AllocError, Global};
use task_table::{Sets, Task, Write, Writes};

fn chan() -> Chan {
    let Some(chan) = Chan::new(3) else {
        unreachable!()
    };
    chan
}

pub fn line() -> ChannelLine {
    ChannelLine {
        chan: chan(),
        inputs: [0; 4],
        votes: [None; 8],
        judged: ChanSet::empty(),
        alphas: [0; 7],
    }
}

pub fn trace(alloc: Global) -> TraceLine {
    TraceLine {
        chan: chan(),
        steps: Bytes::new(alloc),
    }
}

pub fn sweep(alloc: Global) -> SweepBody {
    SweepBody {
        target: chan(),
        start: 0,
        blocks: Copies::new(alloc),
    }
}

pub fn last(alloc: Global) -> FinalBody {
    FinalBody {
        target: chan(),
        start: 0,
        blocks: Copies::new(alloc),
        control: ControlWord {
            law: Law::Multiply,
            active: ChanSet::empty(),
            fresh: ChanSet::empty(),
            alphas: [0; 7],
        },
    }
}

pub fn write() -> Write {
    Write {
        block: 0,
        set: Sets {
            at: [None, None, None, None, None, None, None, None],
        },
    }
}

pub fn task(alloc: Global) -> Task {
    Task {
        name: Text::new(alloc),
        writes: Writes::new(alloc),
    }
}

pub fn numbers(alloc: Global) -> Result<Numbers, AllocError> {
    Numbers::from_slice(alloc, &[7])
}

pub fn sensors(alloc: Global) -> Result<SensorRow, AllocError> {
    SensorRow::from_slice(alloc, &[[1, 2, 3, 4]])
}
