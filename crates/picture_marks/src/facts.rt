//! What a report tells of a run, as far as a picture shows it.
use guards_base::{ChanSet, Slot};

/// What a mission adds to the picture of its report: the lines that its counts and its transfers are held against.
#[derive(Clone, Copy, Debug)]
pub struct Limits {
    /// The count at which a channel is removed.
    pub threshold: u32,
    /// How many blocks a final frame may carry.
    pub last: u8,
}

/// What is told of a cycle. The judgement, the counts and the votes are those of the channels that have a line, which
/// all say the same; where none has, nothing is told of them.
#[derive(Clone, Copy)]
pub struct CycleFacts {
    pub cycle: u32,
    pub active: ChanSet,
    /// The targets of the transfer that goes on or starts in the cycle, and the cycle in which it started.
    pub transfer: Option<(ChanSet, u32)>,
    /// The same of the cycle before, and the channels that were declared joined at its end.
    pub before: Option<(ChanSet, u32)>,
    pub arrived: ChanSet,
    /// The channels that have a line.
    pub ran: ChanSet,
    pub judged: ChanSet,
    pub counts: [u32; 7],
    pub votes: [Option<i64>; 8],
    pub removed: ChanSet,
    pub joined: ChanSet,
    /// How many blocks remain to be sent.
    pub remaining: Option<u16>,
}

/// How a report ends.
#[derive(Clone, Copy)]
pub enum End {
    /// The run came to its end.
    Done,
    /// The run stopped: a third of the active channels or more were disturbed.
    Stop {
        cycle: u32,
        slot: Slot,
        set: ChanSet,
        active: ChanSet,
    },
    /// The report breaks off.
    Cut,
}
