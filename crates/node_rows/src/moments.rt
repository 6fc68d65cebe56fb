//! What channel 1 does in cycles without and with faults. The expected values are worked out by hand.
use crate::alone::{Decided, Voted};
use crate::seen::{Copied, Seen, after};
use crate::told::{Asked, Told, only, source_word, transfer};
use guards_base::ChanSet;
use mission_type::Mission;
use std::alloc::{AllocError, Global};
use std::sync::Wait;
use std::thread::Threads;

// Nobody is judged or removed, and no transfer starts.
const NOTHING: Decided = Decided {
    judged: 0,
    removed: 0,
    started: false,
};

// A vote with these counts. The input is 6.
fn voted(vote: i64, counts: [u32; 7]) -> Voted {
    Voted {
        input: 6,
        vote: Some(vote),
        counts,
    }
}

/// What channel 1 does where nothing is wrong: its word is 6, as is the input.
pub fn well(vote: i64) -> Seen {
    Seen {
        own: Some(source_word(6, ChanSet::empty(), Asked::No)),
        relayed: Some((3, Some(8))),
        decided: NOTHING,
        vote: Some(vote),
        voted: voted(vote, [0; 7]),
        sweep: None,
        remaining: None,
        last: None,
        next: Some(15),
        words: [Some(vote), Some(11), Some(22)],
    }
}

// Whether channel 1 shows this after its first cycles.
fn shows<R: Threads + Wait + Sync>(
    rt: &R,
    alloc: Global,
    mission: &Mission,
    told: &[Told],
    seen: Seen,
) -> Result<bool, AllocError> {
    let last = after(rt, alloc, mission, told)?;
    Ok(last == Some(seen))
}

pub fn without_faults<R: Threads + Wait + Sync>(
    rt: &R,
    alloc: Global,
    mission: &Mission,
) -> Result<bool, AllocError> {
    let told = [Told::plain(4, 6), Told::plain(4, 12)];
    let one = shows(rt, alloc, mission, &told[..1], well(6))?;
    let two = shows(rt, alloc, mission, &told, well(12))?;
    Ok(one && two)
}

/// It tells on what it was told, and decides by what most were told. It accuses by the forged vote; one accuser does
/// not judge.
pub fn forged_frames_are_outvoted<R: Threads + Wait + Sync>(
    rt: &R,
    alloc: Global,
    mission: &Mission,
) -> Result<bool, AllocError> {
    let mut told = [Told::plain(4, 6), Told::plain(4, 12)];
    told[0].forged = Some(3);
    let mut first = well(6);
    first.relayed = Some((3, Some(99)));
    let mut second = well(12);
    second.own = Some(source_word(6, only(3), Asked::No));
    let one = shows(rt, alloc, mission, &told[..1], first)?;
    let two = shows(rt, alloc, mission, &told, second)?;
    Ok(one && two)
}

pub fn a_lost_channel_is_removed<R: Threads + Wait + Sync>(
    rt: &R,
    alloc: Global,
    mission: &Mission,
) -> Result<bool, AllocError> {
    let told = transfer();
    let mut first = well(6);
    first.relayed = Some((3, None));
    first.decided.judged = 8;
    first.voted = voted(6, [0, 0, 0, 65536, 0, 0, 0]);
    let mut second = well(12);
    second.own = Some(source_word(6, only(3), Asked::No));
    second.decided.judged = 8;
    second.decided.removed = 8;
    second.voted = voted(12, [0, 0, 0, 131072, 0, 0, 0]);
    second.next = Some(7);
    let one = shows(rt, alloc, mission, &told[..1], first)?;
    let two = shows(rt, alloc, mission, &told[..2], second)?;
    Ok(one && two)
}

// What channel 1 does with three active channels: there is no second round.
fn of_three(vote: i64, asked: Asked) -> Seen {
    let mut seen = well(vote);
    seen.own = Some(source_word(6, ChanSet::empty(), asked));
    seen.relayed = None;
    seen.next = Some(7);
    seen
}

/// The first request is heard. It stands, so a transfer starts, with two of three blocks; the written one remains
/// besides the third.
pub fn a_sender_starts_a_transfer<R: Threads + Wait + Sync>(
    rt: &R,
    alloc: Global,
    mission: &Mission,
) -> Result<bool, AllocError> {
    let told = transfer();
    let mut starts = of_three(24, Asked::First);
    starts.decided.started = true;
    starts.sweep = Some(Copied {
        start: 3,
        blocks: [Some(0), Some(1)],
    });
    starts.remaining = Some(2);
    let one = shows(rt, alloc, mission, &told[..3], of_three(18, Asked::No))?;
    let two = shows(rt, alloc, mission, &told[..4], starts)?;
    Ok(one && two)
}

/// Only the written block remains, which the final frame carries. The last request of a fresh channel does not remove
/// it.
pub fn a_sender_ends_a_transfer<R: Threads + Wait + Sync>(
    rt: &R,
    alloc: Global,
    mission: &Mission,
) -> Result<bool, AllocError> {
    let told = transfer();
    let mut joins = of_three(30, Asked::First);
    joins.sweep = Some(Copied {
        start: 3,
        blocks: [Some(2), Some(0)],
    });
    joins.last = Some(Copied {
        start: 3,
        blocks: [Some(0), None],
    });
    joins.remaining = Some(1);
    joins.next = Some(15);
    let mut goes_on = well(36);
    goes_on.own = Some(source_word(6, ChanSet::empty(), Asked::Named));
    let one = shows(rt, alloc, mission, &told[..5], joins)?;
    let two = shows(rt, alloc, mission, &told, goes_on)?;
    Ok(one && two)
}

pub fn a_node_that_all_accuse_removes_itself<R: Threads + Wait + Sync>(
    rt: &R,
    alloc: Global,
    mission: &Mission,
) -> Result<bool, AllocError> {
    let mut told = [Told::plain(4, 6), Told::plain(4, 12)];
    told[0].accused = only(1);
    told[1].accused = only(1);
    let mut removed = well(12);
    removed.decided.judged = 2;
    removed.decided.removed = 2;
    removed.voted = voted(12, [0, 131072, 0, 0, 0, 0, 0]);
    removed.next = Some(13);
    shows(rt, alloc, mission, &told, removed)
}
