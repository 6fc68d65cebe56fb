//! A sender that crashes in the middle of a transfer.
use crate::stage::{Ended, returning, run, smooth};
use std::alloc::{AllocError, Global};
use std::sync::Wait;
use std::thread::Threads;

// How many lines of a cycle begin so, and whether the last of them ends so.
fn lines_of(text: &str, cycle: &str, front: &str, back: &str) -> (u32, bool) {
    let mut is_in = false;
    let mut count: u32 = 0;
    let mut ends = false;
    for line in text.lines() {
        if line.starts_with("cycle ") {
            is_in = line.starts_with(cycle);
        }
        if is_in && line.starts_with(front) {
            count = count.saturating_add(1);
            ends = line.ends_with(back);
        }
    }
    (count, ends)
}

// The crashed channel has no line in its cycle, three others have, and the transfer ends in the next one as it does
// else.
fn goes_on(ended: &Ended) -> bool {
    let (all, _) = lines_of(&ended.text, "cycle 4 ", "ch ", "");
    let (own, _) = lines_of(&ended.text, "cycle 4 ", "ch 1", "");
    let (_, joins) = lines_of(&ended.text, "cycle 5 ", "end ", "joined 4 remaining 1");
    ended.status == 0 && all == 3 && own == 0 && joins
}

/// In how many of these slots a channel may crash in a transfer, and the run goes on as it is due.
pub fn borne<R: Threads + Wait + Sync>(
    rt: &R,
    alloc: Global,
    slots: &str,
) -> Result<u32, AllocError> {
    let mut borne: u32 = 0;
    for slot in slots.split_whitespace() {
        let entry = format!(in alloc;
            "{{ kind = 'crash', cycle = 4, slot = '{slot}', channel = 1 }},\n"
        )?;
        let mission = returning(alloc, &entry)?;
        if goes_on(&run(rt, alloc, &smooth(mission.as_bytes()))?) {
            borne = borne.saturating_add(1);
        }
    }
    Ok(borne)
}
