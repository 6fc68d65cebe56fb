//! The rows, each of which holds or is named.
use crate::joining::{a_target_takes_no_other_content, a_target_takes_the_content_that_most_have};
use crate::moments::{
    a_lost_channel_is_removed, a_node_that_all_accuse_removes_itself, a_sender_ends_a_transfer,
    a_sender_starts_a_transfer, forged_frames_are_outvoted, without_faults,
};
use crate::refused::a_refused_round_leaves_the_context;
use crate::resting::{
    a_crashed_node_owes_nothing, a_restarted_node_asks, a_switched_off_node_waits,
};
use crate::small::mission;
use mission_type::Mission;
use std::alloc::{AllocError, Global};
use std::sync::Wait;
use std::test::Fail;
use std::thread::Threads;

// The rows, in order.
const NAMES: [&str; 13] = [
    "without faults",
    "forged frames",
    "a lost channel",
    "a transfer starts",
    "a transfer ends",
    "all accuse it",
    "a refused round",
    "crashed",
    "switched off",
    "restarted",
    "a content",
    "another transfer",
    "no majority",
];

// Which rows of a mission's nodes hold.
fn rows_of<R: Threads + Wait + Sync>(
    rt: &R,
    alloc: Global,
    mission: &Mission,
) -> Result<[bool; 13], AllocError> {
    Ok([
        without_faults(rt, alloc, mission)?,
        forged_frames_are_outvoted(rt, alloc, mission)?,
        a_lost_channel_is_removed(rt, alloc, mission)?,
        a_sender_starts_a_transfer(rt, alloc, mission)?,
        a_sender_ends_a_transfer(rt, alloc, mission)?,
        a_node_that_all_accuse_removes_itself(rt, alloc, mission)?,
        a_refused_round_leaves_the_context(rt, alloc, mission)?,
        a_crashed_node_owes_nothing(alloc, mission)?,
        a_switched_off_node_waits(alloc, mission)?,
        a_restarted_node_asks(alloc, mission)?,
        a_target_takes_the_content_that_most_have(rt, alloc, mission)?,
        a_target_takes_no_other_content(alloc, mission, 2, [30, 30, 30])?,
        a_target_takes_no_other_content(alloc, mission, 3, [30, 31, 32])?,
    ])
}

// Which rows of the small mission's nodes hold. This function alone owns the mission: each place where one may end
// costs the proof minutes.
fn rows<R: Threads + Wait + Sync>(rt: &R, alloc: Global) -> Result<Option<[bool; 13]>, AllocError> {
    match mission(alloc) {
        Some(mission) => Ok(Some(rows_of(rt, alloc, &mission)?)),
        None => Ok(None),
    }
}

#[test]
fn nodes_do_what_is_worked_out_by_hand(rt: HostRuntime) -> Result<(), Fail> {
    let rows = rows(&rt, rt.alloc())?.ok_or("a mission")?;
    for row in 0..13 {
        assert!(rt; rows[row], "{}", NAMES[row]);
    }
    Ok(())
}
