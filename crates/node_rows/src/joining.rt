//! A transfer, from the side of its target, which is channel 3.
ghost use Rattle.std.specs.Prelude.{◌≡◌, true, IfOk, OnOk};
ghost use Rattle.std.specs.List.{list_all};
ghost use Rattle.guards_model.specs.Frames.{counts_in_range};

use crate::alone::rise;
use crate::frames::asked;
use crate::moments::well;
use crate::seen::cycles;
use crate::small::{first, word};
use crate::told::{Asked, joined, only, source_word};
use channel_node::Node;
use context_blocks::Block;
use guards_base::{Chan, ChanSet};
use guards_model::Law;
use icn_frames::{BlockCopy, ControlWord, Copies, FinalBody, Finals, SweepBody, Sweeps};
use mission_type::Mission;
use std::alloc::{AllocError, Global};
use std::sync::Wait;
use std::thread::Threads;

// The control after the join: all four channels are active, and 3 is fresh.
fn joined_control() -> ControlWord
    ensures { counts_in_range result.counts ≡ true }
{
    ControlWord {
        law: Law::Multiply,
        active: ChanSet::from_mask(15).unwrap(),
        fresh: only(3),
        alphas: [0; 7],
    }
}

// A block with this first word.
fn block(number: u8, word: i64) -> BlockCopy {
    BlockCopy {
        block: number,
        words: Block {
            words: [word, 0, 0, 0, 0, 0, 0, 0],
        },
    }
}

// A sweep frame of the transfer that began in cycle 3, with two blocks.
fn sweep(alloc: Global, one: BlockCopy, two: BlockCopy) -> Result<SweepBody, AllocError> {
    let target = Chan::new(3).unwrap();
    Ok(SweepBody {
        target,
        start: 3,
        blocks: Copies::from_slice(alloc, &[one, two])?,
    })
}

// Three sweep frames, of which the last one is forged in its first block.
fn sweeps(alloc: Global, one: BlockCopy, two: BlockCopy) -> Result<Sweeps, AllocError> {
    let mut frames = Sweeps::new(alloc);
    for first in [one, one, block(one.block, 99)] {
        frames.push(sweep(alloc, first, two)?)?;
    }
    Ok(frames)
}

// A final frame of a transfer that began in this cycle.
fn last(alloc: Global, start: u32, word: i64) -> Result<FinalBody, AllocError>
    ensures { IfOk result (λ last. counts_in_range last.control.counts ≡ true) }
{
    let target = Chan::new(3).unwrap();
    Ok(FinalBody {
        target,
        start,
        blocks: Copies::from_slice(alloc, &[block(0, word)])?,
        control: joined_control(),
    })
}

// Final frames of three senders with these first words.
fn finals(alloc: Global, start: u32, words: [i64; 3]) -> Result<Finals, AllocError>
    ensures { IfOk result (λ list. list_all (λ content. counts_in_range content.control.counts) list.items ≡ true) }
{
    let mut frames = Finals::new(alloc);
    frames.push(last(alloc, start, words[0])?)?;
    frames.push(last(alloc, start, words[1])?)?;
    frames.push(last(alloc, start, words[2])?)?;
    Ok(frames)
}

// The node crashed and was restarted, and passes the sweep slots of the cycles 3 and 4.
fn fill(alloc: Global, node: &mut Node, mission: &Mission) -> Result<(), AllocError>
    requires { mission.now.rules ≡ node.old.rules }
    ensures { OnOk result (mission.now.rules ≡ node.new.rules) }
{
    node.crash();
    node.restart(alloc, mission.rules().blocks)?;
    let first = sweeps(alloc, block(0, 18), block(1, 11))?;
    node.take_sweep(3, &first);
    let second = sweeps(alloc, block(2, 22), block(0, 24))?;
    node.take_sweep(4, &second);
    Ok(())
}

// Whether the filled node takes these final frames.
fn took(
    alloc: Global,
    node: &mut Node,
    mission: &Mission,
    start: u32,
    words: [i64; 3],
) -> Result<bool, AllocError>
    requires { mission.now.rules ≡ node.old.rules }
    ensures { OnOk result (mission.now.rules ≡ node.new.rules) }
{
    fill(alloc, node, mission)?;
    let frames = finals(alloc, start, words)?;
    Ok(rise(node, &frames))
}

// Whether the node takes the content that most have, and goes on with it.
fn goes_on<R: Threads + Wait + Sync>(
    rt: &R,
    alloc: Global,
    node: &mut Node,
    mission: &Mission,
) -> Result<bool, AllocError>
    requires { mission.now.rules ≡ node.old.rules }
{
    if !took(alloc, node, mission, 3, [30, 99, 30])? {
        return Ok(false);
    }
    let taken = [word(node, 0), word(node, 1), word(node, 2)];
    let mut seen = well(36);
    seen.own = Some(source_word(8, ChanSet::empty(), Asked::No));
    seen.relayed = Some((3, Some(7)));
    let last = cycles(rt, alloc, node, mission, 5, &[joined()])?;
    Ok(taken == [Some(30), Some(11), Some(22)] && last == Some(seen))
}

pub fn a_target_takes_the_content_that_most_have<R: Threads + Wait + Sync>(
    rt: &R,
    alloc: Global,
    mission: &Mission,
) -> Result<bool, AllocError> {
    match first(alloc, mission, 3)? {
        Some(mut node) => goes_on(rt, alloc, &mut node, mission),
        None => Ok(false),
    }
}

// Whether the node does not take these final frames, and asks again.
fn asks_again(
    alloc: Global,
    node: &mut Node,
    mission: &Mission,
    start: u32,
    words: [i64; 3],
) -> Result<bool, AllocError>
    requires { mission.now.rules ≡ node.old.rules }
{
    let took = took(alloc, node, mission, start, words)?;
    Ok(!took && asked(node.request(5)) == Some(Some(3)) && node.context().is_none())
}

/// Neither those of another transfer, nor those of which no content has a majority.
pub fn a_target_takes_no_other_content(
    alloc: Global,
    mission: &Mission,
    start: u32,
    words: [i64; 3],
) -> Result<bool, AllocError> {
    match first(alloc, mission, 3)? {
        Some(mut node) => asks_again(alloc, &mut node, mission, start, words),
        None => Ok(false),
    }
}
