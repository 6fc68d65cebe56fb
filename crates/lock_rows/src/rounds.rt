ghost use Rattle.std.specs.Prelude.{◌<◌, All};

use crate::chain::{BLOCKS, Plain, table};
use crate::framing::taken;
use crate::order::InOrder;
use context_blocks::{Block, Context};
use ctx_lock::{Gate, OpenGate};
use dirty_tags::{Plan, Tags};
use std::alloc::{AllocError, Global};
use std::sync::Wait;
use std::test::Fail;
use std::thread::Threads;
use sweep_round::{WorkedRound, work_round};

// Works a round of cycle 9, with the first input 5, on blocks of zeros.
fn worked<G: Gate, R: Threads + Wait + Sync>(
    rt: &R,
    alloc: Global,
    busy: bool,
    plan: Plan,
    gate: &G,
) -> Result<Option<WorkedRound>, AllocError>
    requires { All (λ b. b < 64) plan }
{
    let Some(table) = table(alloc, busy)? else {
        return Ok(None);
    };
    let ctx = Context::zeroed(alloc, BLOCKS)?;
    let inputs = [5, 0, 0, 0];
    Ok(work_round(rt, alloc, ctx, &table, &Plain, 9, inputs, plan, 1, gate).ok())
}

// A block after so many writes of the chain.
fn block_after(block: usize, writes: usize) -> Block {
    let mut words = [0; 8];
    if block < 3 && block < writes {
        words[0] = 5;
        words[1] = 9;
    }
    Block { words }
}

// Whether the copies are of the blocks 0, 1, 2 and so on, and they and the context are the replay of the history.
fn is_replayed(worked: &WorkedRound) -> bool {
    let mut writes: usize = 0;
    let mut copies: usize = 0;
    for step in worked.history.steps().as_slice().iter() {
        if *step == 0 {
            writes = writes.saturating_add(1);
        } else {
            if copies >= worked.copies.len() {
                return false;
            }
            let copy = worked.copies.get(copies);
            if usize::from(copy.block) != copies || copy.words != block_after(copies, writes) {
                return false;
            }
            copies = copies.saturating_add(1);
        }
    }
    copies == worked.copies.len() && has_writes(&worked.context, writes)
}

// Whether the context is the one after so many writes of the chain.
fn has_writes(context: &Context, writes: usize) -> bool {
    for block in 0..context.len() {
        if context.get(block as u8) != block_after(usize::from(block), writes) {
            return false;
        }
    }
    true
}

#[test]
fn three_writes_and_three_copies_in_each_order(rt: HostRuntime) -> Result<(), Fail> {
    let mut orders = 0u8;
    for bits in 0..64u8 {
        if bits.count_ones() == 3 {
            let order = [
                bits & 1,
                bits >> 1 & 1,
                bits >> 2 & 1,
                bits >> 3 & 1,
                bits >> 4 & 1,
                bits >> 5 & 1,
            ];
            let gate = InOrder::new(order.as_slice());
            let plan = Tags::all(BLOCKS).plan(3);
            let Some(worked) = worked(&rt, rt.alloc(), true, plan, &gate)? else {
                panic!(rt; "there was memory")
            };
            assert!(rt; worked.history.steps().as_slice() == order.as_slice());
            assert!(rt; worked.history.cycle() == 9 && is_replayed(&worked));
            orders = orders.saturating_add(1);
        }
    }
    assert!(rt; orders == 20);
    Ok(())
}

#[test]
fn rounds_without_writes_or_copies(rt: HostRuntime) -> Result<(), Fail> {
    for case in 0..4u8 {
        let busy = case & 1 != 0;
        let sweep = if case & 2 != 0 { 64 } else { 0 };
        let plan = Tags::all(BLOCKS).plan(sweep);
        let Some(worked) = worked(&rt, rt.alloc(), busy, plan, &OpenGate)? else {
            panic!(rt; "there was memory")
        };
        let steps = usize::from(sweep) + if busy { 3 } else { 0 };
        assert!(rt; worked.history.steps().len() == steps);
        assert!(rt; worked.copies.len() == usize::from(sweep) && is_replayed(&worked));
        let writes = if busy { 3 } else { 0 };
        assert!(rt; has_writes(&worked.context, writes));
    }
    Ok(())
}

// How many copies the framer takes before they are gathered hangs on the machine; in so many rounds it takes one.
#[test]
fn the_framer_takes_copies_meanwhile(rt: HostRuntime) -> Result<(), Fail> {
    let Some(table) = table(rt.alloc(), true)? else {
        panic!(rt; "the table is good")
    };
    let mut took = false;
    for _ in 0..1_000 {
        if !took {
            let plan = Tags::all(BLOCKS).plan(16);
            took = taken(&rt, rt.alloc(), &table, plan) > 0;
        }
    }
    assert!(rt; took);
    Ok(())
}
