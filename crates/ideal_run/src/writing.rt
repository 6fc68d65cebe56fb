//! Runs a mission without faults and writes its report.
ghost use Rattle.std.specs.Prelude.{◌≡◌, ◌+◌};
ghost use Rattle.guards_runs.specs.IdealMachine.{ideal};
ghost use Rattle.guards_runs.specs.IdealReport.{head, last, part, parts_below, ideal_report};
ghost use Rattle.guards_io.specs.Writes.{Writes};

use crate::records::{cycle_text, head, last};
use context_blocks::Context;
use guards_io::{Sink, WriteStop, put};
use mission_type::Mission;
use native_calls::Calls;
use std::alloc::Global;

/// Runs a cycle, and writes its part.
#[tactic(auto, using(guards_io::proofs::WritesLemmas::nothing_written, guards_io::proofs::WritesLemmas::puts_writes))]
fn put_cycle<C: Calls, K: Sink>(
    alloc: Global,
    mission: &Mission,
    cycle: u32,
    context: &mut Context,
    natives: &C,
    out: &mut K,
) -> Result<(), WriteStop>
    requires { context.old ≡ ideal mission.now cycle }
    ensures context { context.new ≡ ideal mission.now (cycle + 1) }
    ensures part { Writes (K.seen out.old) (K.seen out.new) (part mission.now cycle) result }
{
    let Ok(text) = cycle_text(alloc, mission, cycle, context, natives) else {
        return Err(WriteStop::Memory);
    };
    put(out, text.as_str())
}

/// Runs all cycles from the initial context on, and writes their parts.
fn put_cycles<C: Calls, K: Sink>(
    alloc: Global,
    mission: &Mission,
    context: &mut Context,
    natives: &C,
    out: &mut K,
) -> Result<(), WriteStop>
    requires { context.old ≡ mission.now.initial }
    ensures { Writes (K.seen out.old) (K.seen out.new) (parts_below mission.now mission.now.cycles) result }
{
    let cycles = mission.cycles();
    for cycle in 0..cycles {
        put_cycle(alloc, mission, cycle, context, natives, out)?;
    }
    Ok(())
}

/// Writes the head line.
#[tactic(auto, using(guards_io::proofs::WritesLemmas::nothing_written, guards_io::proofs::WritesLemmas::puts_writes))]
fn put_head<K: Sink>(alloc: Global, mission: &Mission, out: &mut K) -> Result<(), WriteStop>
    ensures { Writes (K.seen out.old) (K.seen out.new) (head mission.now) result }
{
    let Ok(text) = head(alloc, mission) else {
        return Err(WriteStop::Memory);
    };
    put(out, text.as_str())
}

/// Writes the last line.
#[tactic(auto, using(guards_io::proofs::WritesLemmas::nothing_written, guards_io::proofs::WritesLemmas::puts_writes))]
fn put_last<K: Sink>(alloc: Global, mission: &Mission, out: &mut K) -> Result<(), WriteStop>
    ensures { Writes (K.seen out.old) (K.seen out.new) (last mission.now) result }
{
    let Ok(text) = last(alloc, mission) else {
        return Err(WriteStop::Memory);
    };
    put(out, text.as_str())
}

/// Runs the cycles, and writes their parts.
#[tactic(auto, using(guards_io::proofs::WritesLemmas::nothing_written, guards_io::proofs::WritesLemmas::puts_writes))]
fn put_run<C: Calls, K: Sink>(
    alloc: Global,
    mission: &Mission,
    natives: &C,
    out: &mut K,
) -> Result<(), WriteStop>
    ensures { Writes (K.seen out.old) (K.seen out.new) (parts_below mission.now mission.now.cycles) result }
{
    let Ok(mut context) = mission.start(alloc) else {
        return Err(WriteStop::Memory);
    };
    put_cycles(alloc, mission, &mut context, natives, out)
}

/// Runs the mission as if it had no faults, and writes its report, part by part: the head line, the part of each
/// cycle, and the last line.
pub fn write_report<C: Calls, K: Sink>(
    alloc: Global,
    mission: &Mission,
    natives: &C,
    out: &mut K,
) -> Result<(), WriteStop>
    ensures { Writes (K.seen out.old) (K.seen out.new) (ideal_report mission.now) result }
{
    put_head(alloc, mission, out)?;
    put_run(alloc, mission, natives, out)?;
    put_last(alloc, mission, out)
}
