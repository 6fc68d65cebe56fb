//! Runs a mission and writes its summary alone.
ghost use Rattle.std.specs.Prelude.{◌≡◌, ◌≤◌, ◌+◌, ◌*◌, suc, ℕ, IfOk};
ghost use Rattle.guards_model.specs.Missions.{MissionValue, IsMission, bus_rules};
ghost use Rattle.guards_world.specs.Worlds.{first_world};
ghost use Rattle.guards_model.specs.Network.{BusValue};
ghost use Rattle.guards_world.specs.WorldCycle.{MayCycle};
ghost use Rattle.guards_io.specs.Writes.{Puts};
ghost use Rattle.world_run.specs.Tallying.{summary_of, IsTallied, Summarizes, TalliesTo};

use crate::running::{put_halt, run_result};
use crate::stop::RunStop;
use crate::tally::Tally;
use ctx_lock::Gate;
use guards_base::Text;
use guards_io::{Sink, WriteStop, put};
use icn_bus::Bus;
use icn_world::World;
use native_calls::Calls;
use std::alloc::{AllocError, Global};
use std::sync::Wait;
use std::thread::Threads;

/// Passes one more cycle, and keeps what its record tells.
fn tally_cycle<B: Bus, G: Gate, C: Calls + Sync, R: Threads + Wait + Sync, K: Sink>(
    rt: &R,
    alloc: Global,
    world: &mut World,
    bus: &mut B,
    gate: &G,
    natives: &C,
    out: &mut K,
    tally: &mut Tally,
) -> Result<(), RunStop>
    requires may { MayCycle world.old (B.seen bus.old) }
    requires joins { tally.old.joins ≤ 255 * world.old.done }
    requires removals { tally.old.removals ≤ 255 * world.old.done }
    requires few { world.old.done ≤ 2000 }
    ensures few_joins { tally.new.joins ≤ tally.old.joins + 255 }
    ensures few_removals { tally.new.removals ≤ tally.old.removals + 255 }
    ensures goes_on { (number : ℕ) (M : MissionValue) (start : BusValue) →
        IsTallied B.may M start world.old (B.seen bus.old) tally.old →
        TalliesTo B.may number M start (K.seen out.old) (suc world.old.done) world.new
        (B.seen bus.new) (K.seen out.new) tally.new result }
{
    match world.cycle(rt, alloc, bus, gate, natives) {
        Ok(part) => {
            tally.note(&part);
            Ok(())
        }
        Err(halt) => Err(put_halt(alloc, halt, out)),
    }
}

/// Passes all cycles, and keeps what their records tell.
fn tally_cycles<B: Bus, G: Gate, C: Calls + Sync, R: Threads + Wait + Sync, K: Sink>(
    rt: &R,
    alloc: Global,
    world: &mut World,
    bus: &mut B,
    gate: &G,
    natives: &C,
    out: &mut K,
    tally: &mut Tally,
) -> Result<(), RunStop>
    requires world { world.old ≡ first_world world.old.mission }
    requires mission { IsMission world.old.mission }
    requires loaded { (B.seen bus.old).script ≡ bus_rules world.old.mission }
    requires joins { tally.old.joins ≡ 0 }
    requires removals { tally.old.removals ≡ 0 }
    requires last { tally.old.last ≡ None }
    ensures { (number : ℕ) →
        TalliesTo B.may number world.old.mission (B.seen bus.old)
        (K.seen out.old) world.old.mission.cycles world.new
        (B.seen bus.new) (K.seen out.new) tally.new result }
{
    world.mission().prove_mission();
    for cycle in 0..world.mission().cycles() {
        let _cycle = cycle;
        tally_cycle(rt, alloc, world, bus, gate, natives, out, tally)?;
    }
    Ok(())
}

/// The five lines of the summary.
#[tactic(auto, unfolding(crate::specs::Tallying::summary_of))]
fn summary_text(
    alloc: Global,
    number: u64,
    outputs: u8,
    frames: u64,
    tally: &Tally,
) -> Result<Text, AllocError>
    requires { outputs ≤ 8 }
    ensures { IfOk result (λ text. text ≡ summary_of number outputs frames tally.now) }
{
    let mut text = Text::new(alloc);
    let (joins, removals) = (tally.joins, tally.removals);
    match tally.last {
        None => report_text::summary(
            alloc, &mut text, number, joins, removals, frames, &[None; 8], 0,
        )?,
        Some(votes) => {
            report_text::summary(
                alloc, &mut text, number, joins, removals, frames, &votes, outputs,
            )?
        }
    }
    Ok(text)
}

/// Writes the five lines as one part.
fn put_summary<K: Sink>(
    alloc: Global,
    number: u64,
    outputs: u8,
    frames: u64,
    tally: &Tally,
    out: &mut K,
) -> Result<(), WriteStop>
    requires { outputs ≤ 8 }
    ensures { Puts (K.seen out.old) (K.seen out.new)
        (summary_of number outputs frames tally.now) result }
{
    let Ok(text) = summary_text(alloc, number, outputs, frames, tally) else {
        return Err(WriteStop::Memory);
    };
    put(out, text.as_str())
}

/// Runs the world's mission from its start over a bus that has the mission's rules, and writes the summary alone: the
/// number, the sizes of a demo, how many channels joined and were removed, the frames that were carried, and the last
/// votes. Where a slot stops the run, the stop's line stands alone.
pub fn summarize<B: Bus, G: Gate, C: Calls + Sync, R: Threads + Wait + Sync, K: Sink>(
    rt: &R,
    alloc: Global,
    world: &mut World,
    bus: &mut B,
    gate: &G,
    natives: &C,
    out: &mut K,
    number: u64,
) -> Result<(), RunStop>
    requires fresh { world.old ≡ first_world world.old.mission }
    requires mission { IsMission world.old.mission }
    requires loaded { (B.seen bus.old).script ≡ bus_rules world.old.mission }
    ensures { Summarizes B.may number world.old.mission (B.seen bus.old)
        (B.seen bus.new) (K.seen out.old) (K.seen out.new) result }
{
    let mut tally = Tally::empty();
    tally_cycles(rt, alloc, world, bus, gate, natives, out, &mut tally)?;
    let mission = world.mission();
    mission.prove_sizes();
    let outputs = mission.outputs().len() as u8;
    let frames = world.carried();
    run_result(put_summary(alloc, number, outputs, frames, &tally, out))
}
