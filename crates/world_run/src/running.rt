//! Runs a mission and writes its text.
ghost use Rattle.std.specs.Prelude.{◌≡◌, ◌<◌, suc, Option};
ghost use Rattle.guards_model.specs.Missions.{MissionValue, IsMission, bus_rules, ActuatorValue};
ghost use Rattle.guards_world.specs.Worlds.{first_world};
ghost use Rattle.guards_model.specs.Network.{BusValue};
ghost use Rattle.guards_io.specs.Views.{SinkView};
ghost use Rattle.world_run.specs.Running.{run_told_by, IsAt, Runs, GoesTo, TellsHalt};

use crate::driving::{first_gate, pass};
use crate::stop::RunStop;
use crate::writing::{put_cycle, put_end, put_head, tell_stop};
use ctx_lock::Gate;
use guards_io::{Sink, WriteStop};
use icn_bus::Bus;
use icn_world::{Halt, World};
use native_calls::Calls;
use output_gate::{Limit, OutputGate};
use std::alloc::Global;
use std::sync::Wait;
use std::thread::Threads;

/// A text that was not written ends a run.
pub fn run_result(written: Result<(), WriteStop>) -> Result<(), RunStop>
    ensures { result ≡ run_told_by written }
{
    match written {
        Ok(()) => Ok(()),
        Err(WriteStop::Failed) => Err(RunStop::WriteFault),
        Err(WriteStop::Memory) => Err(RunStop::Halted(Halt::NoMemory)),
    }
}

/// Tells a halt.
pub fn put_halt<K: Sink>(alloc: Global, halt: Halt, out: &mut K) -> RunStop
    ensures { TellsHalt halt (K.seen out.old) (K.seen out.new) result }
{
    match halt {
        Halt::Disturbed {
            cycle,
            slot,
            set,
            active,
        } => tell_stop(alloc, cycle, slot, set, active, out),
        Halt::NoMemory => RunStop::Halted(Halt::NoMemory),
    }
}

/// Passes one more cycle with its exchange, and writes its part.
fn run_cycle<B: Bus, G: Gate, C: Calls + Sync, R: Threads + Wait + Sync, K: Sink, Q: Limit>(
    rt: &R,
    alloc: Global,
    world: &mut World,
    bus: &mut B,
    gate: &G,
    natives: &C,
    limit: &Q,
    actuator: &mut Option<OutputGate>,
    out: &mut K,
    trace: bool,
) -> Result<(), RunStop>
    requires below { world.old.done < world.old.mission.cycles }
    requires at { (o : Option ActuatorValue) × (M : MissionValue) × (start : BusValue) × (begun : SinkView) ×
        IsAt B.may trace M o start begun world.old (B.seen bus.old) actuator.old (K.seen out.old) }
    ensures { (o : Option ActuatorValue) (M : MissionValue) (start : BusValue) (begun : SinkView) →
        IsAt B.may trace M o start begun world.old (B.seen bus.old) actuator.old (K.seen out.old) →
        GoesTo B.may trace M o start begun (suc world.old.done) world.new (B.seen bus.new) actuator.new
        (K.seen out.new) result }
{
    match pass(rt, alloc, world, bus, gate, natives, limit, actuator) {
        Ok(part) => run_result(put_cycle(alloc, world.mission(), &part, actuator, trace, out)),
        Err(halt) => Err(put_halt(alloc, halt, out)),
    }
}

/// Passes all cycles, and writes their parts.
fn run_cycles<B: Bus, G: Gate, C: Calls + Sync, R: Threads + Wait + Sync, K: Sink, Q: Limit>(
    rt: &R,
    alloc: Global,
    world: &mut World,
    bus: &mut B,
    gate: &G,
    natives: &C,
    limit: &Q,
    actuator: &mut Option<OutputGate>,
    out: &mut K,
    trace: bool,
) -> Result<(), RunStop>
    requires fresh { world.old.done ≡ 0 }
    requires at { (o : Option ActuatorValue) × (M : MissionValue) × (start : BusValue) × (begun : SinkView) ×
        IsAt B.may trace M o start begun world.old (B.seen bus.old) actuator.old (K.seen out.old) }
    ensures { (o : Option ActuatorValue) (M : MissionValue) (start : BusValue) (begun : SinkView) →
        IsAt B.may trace M o start begun world.old (B.seen bus.old) actuator.old (K.seen out.old) →
        GoesTo B.may trace M o start begun M.cycles world.new (B.seen bus.new) actuator.new
        (K.seen out.new) result }
{
    for cycle in 0..world.mission().cycles() {
        let _cycle = cycle;
        run_cycle(
            rt, alloc, world, bus, gate, natives, limit, actuator, out, trace,
        )?;
    }
    Ok(())
}

/// Runs the world's mission from its start over a bus that has the mission's rules, and writes the report, or with
/// `trace` the report with the trace lines: part by part, each cycle's when the cycle is over and its output slot, if
/// the mission has an actuator. The first stop ends it, and so does a part that is not written.
pub fn run<B: Bus, G: Gate, C: Calls + Sync, R: Threads + Wait + Sync, K: Sink, Q: Limit>(
    rt: &R,
    alloc: Global,
    world: &mut World,
    bus: &mut B,
    gate: &G,
    natives: &C,
    limit: &Q,
    out: &mut K,
    trace: bool,
) -> Result<(), RunStop>
    requires fresh { world.old ≡ first_world world.old.mission }
    requires mission { IsMission world.old.mission }
    requires loaded { (B.seen bus.old).script ≡ bus_rules world.old.mission }
    ensures { Runs B.may trace world.old.mission world.old.mission.actuator (B.seen bus.old)
        (B.seen bus.new) (K.seen out.old) (K.seen out.new) result }
{
    let mut actuator = first_gate(world.mission());
    run_result(put_head(alloc, world.mission(), out))?;
    run_cycles(
        rt,
        alloc,
        world,
        bus,
        gate,
        natives,
        limit,
        &mut actuator,
        out,
        trace,
    )?;
    run_result(put_end(alloc, world.mission(), out))
}
