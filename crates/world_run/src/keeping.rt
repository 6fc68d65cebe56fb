//! Runs a mission and tells its last cycles, once it has ended.
ghost use Rattle.std.specs.Prelude.{◌≡◌, ◌≤◌, ◌<◌, [], ◌++◌, suc, flat_map, ℕ, length, Option, Some, option_map};
ghost use Rattle.guards_model.specs.Missions.{ActuatorValue, MissionValue, IsMission, bus_rules};
ghost use Rattle.guards_world.specs.Worlds.{first_world};
ghost use Rattle.guards_model.specs.Network.{BusValue};
ghost use Rattle.output_gate.specs.Gates.{GateValue};
ghost use Rattle.run_laws.specs.Driving.{first_gate};
ghost use Rattle.guards_runs.specs.IdealReport.{last};
ghost use Rattle.guards_io.specs.Writes.{Puts};
ghost use Rattle.world_run.specs.Running.{cycle_text};
ghost use Rattle.world_run.specs.Keeping.{HandsOver, Keeps, IsKept, KeepsTo, RunsLast, TellsKept, kept_text};

use crate::driving::{first_gate, pass};
use crate::running::run_result;
use crate::stop::RunStop;
use crate::writing::{cycle_text, end_text, head_text, stop_text};
use ctx_lock::Gate;
use flight_log::FlightLog;
use guards_base::{Bytes, CycleRecord, Text};
use guards_io::{Failed, Sink, WriteStop, write_all};
use icn_bus::Bus;
use icn_world::{Halt, World};
use mission_type::Mission;
use native_calls::Calls;
use output_gate::{Limit, OutputGate};
use std::alloc::Global;
use std::sync::Wait;
use std::thread::Threads;

/// Hands a piece to the sink.
fn give<K: Sink>(out: &mut K, piece: &[u8]) -> Result<(), Failed>
    ensures { HandsOver (K.seen out.old) (K.seen out.new) piece.now result }
{
    write_all(out, piece)
}

/// Hands over the parts that were kept, one after the other.
fn give_parts<K: Sink>(out: &mut K, log: &FlightLog) -> Result<(), Failed>
    ensures { HandsOver (K.seen out.old) (K.seen out.new) (flat_map (λ text. text) log.now.parts) result }
{
    for place in 0..log.len() {
        give(out, log.get(place).as_slice())?;
    }
    Ok(())
}

/// Hands over a head line, the parts that were kept, and a last line.
fn give_kept<K: Sink>(out: &mut K, head: &Text, log: &FlightLog, line: &Text) -> Result<(), Failed>
    ensures { HandsOver (K.seen out.old) (K.seen out.new) (kept_text head.now log.now.parts ++ line.now) result }
{
    give(out, head.as_str().as_bytes())?;
    give_parts(out, log)?;
    give(out, line.as_str().as_bytes())
}

/// Writes what was kept of a run that did not stop.
fn put_kept<K: Sink>(
    alloc: Global,
    mission: &Mission,
    head: &Text,
    log: &FlightLog,
    out: &mut K,
) -> Result<(), WriteStop>
    ensures { Puts (K.seen out.old) (K.seen out.new) (kept_text head.now log.now.parts ++ last mission.now) result }
{
    let Ok(line) = end_text(alloc, mission) else {
        return Err(WriteStop::Memory);
    };
    match give_kept(out, head, log, &line) {
        Ok(()) => Ok(()),
        Err(_) => Err(WriteStop::Failed),
    }
}

/// Writes what was kept before a halt, and tells it. A sink that fails changes nothing of the answer.
fn tell_kept<K: Sink>(
    alloc: Global,
    halt: Halt,
    head: &Text,
    log: &FlightLog,
    out: &mut K,
) -> RunStop
    ensures { TellsKept halt (kept_text head.now log.now.parts) (K.seen out.old) (K.seen out.new) result }
{
    let Halt::Disturbed {
        cycle,
        slot,
        set,
        active,
    } = halt
    else {
        return RunStop::Halted(Halt::NoMemory);
    };
    let Ok(line) = stop_text(alloc, cycle, slot, set, active) else {
        return RunStop::Halted(Halt::NoMemory);
    };
    let _ = give_kept(out, head, log, &line);
    RunStop::Halted(halt)
}

/// Keeps the part of a cycle, with its trace lines where `trace` says so.
fn keep(
    alloc: Global,
    mission: &Mission,
    part: &CycleRecord,
    actuator: &Option<OutputGate>,
    trace: bool,
    log: &mut FlightLog,
) -> Result<(), Halt>
    requires { (g : GateValue) → actuator.now ≡ Some g → length g.words ≡ length mission.now.outputs }
    ensures { Keeps log.old log.new (cycle_text trace mission.now actuator.now part.now) result }
{
    let text = cycle_text(alloc, mission, part, actuator, trace)?;
    let bytes = Bytes::from_slice(alloc, text.as_str().as_bytes())?;
    let _ = log.push(bytes);
    Ok(())
}

/// Passes one more cycle with its exchange, and keeps its part.
fn keep_cycle<B: Bus, G: Gate, C: Calls + Sync, R: Threads + Wait + Sync, Q: Limit>(
    rt: &R,
    alloc: Global,
    world: &mut World,
    bus: &mut B,
    gate: &G,
    natives: &C,
    limit: &Q,
    actuator: &mut Option<OutputGate>,
    trace: bool,
    log: &mut FlightLog,
) -> Result<(), Halt>
    requires below { world.old.done < world.old.mission.cycles }
    requires at { (k : ℕ) × (o : Option ActuatorValue) × (M : MissionValue) × (start : BusValue) ×
        IsKept B.may k trace M o start world.old (B.seen bus.old) actuator.old log.old }
    ensures { (k : ℕ) (o : Option ActuatorValue) (M : MissionValue) (start : BusValue) →
        IsKept B.may k trace M o start world.old (B.seen bus.old) actuator.old log.old →
        KeepsTo B.may k trace M o start (suc world.old.done) world.new (B.seen bus.new) actuator.new log.new result }
{
    match pass(rt, alloc, world, bus, gate, natives, limit, actuator) {
        Ok(part) => keep(alloc, world.mission(), &part, actuator, trace, log),
        Err(halt) => Err(halt),
    }
}

/// Passes all cycles, and keeps the last parts.
fn keep_cycles<B: Bus, G: Gate, C: Calls + Sync, R: Threads + Wait + Sync, Q: Limit>(
    rt: &R,
    alloc: Global,
    world: &mut World,
    bus: &mut B,
    gate: &G,
    natives: &C,
    limit: &Q,
    actuator: &mut Option<OutputGate>,
    trace: bool,
    log: &mut FlightLog,
) -> Result<(), Halt>
    requires world { world.old ≡ first_world world.old.mission }
    requires mission { IsMission world.old.mission }
    requires loaded { (B.seen bus.old).script ≡ bus_rules world.old.mission }
    requires gate { actuator.old ≡ option_map first_gate world.old.mission.actuator }
    requires empty { log.old.parts ≡ [] }
    ensures { KeepsTo B.may log.old.room trace world.old.mission world.old.mission.actuator (B.seen bus.old)
        world.old.mission.cycles world.new (B.seen bus.new) actuator.new log.new result }
{
    for cycle in 0..world.mission().cycles() {
        let _cycle = cycle;
        keep_cycle(
            rt, alloc, world, bus, gate, natives, limit, actuator, trace, log,
        )?;
    }
    Ok(())
}

/// Runs the world's mission from its start over a bus that has the mission's rules, and keeps the parts of the last
/// cycles, at most `last` of them. When the run has ended, also by a stop, it writes the head line, these parts, and
/// the last line or the stop's line, one after the other. All memory is taken before the first of them is written.
pub fn run_last<B: Bus, G: Gate, C: Calls + Sync, R: Threads + Wait + Sync, K: Sink, Q: Limit>(
    rt: &R,
    alloc: Global,
    world: &mut World,
    bus: &mut B,
    gate: &G,
    natives: &C,
    limit: &Q,
    out: &mut K,
    trace: bool,
    last: u16,
) -> Result<(), RunStop>
    requires fresh { world.old ≡ first_world world.old.mission }
    requires mission { IsMission world.old.mission }
    requires loaded { (B.seen bus.old).script ≡ bus_rules world.old.mission }
    requires some { 1 ≤ last }
    requires few { last ≤ 2000 }
    ensures { RunsLast B.may last trace world.old.mission world.old.mission.actuator (B.seen bus.old)
        (B.seen bus.new) (K.seen out.old) (K.seen out.new) result }
{
    let Ok(head) = head_text(alloc, world.mission()) else {
        return Err(RunStop::Halted(Halt::NoMemory));
    };
    let Ok(mut log) = FlightLog::new(alloc, last) else {
        return Err(RunStop::Halted(Halt::NoMemory));
    };
    let mut actuator = first_gate(world.mission());
    match keep_cycles(
        rt,
        alloc,
        world,
        bus,
        gate,
        natives,
        limit,
        &mut actuator,
        trace,
        &mut log,
    ) {
        Ok(()) => run_result(put_kept(alloc, world.mission(), &head, &log, out)),
        Err(halt) => Err(tell_kept(alloc, halt, &head, &log, out)),
    }
}
