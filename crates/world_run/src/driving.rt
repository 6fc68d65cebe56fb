//! Passes a cycle of a run, and its exchange with the actuator, if there is one.
ghost use Rattle.std.specs.Prelude.{◌≡◌, ◌<◌, Option, Some, Result, length, option_map};
ghost use Rattle.guards_model.specs.Missions.{MissionValue, ActuatorValue};
ghost use Rattle.guards_model.specs.Network.{Log, BusValue};
ghost use Rattle.guards_model.specs.Rounds.{Histories};
ghost use Rattle.guards_model.specs.Settled.{SettledValue};
ghost use Rattle.guards_world.specs.Worlds.{HaltValue};
ghost use Rattle.icn_world.specs.Halts.{halt_value, with_halt_value};
ghost use Rattle.output_gate.specs.Exchanging.{MayExchange};
ghost use Rattle.output_gate.specs.Gates.{GateValue};
ghost use Rattle.run_laws.specs.Driving.{Drives, Exchanged, IsDriven, exchange_halt, first_gate, with_part};

use ctx_lock::Gate;
use guards_base::CycleRecord;
use guards_model::Slot;
use icn_bus::Bus;
use icn_world::{Halt, World};
use mission_type::Mission;
use native_calls::Calls;
use output_gate::{Limit, OutStop, OutputGate};
use std::alloc::Global;
use std::sync::Wait;
use std::thread::Threads;

/// The gate of a mission's actuator, if it has one, before the first cycle.
pub fn first_gate(mission: &Mission) -> Option<OutputGate>
    ensures { result ≡ option_map first_gate mission.now.actuator }
{
    mission.prove_sizes();
    let outputs = mission.outputs().len() as u8;
    match mission.actuator() {
        Some(actuator) => Some(OutputGate::new(outputs, actuator.steps, actuator.start)),
        None => None,
    }
}

/// How a run halts where its actuator's words did not move.
fn halted(part: &CycleRecord, stop: OutStop) -> Halt
    ensures { halt_value result ≡ exchange_halt part.now stop }
{
    match stop {
        OutStop::Disturbed { set } => Halt::Disturbed {
            cycle: part.cycle,
            slot: Slot::Output,
            set,
            active: part.active,
        },
        OutStop::NoMemory => Halt::NoMemory,
    }
}

/// Exchanges a finished cycle with the actuator.
fn exchange_with<B: Bus, Q: Limit>(
    alloc: Global,
    world: &World,
    bus: &mut B,
    limit: &Q,
    gate: &mut OutputGate,
    part: &CycleRecord,
) -> Result<(), Halt>
    requires { (s : SettledValue) × (world.now.settled ≡ Some s)
        × MayExchange world.now.mission.rules.version (length gate.old.words) part.now s }
    ensures { Exchanged B.may world.now.mission.rules.version part.now world.now.settled (B.seen bus.old)
        (B.seen bus.new) (Some gate.old) (Some gate.new) (with_halt_value result) }
{
    let Some(settled) = world.settled() else {
        return Err(Halt::NoMemory);
    };
    let version = world.mission().rules().version;
    match gate.exchange(alloc, bus, version, part, &settled, limit) {
        Ok(()) => Ok(()),
        Err(stop) => Err(halted(part, stop)),
    }
}

/// Exchanges a finished cycle, if there is an actuator.
fn exchange<B: Bus, Q: Limit>(
    alloc: Global,
    world: &World,
    bus: &mut B,
    limit: &Q,
    actuator: &mut Option<OutputGate>,
    part: &CycleRecord,
) -> Result<(), Halt>
    requires { (g : GateValue) → actuator.old ≡ Some g → (s : SettledValue) × (world.now.settled ≡ Some s) ×
        MayExchange world.now.mission.rules.version (length g.words) part.now s }
    ensures { Exchanged B.may world.now.mission.rules.version part.now world.now.settled (B.seen bus.old)
        (B.seen bus.new) actuator.old actuator.new (with_halt_value result) }
{
    match actuator {
        Some(gate) => exchange_with(alloc, world, bus, limit, gate, part),
        None => Ok(()),
    }
}

/// The answer of a finished cycle, once it has been exchanged.
fn exchanged<B: Bus, Q: Limit>(
    alloc: Global,
    world: &World,
    bus: &mut B,
    limit: &Q,
    actuator: &mut Option<OutputGate>,
    part: CycleRecord,
) -> Result<CycleRecord, Halt>
    requires { (g : GateValue) → actuator.old ≡ Some g → (s : SettledValue) × (world.now.settled ≡ Some s) ×
        MayExchange world.now.mission.rules.version (length g.words) part s }
    ensures { (ended : Result (Unit {0}) HaltValue)
        × Exchanged B.may world.now.mission.rules.version part world.now.settled
        (B.seen bus.old) (B.seen bus.new) actuator.old actuator.new ended
        × (with_halt_value result ≡ with_part part ended) }
{
    match exchange(alloc, world, bus, limit, actuator, &part) {
        Ok(()) => Ok(part),
        Err(halt) => Err(halt),
    }
}

/// Passes one more cycle, and exchanges it once it has finished.
pub fn pass<B: Bus, G: Gate, C: Calls + Sync, R: Threads + Wait + Sync, Q: Limit>(
    rt: &R,
    alloc: Global,
    world: &mut World,
    bus: &mut B,
    gate: &G,
    natives: &C,
    limit: &Q,
    actuator: &mut Option<OutputGate>,
) -> Result<CycleRecord, Halt>
    requires below { world.old.done < world.old.mission.cycles }
    requires driven { (o : Option ActuatorValue) × (M : MissionValue) × (start : BusValue) × (L : Log)
        × (histories : Histories) ×
        IsDriven o B.may M start world.old (B.seen bus.old) actuator.old L histories }
    ensures { (o : Option ActuatorValue) (M : MissionValue) (start : BusValue) (L : Log) (histories : Histories) →
        IsDriven o B.may M start world.old (B.seen bus.old) actuator.old L histories →
        Drives o B.may M start world.old L histories (with_halt_value result) world.new (B.seen bus.new) actuator.new }
{
    match world.cycle(rt, alloc, bus, gate, natives) {
        Ok(part) => exchanged(alloc, world, bus, limit, actuator, part),
        Err(halt) => Err(halt),
    }
}
