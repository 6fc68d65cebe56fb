//! Passes the cycles of a mission, and tells what came of it.
ghost use Rattle.std.specs.Prelude.{◌≡◌, ◌<◌, ◌+◌, IfOk, IfSome, OnErr, OnOk};
ghost use Rattle.guards_world.specs.WorldCycle.{MayCycle};
ghost use Rattle.world_rows.specs.Driving.{IsRunning};

use ctx_lock::Gate;
use guards_base::{CycleRecord, Text};
use icn_bus::Bus;
use icn_world::{Halt, World};
use mission_text::read;
use mission_type::Mission;
use native_calls::{Calls, Code, middle, ramp, saturated};
use report_text::{write_cycle, write_stop};
use std::alloc::{AllocError, Global};
use std::sync::Wait;
use std::thread::Threads;

// The operations as they are.
struct Plain;

impl Calls for Plain {
    fn call(&self, code: Code, a: i64, b: i64, c: i64) -> i64 {
        match code {
            Code::Sat => saturated(a, b, c),
            Code::Mid => middle(a, b, c),
            Code::Ramp => ramp(a, b, c),
        }
    }
}

/// How far a world came: how many cycles finished, how many entries were carried, and how it halted.
#[derive(Clone, Copy, PartialEq)]
pub struct Reached {
    pub done: u32,
    pub carried: u64,
    pub halt: Option<Halt>,
}

/// What came of a mission: the text of its cycles, with the line of a stop, and how far the world came, at its end or
/// its first halt and after a further call where it halted.
#[derive(Drop)]
pub struct Outcome {
    pub text: Text,
    pub first: Reached,
    pub later: Reached,
}

fn reach(world: &World, halt: Option<Halt>) -> Reached {
    Reached {
        done: world.done(),
        carried: world.carried(),
        halt,
    }
}

// Appends the text of a cycle, with its trace lines.
fn tell(
    alloc: Global,
    text: &mut Text,
    mission: &Mission,
    part: &CycleRecord,
) -> Result<(), AllocError> {
    mission.prove_sizes();
    let channels = mission.rules().channels;
    let width = mission.width();
    let outputs = mission.outputs().len() as u8;
    write_cycle(alloc, text, part, channels, width, outputs, true)
}

// Appends the line of a halt.
fn tell_one(alloc: Global, text: &mut Text, halt: Halt) -> Result<(), AllocError> {
    match halt {
        Halt::Disturbed {
            cycle,
            slot,
            set,
            active,
        } => write_stop(alloc, text, cycle, slot, set, active),
        Halt::NoMemory => text.push_str("no memory\n"),
    }
}

// Appends the line of a halt, if there is one.
fn tell_halt(alloc: Global, text: &mut Text, halt: &Option<Halt>) -> Result<(), AllocError> {
    match halt {
        Some(halt) => tell_one(alloc, text, *halt),
        None => Ok(()),
    }
}

// Passes a cycle. After a halt the world may be asked again.
fn pass<B: Bus, G: Gate, R: Threads + Wait + Sync>(
    rt: &R,
    alloc: Global,
    world: &mut World,
    bus: &mut B,
    gate: &G,
) -> Result<CycleRecord, Halt>
    requires running { IsRunning B.may world.old (B.seen bus.old) }
    requires below { world.old.done < world.old.mission.cycles }
    ensures running { OnOk result (IsRunning B.may world.new (B.seen bus.new)) }
    ensures one_more { OnOk result (world.new.done ≡ world.old.done + 1) }
    ensures same { OnOk result (world.new.mission ≡ world.old.mission) }
    ensures halted { OnErr result (MayCycle world.new (B.seen bus.new)) }
{
    world.cycle(rt, alloc, bus, gate, &Plain)
}

// Passes all cycles up to the first halt, and tells them.
fn pass_all<B: Bus, G: Gate, R: Threads + Wait + Sync>(
    rt: &R,
    alloc: Global,
    world: &mut World,
    bus: &mut B,
    gate: &G,
    text: &mut Text,
) -> Result<Option<Halt>, AllocError>
    requires running { IsRunning B.may world.old (B.seen bus.old) }
    requires fresh { world.old.done ≡ 0 }
    ensures { IfOk result (λ halt. IfSome halt (λ _. MayCycle world.new (B.seen bus.new))) }
{
    let cycles = world.mission().cycles();
    for cycle in 0..cycles {
        let _cycle = cycle;
        match pass(rt, alloc, world, bus, gate) {
            Ok(part) => tell(alloc, text, world.mission(), &part)?,
            Err(halt) => return Ok(Some(halt)),
        }
    }
    Ok(None)
}

// Asks a world that halted for its cycle again.
fn ask_again<B: Bus, G: Gate, R: Threads + Wait + Sync>(
    rt: &R,
    alloc: Global,
    world: &mut World,
    bus: &mut B,
    gate: &G,
) -> Reached
    requires { MayCycle world.old (B.seen bus.old) }
{
    let again = world.cycle(rt, alloc, bus, gate, &Plain).err();
    reach(world, again)
}

// Passes all cycles, and asks again where the world halted.
fn told<B: Bus, G: Gate, R: Threads + Wait + Sync>(
    rt: &R,
    alloc: Global,
    mut world: World,
    bus: &mut B,
    gate: &G,
) -> Result<Outcome, AllocError>
    requires running { IsRunning B.may world (B.seen bus.old) }
    requires fresh { world.done ≡ 0 }
{
    let mut text = Text::new(alloc);
    let halt = pass_all(rt, alloc, &mut world, bus, gate, &mut text)?;
    tell_halt(alloc, &mut text, &halt)?;
    let first = reach(&world, halt);
    let later = if halt.is_some() {
        ask_again(rt, alloc, &mut world, bus, gate)
    } else {
        first
    };
    Ok(Outcome { text, first, later })
}

/// Passes the mission that a text stands for, if it stands for one.
pub fn run_mission<B: Bus, G: Gate, R: Threads + Wait + Sync>(
    rt: &R,
    alloc: Global,
    text: &str,
    bus: &mut B,
    gate: &G,
) -> Result<Option<Outcome>, AllocError> {
    let Ok(mission) = read(alloc, text.as_bytes()) else {
        return Ok(None);
    };
    mission.prove_mission();
    bus.load(mission.script().rules())?;
    let world = World::start(alloc, mission)?;
    Ok(Some(told(rt, alloc, world, bus, gate)?))
}
