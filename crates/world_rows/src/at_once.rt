use crate::channels_meet::Meeting;
use ctx_lock::Gate;
use demo_mission::demo_mission;
use icn_bus::{Acts, MemBus};
use icn_world::{Halt, World};
use mission_type::Mission;
use native_calls::{Calls, Code, middle, ramp, saturated};
use std::alloc::Global;
use std::sync::Wait;
use std::test::Fail;
use std::thread::Threads;

struct Plain;

impl Calls for Plain {
    fn call(&self, code: Code, a: i64, b: i64, c: i64) -> i64 {
        match code {
            Code::Sat => saturated(a, b, c),
            Code::Mid => middle(a, b, c),
            Code::Ramp => ramp(a, b, c),
        }
    }
}

/// Passes the first cycle of a mission without faults on the bus, and answers how many channels have a trace line.
fn first_cycle<G: Gate, R: Threads + Wait + Sync>(
    rt: &R,
    alloc: Global,
    mission: Mission,
    gate: &G,
) -> Result<usize, Halt> {
    mission.prove_mission();
    let mut bus = MemBus::new(alloc, Acts::new(alloc));
    let mut world = World::start(alloc, mission)?;
    let part = world.cycle(rt, alloc, &mut bus, gate, &Plain)?;
    Ok(part.traces.len())
}

#[test]
fn two_channels_wait_for_each_other(rt: HostRuntime) -> Result<(), Fail> {
    let mission = demo_mission(rt.alloc(), 1)?;
    let gate = Meeting::new();
    let Ok(lines) = first_cycle(&rt, rt.alloc(), mission, &gate) else {
        panic!(rt; "the cycle ends")
    };
    assert!(rt; gate.was_held());
    assert!(rt; lines == 7);
    Ok(())
}
