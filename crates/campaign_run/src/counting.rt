//! Runs a mission, and counts its cycles.
ghost use Rattle.std.specs.Prelude.{◌≡◌, ◌<◌, suc, [], OnOk};
ghost use Rattle.guards_model.specs.Missions.{MissionValue, IsMission, bus_rules};
ghost use Rattle.guards_world.specs.Worlds.{first_world};
ghost use Rattle.guards_model.specs.Network.{BusValue};
ghost use Rattle.guards_world.specs.WorldCycle.{MayCycle};
ghost use Rattle.campaign_facts.specs.Tallies.{tally_of};
ghost use Rattle.campaign_run.specs.Counting.{CountsTo, IsCounted};

use campaign_facts::{CycleFacts, Tally};
use ctx_lock::Gate;
use icn_bus::Bus;
use icn_world::{Halt, World};
use native_calls::Calls;
use std::alloc::Global;
use std::sync::Wait;
use std::thread::Threads;

/// Passes one more cycle, and counts it.
fn count_cycle<B: Bus, G: Gate, C: Calls + Sync, R: Threads + Wait + Sync>(
    rt: &R,
    alloc: Global,
    world: &mut World,
    bus: &mut B,
    gate: &G,
    natives: &C,
    tally: &mut Tally,
) -> Result<(), Halt>
    requires may { MayCycle world.old (B.seen bus.old) }
    requires few { tally.old.cycles < 2000 }
    ensures counted { OnOk result (tally.new.cycles ≡ suc tally.old.cycles) }
    ensures goes_on { (M : MissionValue) (start : BusValue) →
        IsCounted B.may M start world.old (B.seen bus.old) tally.old →
        CountsTo B.may M start (suc world.old.done) world.new (B.seen bus.new) tally.new result }
{
    match world.cycle(rt, alloc, bus, gate, natives) {
        Ok(part) => {
            tally.note(world.mission().script(), CycleFacts::of(&part));
            Ok(())
        }
        Err(halt) => Err(halt),
    }
}

/// Passes all cycles, and counts them.
pub(crate) fn count_cycles<B: Bus, G: Gate, C: Calls + Sync, R: Threads + Wait + Sync>(
    rt: &R,
    alloc: Global,
    world: &mut World,
    bus: &mut B,
    gate: &G,
    natives: &C,
    tally: &mut Tally,
) -> Result<(), Halt>
    requires world { world.old ≡ first_world world.old.mission }
    requires mission { IsMission world.old.mission }
    requires loaded { (B.seen bus.old).script ≡ bus_rules world.old.mission }
    requires empty { tally.old ≡ tally_of world.old.mission.script [] }
    ensures { CountsTo B.may world.old.mission (B.seen bus.old) world.old.mission.cycles world.new
        (B.seen bus.new) tally.new result }
{
    world.mission().prove_mission();
    for cycle in 0..world.mission().cycles() {
        let _cycle = cycle;
        count_cycle(rt, alloc, world, bus, gate, natives, tally)?;
    }
    Ok(())
}
