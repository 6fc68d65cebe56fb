//! The row of one run.
ghost use Rattle.std.specs.Prelude.{◌≡◌, string_bytes, Err, IfOk, Some};
ghost use Rattle.campaign_run.specs.Counting.{TellsRun};
ghost use Rattle.campaign_run.specs.Ends.{EndsAs};
ghost use Rattle.world_run.specs.Running.{stop_value};

use crate::counting::count_cycles;
use campaign_facts::Tally;
use campaign_text::{Stop, row_text};
use ctx_lock::Gate;
use guards_base::{ChanSet, Slot};
use icn_bus::{Bus, ScriptBus};
use icn_world::{Halt, World};
use mission_type::Mission;
use native_calls::Calls;
use std::alloc::{AllocError, Global};
use std::sync::Wait;
use std::thread::Threads;

/// The stop of a run.
fn stopped(cycle: u32, slot: Slot, set: ChanSet, active: ChanSet) -> Option<Stop>
    ensures { result ≡ Some (stop_value cycle slot set active) }
{
    Some(Stop {
        cycle,
        slot,
        set,
        active,
    })
}

/// How a run ended that came to no end of its own.
fn halted(halt: Halt) -> Result<Option<Stop>, AllocError>
    ensures { EndsAs (Err halt) result }
{
    match halt {
        Halt::Disturbed {
            cycle,
            slot,
            set,
            active,
        } => Ok(stopped(cycle, slot, set, active)),
        Halt::NoMemory => Err(AllocError),
    }
}

/// How a run ended: with its last cycle, or by a stop.
fn ended(ran: Result<(), Halt>) -> Result<Option<Stop>, AllocError>
    ensures { EndsAs ran result }
{
    match ran {
        Ok(()) => Ok(None),
        Err(halt) => halted(halt),
    }
}

/// The row of a run, what was counted of it, and how it stopped, if it did.
#[derive(Debug, Drop)]
pub(crate) struct Row {
    pub text: String,
    pub tally: Tally,
    pub stop: Option<Stop>,
}

/// Runs a mission over a bus of its own that does what its script says, and tells the run by its row.
pub(crate) fn run_row<G: Gate, C: Calls + Sync, R: Threads + Wait + Sync>(
    rt: &R,
    alloc: Global,
    run: u32,
    state: u64,
    bound: Option<u32>,
    mission: Mission,
    gate: &G,
    natives: &C,
) -> Result<Row, AllocError>
    ensures { IfOk result (λ row. TellsRun mission run state bound
        (record { counts = row.tally; stop = row.stop }) (string_bytes row.text)) }
{
    mission.prove_mission();
    let mut bus = ScriptBus::empty(alloc);
    bus.load(mission.script().rules())?;
    let mut world = World::start(alloc, mission)?;
    let mut tally = Tally::empty();
    let ran = count_cycles(rt, alloc, &mut world, &mut bus, gate, natives, &mut tally);
    let stop = ended(ran)?;
    let text = row_text(
        alloc,
        run,
        state,
        world.mission().script(),
        &tally,
        &stop,
        bound,
    )?;
    Ok(Row { text, tally, stop })
}
