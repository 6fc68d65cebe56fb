//! One cycle of the world.
ghost use Rattle.std.specs.Prelude.{◌≡◌};
ghost use Rattle.guards_model.specs.Network.{Log};
ghost use Rattle.guards_model.specs.Records.{transfer_of_pair};
ghost use Rattle.guards_runs.specs.Due.{targets_of};
ghost use Rattle.guards_world.specs.WorldCycle.{MayCycle, PassesCycle};
ghost use Rattle.world_laws.specs.Fronts.{CarriesUpToStop};
ghost use Rattle.icn_world.specs.Halts.{halt_value, with_halt_value};
ghost use Rattle.icn_world.specs.Passes.{MayPass, Passes};

use crate::world::{Halt, World};
use ctx_lock::Gate;
use fault_script::Disturbance;
use guards_base::{ChanSet, CycleRecord};
use icn_bus::Bus;
use native_calls::Calls;
use std::alloc::Global;
use std::sync::Wait;
use std::thread::Threads;

// The targets of a transfer.
fn targets(transfer: Option<(ChanSet, u32)>) -> ChanSet
    ensures { result ≡ targets_of (transfer_of_pair transfer) }
{
    match transfer {
        Some((targets, _)) => targets,
        None => ChanSet::empty(),
    }
}

impl World {
    // Passes a cycle of a world that is not spent.
    fn pass<B: Bus, G: Gate, C: Calls + Sync, R: Threads + Wait + Sync>(
        &mut self,
        rt: &R,
        alloc: Global,
        bus: &mut B,
        gate: &G,
        natives: &C,
    ) -> Result<CycleRecord, Halt>
        requires { (L : Log) × MayPass self.old L }
        ensures { (L : Log) → MayPass self.old L → Passes B.may self.old L (B.seen bus.old)
            (with_halt_value result) self.new (B.seen bus.new) }
    {
        let mut disturbance = Disturbance::begin(self.active());
        let reconfiguration = self.settle(alloc, bus, &mut disturbance)?;
        let traces = self.work(rt, alloc, gate, natives)?;
        let lines = self.vote(alloc, bus, &mut disturbance)?;
        let joining = targets(reconfiguration.transfer);
        let restored = self.restore(alloc, bus, &mut disturbance, joining)?;
        let part = self.record(&reconfiguration, lines, traces, &restored);
        self.end(&restored, &disturbance);
        Ok(part)
    }

    // From now on the world is spent.
    fn keep(&mut self, halt: &Halt)
        ensures { self.new ≡ record self.old { spent = Some (halt_value halt.now) } }
    {
        self.spent = Some(*halt);
    }

    /// Passes one cycle, in its nine slots: requests, rounds, tasks, vote, sweep and final frames, and the switches.
    /// Answers the cycle's record. It stops at the end of the first slot in which a third of the active channels or
    /// more are disturbed, or when memory runs out; the world is spent then, and each later call answers the same halt
    /// again and carries nothing. Wherever memory runs out, nothing was carried after a slot that stops the run.
    pub fn cycle<B: Bus, G: Gate, C: Calls + Sync, R: Threads + Wait + Sync>(
        &mut self,
        rt: &R,
        alloc: Global,
        bus: &mut B,
        gate: &G,
        natives: &C,
    ) -> Result<CycleRecord, Halt>
        requires { MayCycle self.old (B.seen bus.old) }
        ensures passes { PassesCycle B.may self.old.spent self.old (B.seen bus.old)
            (with_halt_value result) self.new (B.seen bus.new) }
        ensures up_to_stop { CarriesUpToStop self.old (B.seen bus.old)
            (with_halt_value result) (B.seen bus.new) }
    {
        if let Some(halt) = self.spent {
            return Err(halt);
        }
        match self.pass(rt, alloc, bus, gate, natives) {
            Ok(part) => Ok(part),
            Err(halt) => {
                self.keep(&halt);
                Err(halt)
            }
        }
    }
}
