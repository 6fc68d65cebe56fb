//! The work of the tasks slot.
ghost use Rattle.std.specs.Prelude.{IfOk};
ghost use Rattle.guards_model.specs.declared.Slot.TheVariants.{Tasks};
ghost use Rattle.guards_model.specs.Network.{Log};
ghost use Rattle.guards_model.specs.Rounds.{Steps};
ghost use Rattle.guards_model.specs.Slots.{stage_after, stage_before};
ghost use Rattle.guards_world.specs.InCycle.{InCycle};
ghost use Rattle.icn_world.specs.Kept.{IsWorldKept};
ghost use Rattle.icn_world.specs.Work.{HasDoneWork};

use crate::world::World;
use ctx_lock::Gate;
use guards_base::Traces;
use native_calls::Calls;
use std::alloc::{AllocError, Global};
use std::sync::Wait;
use std::thread::Threads;

impl World {
    // The work of the tasks slot: the running channels make their writes and copies. Answers the rounds of those that
    // worked.
    pub(crate) fn work<C: Calls + Sync, G: Gate, R: Threads + Wait + Sync>(
        &mut self,
        rt: &R,
        alloc: Global,
        gate: &G,
        natives: &C,
    ) -> Result<Traces, AllocError>
        requires { (earlier : Log) × (current : Log) × (steps : Steps)
            × InCycle self.old.mission earlier current steps Tasks (stage_after Tasks) (stage_before Tasks) self.old }
        ensures kept { IsWorldKept self.old self.new }
        ensures worked { IfOk result (λ traces. (made : Steps) × ((earlier current : Log) (steps : Steps) →
            InCycle self.old.mission earlier current steps Tasks (stage_after Tasks) (stage_before Tasks) self.old →
            HasDoneWork made traces.items earlier current self.new)) }
    {
        let traces = self
            .nodes
            .work(rt, alloc, &self.mission, self.done, gate, natives)?;
        Ok(traces)
    }
}
