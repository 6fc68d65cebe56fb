//! The work of a cycle.
ghost use Rattle.std.specs.Prelude.{◌≡◌, length, Some, None, IfOk, IfErr, option_map};
ghost use Rattle.std.specs.Option.{option_copied};
ghost use Rattle.guards_model.specs.Missions.{cycle_writes};
ghost use Rattle.guards_nodes.specs.NodeStates.{DecidedValue};
ghost use Rattle.guards_nodes.specs.NodeSteps.{HasWorked};
ghost use Rattle.sweep_round.specs.Trails.{trail_cycle, trail_steps};

use crate::parts::Worked;
use crate::running::Running;
use ctx_lock::Gate;
use guards_base::{Chan, Refused};
use mission_type::Mission;
use native_calls::Calls;
use std::alloc::Global;
use std::sync::Wait;
use std::thread::Threads;
use sweep_round::{Trail, work_round};

impl Running {
    /// Lends the trail of its round, where it has worked since its last source word.
    pub fn history(&self) -> Option<&Trail>
        ensures cycle { option_map trail_cycle (option_copied result) ≡ option_map (λ w. w.cycle) self.now.worked }
        ensures steps { option_map trail_steps (option_copied result) ≡ option_map (λ w. w.steps) self.now.worked }
    {
        match &self.worked {
            Some(worked) => Some(&worked.history),
            None => None,
        }
    }

    /// Does the writes of a cycle and the copies of its plan, by two workers under the lock, in whatever order. For
    /// want of memory the channel comes back as it was.
    pub fn work<C: Calls + Sync, G: Gate, R: Threads + Wait + Sync>(
        self,
        rt: &R,
        alloc: Global,
        me: Chan,
        mission: &Mission,
        cycle: u32,
        gate: &G,
        natives: &C,
    ) -> Result<Running, Refused<Running>>
        requires blocks { length self.context ≡ mission.now.rules.blocks }
        requires decided { (d : DecidedValue) × (self.decided ≡ Some d) }
        ensures worked { IfOk result
            (λ new. HasWorked mission.now.rules (cycle_writes mission.now cycle) cycle self new) }
        ensures blocks { IfOk result (λ new. length new.context ≡ length self.context) }
        ensures refused { IfErr result (λ e. e.value ≡ self) }
    {
        mission.prove_mission();
        let plan = self.plan(mission.rules());
        let inputs = self.decided.as_ref().unwrap().whole_inputs();
        let Running {
            context,
            control,
            accused,
            heard,
            hearing,
            tree,
            decided,
            worked,
            closed,
        } = self;
        match work_round(
            rt,
            alloc,
            context,
            mission.table(),
            natives,
            cycle,
            inputs,
            plan,
            me.index(),
            gate,
        ) {
            Ok(done) => Ok(Running {
                context: done.context,
                control,
                accused,
                heard,
                hearing,
                tree,
                decided,
                worked: Some(Worked {
                    history: done.history,
                    copies: done.copies,
                }),
                closed,
            }),
            Err(Refused { value }) => Err(Refused {
                value: Running {
                    context: value,
                    control,
                    accused,
                    heard,
                    hearing,
                    tree,
                    decided,
                    worked,
                    closed,
                },
            }),
        }
    }
}
