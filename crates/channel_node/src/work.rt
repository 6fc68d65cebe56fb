//! The work of a cycle.
ghost use Rattle.std.specs.Prelude.{◌≡◌, OnOk, OnErr, option_map, option_and_then};
ghost use Rattle.std.specs.Option.{option_copied};
ghost use Rattle.guards_nodes.specs.NodeStates.{running_or_none};
ghost use Rattle.guards_nodes.specs.NodeCalls.{DoesWork};
ghost use Rattle.sweep_round.specs.Trails.{trail_cycle, trail_steps};
ghost use Rattle.channel_node.specs.Answers.{HasDecidedState};

use crate::node::{Node, State};
use ctx_lock::Gate;
use guards_base::Refused;
use mission_type::Mission;
use native_calls::Calls;
use std::alloc::{AllocError, Global};
use std::mem;
use std::sync::Wait;
use std::thread::Threads;
use sweep_round::Trail;

impl Node {
    /// Lends the trail of its round: there exactly where it runs and has worked since its last source word.
    pub fn history(&self) -> Option<&Trail>
        ensures cycle { option_map trail_cycle (option_copied result) ≡
            option_and_then (λ r. option_map (λ w. w.cycle) r.worked) (running_or_none self.now.state) }
        ensures steps { option_map trail_steps (option_copied result) ≡
            option_and_then (λ r. option_map (λ w. w.steps) r.worked) (running_or_none self.now.state) }
    {
        match &self.state {
            State::Up(running) => running.history(),
            State::Down | State::Waiting | State::Joining(_) => None,
        }
    }

    /// Does the writes of a cycle and the copies of its plan, by two workers under the lock, in whatever order. For
    /// want of memory the node is as before. It may wait.
    pub fn work<C: Calls + Sync, G: Gate, R: Threads + Wait + Sync>(
        &mut self,
        rt: &R,
        alloc: Global,
        mission: &Mission,
        cycle: u32,
        gate: &G,
        natives: &C,
    ) -> Result<(), AllocError>
        requires rules { mission.now.rules ≡ self.old.rules }
        requires decided { HasDecidedState self.old.state }
        ensures worked { OnOk result (DoesWork mission.now cycle self.old self.new) }
        ensures refused { OnErr result (self.new ≡ self.old) }
    {
        let me = self.channel;
        match mem::replace(&mut self.state, State::Down) {
            State::Up(running) => {
                match running.work(rt, alloc, me, mission, cycle, gate, natives) {
                    Ok(worked) => {
                        self.state = State::Up(worked);
                        Ok(())
                    }
                    Err(Refused { value }) => {
                        self.state = State::Up(value);
                        Err(AllocError)
                    }
                }
            }
            State::Down | State::Waiting | State::Joining(_) => unreachable!(),
        }
    }
}
