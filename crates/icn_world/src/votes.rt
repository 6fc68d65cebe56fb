//! The vote slot.
ghost use Rattle.guards_model.specs.Network.{Log};
ghost use Rattle.guards_model.specs.Rounds.{Steps};
ghost use Rattle.guards_model.specs.declared.Slot.TheVariants.{Tasks};
ghost use Rattle.guards_model.specs.Slots.{stage_after};

use crate::world::{Halt, World};
use fault_script::Disturbance;
use guards_model::Slot;
use icn_bus::Bus;
use std::alloc::Global;
use world_nodes::Lines;

impl World {
    ghost use Rattle.icn_world.specs.Stages.{PassesPart, IsWithinCycle};
    ghost use Rattle.icn_world.specs.Voted.{HasVoted};

    // Passes the vote slot, in which all active channels send their output words to each other. Answers the lines of
    // those that run.
    pub(crate) fn vote<B: Bus>(
        &mut self,
        alloc: Global,
        bus: &mut B,
        disturbance: &mut Disturbance,
    ) -> Result<Lines, Halt>
        requires { (earlier : Log) × (current : Log) × (steps : Steps)
            × IsWithinCycle Tasks (stage_after Tasks) (stage_after Tasks) earlier current steps self.old
            disturbance.old }
        ensures { PassesPart B.may (IsWithinCycle Tasks (stage_after Tasks) (stage_after Tasks)) HasVoted result
            self.old self.new disturbance.old disturbance.new
            (B.seen bus.old) (B.seen bus.new) }
    {
        let arrived = self.pass_slot(alloc, bus, Slot::Vote, disturbance)?;
        let lines = self.take_votes(alloc, &arrived)?;
        Ok(lines)
    }
}
