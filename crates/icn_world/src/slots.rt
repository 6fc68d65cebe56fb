//! How the world enters a cycle and its slots, and hands over what was carried.
ghost use Rattle.std.specs.Prelude.{◌≡◌, ◌<◌, ◌++◌, true, ℕ, [], OnOk, IfOk, None};
ghost use Rattle.guards_model.specs.declared.Slot.{Slot as SlotValue};
ghost use Rattle.guards_model.specs.declared.Slot.TheVariants.{Request, Vote, Final};
ghost use Rattle.guards_model.specs.Slots.{up_to, on_bus, stage_after, stage_before};
ghost use Rattle.guards_model.specs.Network.{Log};
ghost use Rattle.guards_model.specs.Rounds.{Steps};
ghost use Rattle.guards_runs.specs.Cycles.{cycle_at};
ghost use Rattle.guards_world.specs.Worlds.{StandsForWorld};
ghost use Rattle.guards_world.specs.InCycle.{InCycle};
ghost use Rattle.guards_world.specs.NodeLists.{AreInRange};
ghost use Rattle.guards_world.specs.Arrivals.{AreArrivals, HaveWorked};
ghost use Rattle.icn_world.specs.Kept.{IsWorldKept};
ghost use Rattle.icn_world.specs.Told.{AreLinesOf};
ghost use Rattle.icn_world.specs.Restored.{HaveTaken};

use crate::world::World;
use guards_base::ChanSet;
use guards_model::Slot;
use std::alloc::{AllocError, Global};
use world_nodes::{Arrived, Lines};

impl World {
    // Begins a cycle: the restarts, the damages and the source words, and the crashes of the first slot.
    pub(crate) fn open(&mut self, alloc: Global) -> Result<(), AllocError>
        requires stands { (L : Log) × StandsForWorld self.old L }
        requires below { self.old.done < self.old.mission.cycles }
        requires unspent { self.old.spent ≡ None }
        ensures kept { IsWorldKept self.old self.new }
        ensures state { (L : Log) (steps : Steps) → StandsForWorld self.old L →
            OnOk result (InCycle self.old.mission L [] steps Request (stage_before Request) (stage_before Request)
            self.new) }
    {
        let joining = self.ledger.start_cycle(self.mission.script(), self.done);
        self.nodes.open(alloc, &self.mission, self.done, joining)?;
        let down = self
            .ledger
            .start_slot(self.mission.script(), self.done, Slot::Request);
        self.nodes.crash(down);
        Ok(())
    }

    // Enters a slot: its crashes.
    pub(crate) fn enter(&mut self, slot: Slot)
        ensures kept { IsWorldKept self.old self.new }
        ensures state { (earlier current : Log) (steps : Steps) (before : SlotValue) (carried handed : ℕ) →
            up_to before slot ≡ true → on_bus slot ≡ true →
            InCycle self.old.mission earlier current steps before carried handed self.old →
            InCycle self.old.mission earlier current steps slot carried handed self.new }
    {
        let down = self
            .ledger
            .start_slot(self.mission.script(), self.done, slot);
        self.nodes.crash(down);
    }

    // Hands over the request slot.
    pub(crate) fn hear<A: Arrived>(&mut self, arrived: &A)
        ensures kept { IsWorldKept self.old self.new }
        ensures state { (earlier current : Log) (steps : Steps) →
            InCycle self.old.mission earlier current steps Request (stage_after Request) (stage_before Request)
            self.old →
            AreArrivals self.old.mission (earlier ++ current) self.old.done Request (A.got arrived.now) →
            InCycle self.old.mission earlier current steps Request (stage_after Request) (stage_after Request)
            self.new }
    {
        self.nodes.hear(arrived);
    }

    // Hands over the vote slot, and answers the lines of the running channels.
    pub(crate) fn take_votes<A: Arrived>(
        &mut self,
        alloc: Global,
        arrived: &A,
    ) -> Result<Lines, AllocError>
        requires { (earlier : Log) × (current : Log) × (steps : Steps)
            × InCycle self.old.mission earlier current steps Vote (stage_after Vote) (stage_before Vote) self.old }
        ensures kept { IsWorldKept self.old self.new }
        ensures state { (earlier current : Log) (steps : Steps) →
            InCycle self.old.mission earlier current steps Vote (stage_after Vote) (stage_before Vote) self.old →
            AreArrivals self.old.mission (earlier ++ current) self.old.done Vote (A.got arrived.now) →
            HaveWorked self.old.mission (earlier ++ current) self.old.done →
            OnOk result (InCycle self.old.mission earlier current steps Vote (stage_after Vote) (stage_after Vote)
            self.new) }
        ensures lines { (earlier current : Log) (steps : Steps) →
            InCycle self.old.mission earlier current steps Vote (stage_after Vote) (stage_before Vote) self.old →
            AreArrivals self.old.mission (earlier ++ current) self.old.done Vote (A.got arrived.now) →
            HaveWorked self.old.mission (earlier ++ current) self.old.done →
            IfOk result (λ lines. AreLinesOf self.old.mission
            (cycle_at self.old.mission (earlier ++ current) self.old.done) Vote lines.items) }
    {
        let lines = self.nodes.take_votes(alloc, &self.mission, arrived)?;
        Ok(lines)
    }

    // Hands over the final slot, and answers who took a content.
    pub(crate) fn take_final<A: Arrived>(
        &mut self,
        alloc: Global,
        arrived: &A,
    ) -> Result<ChanSet, AllocError>
        requires { AreInRange (A.got arrived.now) }
        ensures kept { IsWorldKept self.old self.new }
        ensures state { (earlier current : Log) (steps : Steps) →
            InCycle self.old.mission earlier current steps Final (stage_after Final) (stage_before Final) self.old →
            AreArrivals self.old.mission (earlier ++ current) self.old.done Final (A.got arrived.now) →
            OnOk result (InCycle self.old.mission earlier current steps Final (stage_after Final) (stage_after Final)
            self.new) }
        ensures taken { (earlier current : Log) (steps : Steps) →
            InCycle self.old.mission earlier current steps Final (stage_after Final) (stage_before Final) self.old →
            AreArrivals self.old.mission (earlier ++ current) self.old.done Final (A.got arrived.now) →
            IfOk result (λ taken. HaveTaken taken self.old.mission (earlier ++ current) self.old.done steps) }
    {
        let members = self.switchboard.on();
        let taken = self.nodes.take_final(alloc, members, arrived)?;
        Ok(taken)
    }
}
