//! The first part of a cycle: the requests, the rounds of the exchange, and the decision.
ghost use Rattle.std.specs.Prelude.{◌≡◌, ◌≤◌, ◌++◌, suc, true, nat_le, ◌+◌};
ghost use Rattle.guards_model.specs.declared.Slot.TheVariants.{Request, Round3};
ghost use Rattle.guards_model.specs.Slots.{slot_index, on_bus, round_number, stage_after, stage_before};
ghost use Rattle.guards_model.specs.Channels.{tolerated_faults};
ghost use Rattle.guards_model.specs.Network.{Log};
ghost use Rattle.guards_model.specs.Rounds.{Steps};
ghost use Rattle.guards_world.specs.InCycle.{InCycle};
ghost use Rattle.guards_world.specs.Arrivals.{AreArrivals};
ghost use Rattle.world_traffic.specs.Reading.{got_of};
ghost use Rattle.icn_world.specs.Kept.{IsWorldKept};
ghost use Rattle.icn_world.specs.Stages.{IsWithinCycle, PassesPart, IsAtStart, HasArrived};
ghost use Rattle.icn_world.specs.Settled.{MayEnter, IsToActive, nodes_received, AreOfCycle, IsDecided, IsSettled};

use crate::world::{Halt, World};
use fault_script::Disturbance;
use guards_base::ChanSet;
use guards_model::Slot;
use icn_bus::Bus;
use slot_traffic::Receivers;
use std::alloc::Global;
use world_traffic::Delivered;

// What the rounds of a cycle settle: who is removed, and the targets and the start of the transfer that runs.
#[derive(Clone, Copy)]
pub(crate) struct Reconfiguration {
    pub(crate) removed: ChanSet,
    pub(crate) transfer: Option<(ChanSet, u32)>,
}

// Whether the exchange among these members has a round of this number.
fn has_round(members: ChanSet, round: u8) -> bool
    ensures { result ≡ nat_le round (tolerated_faults members + 1) }
{
    round <= members.count().saturating_sub(1) / 3 + 1
}

impl World {
    // Carries a slot to the active channels.
    fn carry_to_active<B: Bus>(
        &mut self,
        alloc: Global,
        bus: &mut B,
        slot: Slot,
        disturbance: &mut Disturbance,
    ) -> Result<Delivered, Halt>
        requires on { on_bus slot ≡ true }
        requires among { IsToActive slot }
        requires stands { (earlier : Log) × (current : Log) × (steps : Steps)
            × IsWithinCycle slot (stage_before slot) (stage_before slot) earlier current steps self.old
            disturbance.old }
        ensures { PassesPart B.may (IsWithinCycle slot (stage_before slot) (stage_before slot)) (HasArrived slot) result
            self.old self.new disturbance.old disturbance.new
            (B.seen bus.old) (B.seen bus.new) }
    {
        let members = self.switchboard.on();
        self.carry(alloc, bus, slot, Receivers::Channels(members), disturbance)
    }

    // Enters a slot and carries it to the active channels. Answers what arrived.
    pub(crate) fn pass_slot<B: Bus>(
        &mut self,
        alloc: Global,
        bus: &mut B,
        slot: Slot,
        disturbance: &mut Disturbance,
    ) -> Result<Delivered, Halt>
        requires on { on_bus slot ≡ true }
        requires among { IsToActive slot }
        requires stands { (earlier : Log) × (current : Log) × (steps : Steps)
            × MayEnter slot earlier current steps self.old disturbance.old }
        ensures { PassesPart B.may (MayEnter slot) (HasArrived slot) result self.old self.new disturbance.old
            disturbance.new
            (B.seen bus.old) (B.seen bus.new) }
    {
        self.enter(slot);
        self.carry_to_active(alloc, bus, slot, disturbance)
    }

    // The cycle opens, and the running channels hear who asks to be restored.
    fn ask<B: Bus>(
        &mut self,
        alloc: Global,
        bus: &mut B,
        disturbance: &mut Disturbance,
    ) -> Result<(), Halt>
        requires { (earlier : Log) × (current : Log) × (steps : Steps)
            × IsAtStart earlier current steps self.old disturbance.old }
        ensures { PassesPart B.may IsAtStart (λ _. IsWithinCycle Request (stage_after Request) (stage_after Request))
            result self.old self.new disturbance.old disturbance.new
            (B.seen bus.old) (B.seen bus.new) }
    {
        self.open(alloc)?;
        let arrived = self.carry_to_active(alloc, bus, Slot::Request, disturbance)?;
        self.hear(&arrived);
        Ok(())
    }

    // The running channels receive what arrived in the slot of a round, where there is such a round.
    fn receive(&mut self, arrived: &Delivered, slot: Slot)
        requires round { 1 ≤ round_number slot }
        requires stands { (earlier : Log) × (current : Log) × (steps : Steps)
            × InCycle self.old.mission earlier current steps slot (stage_after slot) (stage_before slot) self.old
            × AreArrivals self.old.mission (earlier ++ current) self.old.done slot (got_of arrived.now) }
        ensures kept { IsWorldKept self.old self.new }
        ensures state { (earlier current : Log) (steps : Steps) →
            InCycle self.old.mission earlier current steps slot (stage_after slot) (stage_before slot) self.old →
            AreArrivals self.old.mission (earlier ++ current) self.old.done slot (got_of arrived.now) →
            self.new ≡ record self.old {
              nodes =
                  nodes_received self.old.mission (earlier ++ current) self.old.done (round_number slot)
                  (got_of arrived.now) self.old.nodes;
            } }
    {
        arrived.fits();
        let members = self.switchboard.on();
        let round = slot.index();
        if has_round(members, round) {
            self.nodes.receive(arrived, round, members);
        }
    }

    // One of the first two rounds.
    fn round<B: Bus>(
        &mut self,
        alloc: Global,
        bus: &mut B,
        slot: Slot,
        disturbance: &mut Disturbance,
    ) -> Result<(), Halt>
        requires low { 1 ≤ round_number slot }
        requires high { round_number slot ≤ 2 }
        requires stands { (earlier : Log) × (current : Log) × (steps : Steps)
            × MayEnter slot earlier current steps self.old disturbance.old }
        ensures { PassesPart B.may (MayEnter slot) (λ _. IsWithinCycle slot (stage_after slot) (stage_after slot))
            result self.old self.new disturbance.old disturbance.new
            (B.seen bus.old) (B.seen bus.new) }
    {
        let arrived = self.pass_slot(alloc, bus, slot, disturbance)?;
        self.receive(&arrived, slot);
        Ok(())
    }

    // The running channels decide by what they received, in the last round too. Answers what the first of them settled.
    fn decide(&mut self, arrived: &Delivered) -> Reconfiguration
        requires { (earlier : Log) × (current : Log) × (steps : Steps)
            × InCycle self.old.mission earlier current steps Round3 (stage_after Round3) (stage_before Round3) self.old
            × AreArrivals self.old.mission (earlier ++ current) self.old.done Round3 (got_of arrived.now) }
        ensures kept { IsWorldKept self.old self.new }
        ensures state { (earlier current : Log) (steps : Steps) →
            InCycle self.old.mission earlier current steps Round3 (stage_after Round3) (stage_before Round3) self.old →
            AreArrivals self.old.mission (earlier ++ current) self.old.done Round3 (got_of arrived.now) →
            InCycle self.old.mission earlier current steps Round3 (stage_after Round3) (stage_after Round3) self.new }
        ensures settled { (earlier current : Log) (steps : Steps) →
            InCycle self.old.mission earlier current steps Round3 (stage_after Round3) (stage_before Round3) self.old →
            AreArrivals self.old.mission (earlier ++ current) self.old.done Round3 (got_of arrived.now) →
            AreOfCycle result self.old.mission (earlier ++ current) self.old.done }
    {
        self.receive(arrived, Slot::Round3);
        let removed = self.nodes.decide(&self.mission, self.done).unwrap();
        Reconfiguration {
            removed,
            transfer: self.nodes.transfer(),
        }
    }

    // The last round, and the decision.
    fn last_round<B: Bus>(
        &mut self,
        alloc: Global,
        bus: &mut B,
        disturbance: &mut Disturbance,
    ) -> Result<Reconfiguration, Halt>
        requires { (earlier : Log) × (current : Log) × (steps : Steps)
            × MayEnter Round3 earlier current steps self.old disturbance.old }
        ensures { PassesPart B.may (MayEnter Round3) IsDecided result self.old self.new disturbance.old disturbance.new
            (B.seen bus.old) (B.seen bus.new) }
    {
        let arrived = self.pass_slot(alloc, bus, Slot::Round3, disturbance)?;
        Ok(self.decide(&arrived))
    }

    // The first part of a cycle: its opening, the requests, the rounds, the decision, and the tasks slot up to the
    // work.
    pub(crate) fn settle<B: Bus>(
        &mut self,
        alloc: Global,
        bus: &mut B,
        disturbance: &mut Disturbance,
    ) -> Result<Reconfiguration, Halt>
        requires { (earlier : Log) × (current : Log) × (steps : Steps)
            × IsAtStart earlier current steps self.old disturbance.old }
        ensures { PassesPart B.may IsAtStart IsSettled result self.old self.new disturbance.old disturbance.new
            (B.seen bus.old) (B.seen bus.new) }
    {
        self.ask(alloc, bus, disturbance)?;
        self.round(alloc, bus, Slot::Round1, disturbance)?;
        self.round(alloc, bus, Slot::Round2, disturbance)?;
        let reconfiguration = self.last_round(alloc, bus, disturbance)?;
        self.pass_slot(alloc, bus, Slot::Tasks, disturbance)?;
        Ok(reconfiguration)
    }
}
