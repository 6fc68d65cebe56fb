//! The sweep slot, the final slot and the switch slot: what fills the joining channels and switches off the removed
//! ones.
ghost use Rattle.std.specs.Prelude.{◌≡◌, ◌++◌, OnOk, IfOk};
ghost use Rattle.guards_model.specs.declared.Slot.TheVariants.{Sweep, Final};
ghost use Rattle.guards_model.specs.Channels.{by_channel};
ghost use Rattle.guards_model.specs.Network.{Log, switchboard};
ghost use Rattle.guards_model.specs.Rounds.{Steps};
ghost use Rattle.guards_model.specs.Switchboard.{set_of};
ghost use Rattle.guards_model.specs.Slots.{stage_after, stage_before};
ghost use Rattle.guards_runs.specs.Cycles.{cycle_at};
ghost use Rattle.guards_runs.specs.ControlFacts.{closed_of};
ghost use Rattle.guards_world.specs.InCycle.{InCycle};
ghost use Rattle.channel_node.specs.Closing.{closed_value};
ghost use Rattle.guards_world.specs.Arrivals.{AreArrivals};
ghost use Rattle.icn_world.specs.Kept.{IsWorldKept};

use crate::world::{Halt, World};
use control_state::Closed;
use fault_script::Disturbance;
use guards_base::{Chan, ChanSet, table_by};
use guards_model::Slot;
use icn_bus::Bus;
use icn_frames::Body;
use slot_traffic::Receivers;
use std::alloc::{AllocError, Global};
use world_nodes::Arrived;

// What the slots leave: who is declared joined, how many blocks remain, who took a content, and the set that each
// channel sent to the switchboard.
#[derive(Clone, Copy)]
pub(crate) struct SweepResult {
    pub(crate) joined: ChanSet,
    pub(crate) remaining: Option<u16>,
    pub(crate) taken: ChanSet,
    pub(crate) sent: [Option<ChanSet>; 7],
}

// The set that a channel sent to the switchboard.
fn set_sent<A: Arrived>(arrived: &A, from: Chan) -> Option<ChanSet>
    ensures { result ≡ set_of (A.got arrived.now from switchboard) }
{
    match arrived.body(from, 7) {
        Some(Body::Switch(active)) => Some(*active),
        _ => None,
    }
}

// The sets that arrived at the switchboard, by their senders.
fn sets_sent<A: Arrived>(arrived: &A) -> [Option<ChanSet>; 7]
    ensures { result ≡ by_channel (λ j. set_of (A.got arrived.now j switchboard)) }
{
    table_by(
        |from: Chan| -> Option<ChanSet>
            ensures { result ≡ set_of (A.got arrived.entry.now from switchboard) }
        { set_sent(arrived, from) },
    )
}

impl World {
    // Hands over the sweep slot: the joining channels take the copies, and the running ones close the cycle. Answers
    // what the first of these answers.
    fn close<A: Arrived>(&mut self, alloc: Global, arrived: &A) -> Result<Closed, AllocError>
        requires { (earlier : Log) × (current : Log) × (steps : Steps)
            × InCycle self.old.mission earlier current steps Sweep (stage_after Sweep) (stage_before Sweep) self.old }
        ensures kept { IsWorldKept self.old self.new }
        ensures state { (earlier current : Log) (steps : Steps) →
            InCycle self.old.mission earlier current steps Sweep (stage_after Sweep) (stage_before Sweep) self.old →
            AreArrivals self.old.mission (earlier ++ current) self.old.done Sweep (A.got arrived.now) →
            OnOk result (InCycle self.old.mission earlier current steps Sweep (stage_after Sweep) (stage_after Sweep)
            self.new) }
        ensures closed { (earlier current : Log) (steps : Steps) →
            InCycle self.old.mission earlier current steps Sweep (stage_after Sweep) (stage_before Sweep) self.old →
            IfOk result (λ closed. closed_value closed
            ≡ closed_of (cycle_at self.old.mission (earlier ++ current) self.old.done)) }
    {
        let members = self.switchboard.on();
        self.nodes.take_sweep(alloc, self.done, members, arrived)?;
        let closed = self.nodes.close(&self.mission, self.done).unwrap();
        Ok(closed)
    }
}

impl World {
    ghost use Rattle.icn_world.specs.Stages.{PassesPart, IsWithinCycle};
    ghost use Rattle.icn_world.specs.Restored.{MayRestore, HasClosed, MayTakeContent, IsTaken, IsSwitched, IsRestored};

    // The sweep slot: the running channels send their copies to the targets, and close the cycle.
    fn pass_sweep<B: Bus>(
        &mut self,
        alloc: Global,
        bus: &mut B,
        disturbance: &mut Disturbance,
        targets: ChanSet,
    ) -> Result<Closed, Halt>
        requires { (earlier : Log) × (current : Log) × (steps : Steps)
            × MayRestore targets earlier current steps self.old disturbance.old }
        ensures { PassesPart B.may (MayRestore targets) HasClosed result self.old self.new disturbance.old
            disturbance.new
            (B.seen bus.old) (B.seen bus.new) }
    {
        self.enter(Slot::Sweep);
        let to = Receivers::Channels(targets);
        let arrived = self.carry(alloc, bus, Slot::Sweep, to, disturbance)?;
        let closed = self.close(alloc, &arrived)?;
        Ok(closed)
    }

    // The final slot: those that are declared joined are sent the last blocks. Answers who took a content.
    fn pass_final<B: Bus>(
        &mut self,
        alloc: Global,
        bus: &mut B,
        disturbance: &mut Disturbance,
        joined: ChanSet,
    ) -> Result<ChanSet, Halt>
        requires { (earlier : Log) × (current : Log) × (steps : Steps)
            × MayTakeContent joined earlier current steps self.old disturbance.old }
        ensures { PassesPart B.may (MayTakeContent joined) IsTaken result self.old self.new disturbance.old
            disturbance.new
            (B.seen bus.old) (B.seen bus.new) }
    {
        self.enter(Slot::Final);
        let to = Receivers::Channels(joined);
        let arrived = self.carry(alloc, bus, Slot::Final, to, disturbance)?;
        arrived.fits();
        let taken = self.take_final(alloc, &arrived)?;
        Ok(taken)
    }

    // The switch slot: the running channels send the next active set to the switchboard. Answers what arrived there.
    fn pass_switch<B: Bus>(
        &mut self,
        alloc: Global,
        bus: &mut B,
        disturbance: &mut Disturbance,
    ) -> Result<[Option<ChanSet>; 7], Halt>
        requires { (earlier : Log) × (current : Log) × (steps : Steps)
            × IsWithinCycle Final (stage_after Final) (stage_after Final) earlier current steps self.old
            disturbance.old }
        ensures { PassesPart B.may (IsWithinCycle Final (stage_after Final) (stage_after Final)) IsSwitched result
            self.old self.new disturbance.old disturbance.new
            (B.seen bus.old) (B.seen bus.new) }
    {
        self.enter(Slot::Switch);
        let arrived = self.carry(
            alloc,
            bus,
            Slot::Switch,
            Receivers::Switchboard,
            disturbance,
        )?;
        let sent = sets_sent(&arrived);
        Ok(sent)
    }

    // Passes the sweep, the final and the switch slot, where the running transfer has these targets.
    pub(crate) fn restore<B: Bus>(
        &mut self,
        alloc: Global,
        bus: &mut B,
        disturbance: &mut Disturbance,
        targets: ChanSet,
    ) -> Result<SweepResult, Halt>
        requires { (earlier : Log) × (current : Log) × (steps : Steps)
            × MayRestore targets earlier current steps self.old disturbance.old }
        ensures { PassesPart B.may (MayRestore targets) IsRestored result self.old self.new disturbance.old
            disturbance.new
            (B.seen bus.old) (B.seen bus.new) }
    {
        let closed = self.pass_sweep(alloc, bus, disturbance, targets)?;
        let joined = closed.joined;
        let remaining = closed.remaining;
        let taken = self.pass_final(alloc, bus, disturbance, joined)?;
        let sent = self.pass_switch(alloc, bus, disturbance)?;
        Ok(SweepResult {
            joined,
            remaining,
            taken,
            sent,
        })
    }
}
