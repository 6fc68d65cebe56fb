//! How the world carries a slot.
ghost use Rattle.std.specs.Prelude.{◌≡◌, ◌<◌, ◌||◌, ◌&&◌};
ghost use Rattle.guards_model.specs.Channels.{Channel, has};
ghost use Rattle.guards_model.specs.Missions.{format_of};
ghost use Rattle.guards_model.specs.Network.{Log};
ghost use Rattle.guards_model.specs.Rounds.{Steps};
ghost use Rattle.slot_traffic.specs.Receiving.{receiver_numbers};
ghost use Rattle.fault_script.specs.declared.disturbance.Disturbance.{Disturbance as DisturbanceValue};
ghost use Rattle.icn_world.specs.Stages.{PassesPart, HasArrived, MayCarry};
ghost use Rattle.icn_world.specs.Sent.{HasSent};

use crate::world::{Halt, World};
use fault_script::Disturbance;
use guards_base::{Chan, ChanSet, Slot};
use icn_bus::Bus;
use slot_traffic::{Format, Receivers, Traffic};
use std::alloc::{AllocError, Global};
use world_nodes::every_channel;
use world_traffic::{Delivered, send_slot};

// Charges the senders among these channels.
fn charge_each(disturbance: &mut Disturbance, senders: ChanSet, channels: &[Chan])
    ensures active { disturbance.new.active ≡ disturbance.old.active }
    ensures charged { (q : Channel) → q < 7 →
        has disturbance.new.charged q ≡ (has disturbance.old.charged q || (has channels.now q && has senders q)) }
{
    let Some((channel, rest)) = channels.split_first() else {
        return;
    };
    if senders.has(*channel) {
        disturbance.charge(*channel);
        charge_each(disturbance, senders, rest);
    } else {
        charge_each(disturbance, senders, rest);
    }
}

impl World {
    // By what the frames that arrive are judged.
    fn format(&self) -> Format
        ensures { result ≡ format_of self.now.mission }
    {
        self.mission.prove_sizes();
        let rules = self.mission.rules();
        Format {
            version: rules.version,
            law: rules.law,
            blocks: rules.blocks,
            outputs: self.mission.outputs().len() as u8,
        }
    }

    // Sends the frames of a slot, and counts what was carried.
    fn send<B: Bus>(
        &mut self,
        alloc: Global,
        bus: &mut B,
        slot: Slot,
        to: Receivers,
    ) -> Result<Traffic, AllocError>
        requires { (earlier : Log) × (current : Log) × (steps : Steps) × (d : DisturbanceValue)
            × MayCarry slot (receiver_numbers to) earlier current steps self.old d }
        ensures { HasSent B.may slot (receiver_numbers to) result self.old self.new
            (B.seen bus.old) (B.seen bus.new) }
    {
        let mut traffic = Traffic::begin(alloc, self.done, slot);
        let sent = send_slot(alloc, &mut traffic, bus, &self.nodes, &self.mission, to);
        self.carried += traffic.len() as u64;
        match sent {
            Ok(()) => Ok(traffic),
            Err(error) => Err(error),
        }
    }

    // Carries a slot: the frames of its senders, and then the test whether the run stops there. Answers what arrived.
    pub(crate) fn carry<B: Bus>(
        &mut self,
        alloc: Global,
        bus: &mut B,
        slot: Slot,
        to: Receivers,
        disturbance: &mut Disturbance,
    ) -> Result<Delivered, Halt>
        requires { (earlier : Log) × (current : Log) × (steps : Steps)
            × MayCarry slot (receiver_numbers to) earlier current steps self.old disturbance.old }
        ensures { PassesPart B.may (MayCarry slot (receiver_numbers to)) (HasArrived slot) result self.old self.new
            disturbance.old disturbance.new
            (B.seen bus.old) (B.seen bus.new) }
    {
        let traffic = match self.send(alloc, bus, slot, to) {
            Ok(traffic) => traffic,
            Err(_) => return Err(Halt::NoMemory),
        };
        charge_each(disturbance, traffic.charged(), &every_channel());
        if disturbance.reached(&self.ledger) {
            return Err(Halt::Disturbed {
                cycle: self.done,
                slot,
                set: disturbance.set(&self.ledger),
                active: self.switchboard.on(),
            });
        }
        match traffic.read(self.format()) {
            Ok(arrived) => Ok(Delivered::of(arrived)),
            Err(_) => Err(Halt::NoMemory),
        }
    }
}
