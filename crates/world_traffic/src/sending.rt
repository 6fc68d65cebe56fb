//! What the nodes send in a slot.
ghost use Rattle.std.specs.Prelude.{◌≡◌, [], ◌∷◌, IsTrue, All, filter, IfOk, IfSome, OnOk, OnErr};
ghost use Rattle.guards_model.specs.Channels.{has};
ghost use Rattle.guards_model.specs.Frames.{in_range};
ghost use Rattle.guards_nodes.specs.NodeSteps.{Received, StandsFor};
ghost use Rattle.guards_nodes.specs.NodeFrames.{framed};
ghost use Rattle.guards_world.specs.OwedFrames.{body_of};
ghost use Rattle.slot_traffic.specs.Receiving.{receiver_numbers};
ghost use Rattle.guards_world.specs.NodeLists.{AllReceived, StandsForReceived};
ghost use Rattle.guards_world.specs.SlotSends.{MaySend, SendsSlot, SendsFirstOfSlot, all_sends, has_targets, sends_by, sends_of};

use channel_node::Node;
use guards_base::{Chan, ChanSet, Slot};
use icn_bus::Bus;
use icn_frames::Frame;
use mission_type::Mission;
use slot_traffic::{Receivers, Traffic};
use std::alloc::{AllocError, Global};
use world_nodes::{Nodes, every_channel};

// Whether the frames of a slot have a target.
fn has_targets(slot: Slot) -> bool
    ensures { result ≡ has_targets slot }
{
    match slot {
        Slot::Sweep | Slot::Final => true,
        Slot::Request
        | Slot::Round1
        | Slot::Round2
        | Slot::Round3
        | Slot::Tasks
        | Slot::Vote
        | Slot::Switch
        | Slot::Output => false,
    }
}

// The frame that a node owes to a channel in a slot; in a slot whose frames have no target it is the same for all.
fn owed(
    alloc: Global,
    node: &Node,
    mission: &Mission,
    cycle: u32,
    slot: Slot,
    target: Chan,
) -> Result<Option<Frame>, AllocError>
    requires { mission.now.rules ≡ node.now.rules }
    ensures { (received : Received) → StandsFor node.now.state received →
        IfOk result (λ frame. frame ≡ framed node.now cycle (body_of mission.now received slot target node.now.state)) }
{
    match slot {
        Slot::Request => Ok(node.request(cycle)),
        Slot::Round1 => node.relay(alloc, cycle, 1),
        Slot::Round2 => node.relay(alloc, cycle, 2),
        Slot::Round3 => node.relay(alloc, cycle, 3),
        Slot::Vote => Ok(node.vote_frame(mission, cycle)),
        Slot::Sweep => node.sweep_frame(alloc, cycle, target),
        Slot::Final => node.final_frame(alloc, cycle, target),
        Slot::Switch => Ok(node.switch_frame(cycle)),
        Slot::Tasks | Slot::Output => Ok(None),
    }
}

// Sends a frame, if there is one.
fn send_frame<B: Bus>(
    traffic: &mut Traffic,
    bus: &mut B,
    frame: Option<Frame>,
    to: Receivers,
) -> Result<(), AllocError>
    requires { IfSome frame (λ frame. IsTrue (in_range frame)) }
    ensures script { (B.seen bus.new).script ≡ (B.seen bus.old).script }
    ensures sent { OnOk result (SendsSlot B.may (B.seen bus.old).script (B.seen bus.old).log (B.seen bus.new).log
        (sends_by traffic.old.cycle traffic.old.slot (receiver_numbers to) frame) traffic.old traffic.new) }
    ensures some { OnErr result
        (SendsFirstOfSlot B.may (B.seen bus.old).script (B.seen bus.old).log (B.seen bus.new).log
        (sends_by traffic.old.cycle traffic.old.slot (receiver_numbers to) frame) traffic.old traffic.new) }
{
    match frame {
        Some(frame) => traffic.send(bus, frame, to),
        None => Ok(()),
    }
}

// Sends the frame that a node owes to a channel.
fn send_owed<B: Bus>(
    alloc: Global,
    traffic: &mut Traffic,
    bus: &mut B,
    node: &Node,
    mission: &Mission,
    target: Chan,
    to: Receivers,
) -> Result<(), AllocError>
    requires { (received : AllReceived) × StandsForReceived received node.now
        × MaySend mission.now traffic.old.cycle traffic.old.slot received node.now }
    ensures script { (B.seen bus.new).script ≡ (B.seen bus.old).script }
    ensures sent { (received : AllReceived) → StandsForReceived received node.now →
        OnOk result (SendsSlot B.may (B.seen bus.old).script (B.seen bus.old).log (B.seen bus.new).log
        (sends_by traffic.old.cycle traffic.old.slot (receiver_numbers to)
        (framed node.now traffic.old.cycle
        (body_of mission.now (received node.now.channel) traffic.old.slot target node.now.state)))
        traffic.old traffic.new) }
    ensures some { (received : AllReceived) → StandsForReceived received node.now →
        OnErr result (SendsFirstOfSlot B.may (B.seen bus.old).script (B.seen bus.old).log (B.seen bus.new).log
        (sends_by traffic.old.cycle traffic.old.slot (receiver_numbers to)
        (framed node.now traffic.old.cycle
        (body_of mission.now (received node.now.channel) traffic.old.slot target node.now.state)))
        traffic.old traffic.new) }
{
    let frame = owed(
        alloc,
        node,
        mission,
        traffic.cycle(),
        traffic.slot(),
        target,
    )?;
    send_frame(traffic, bus, frame, to)
}

// The set of one channel.
fn set_of_one(c: Chan) -> ChanSet
    ensures { result ≡ c ∷ [] }
{
    let _ = c.index();
    ChanSet::empty().with(c)
}

// Sends a node's frames to those of these channels that are targets.
fn send_targets<B: Bus>(
    alloc: Global,
    traffic: &mut Traffic,
    bus: &mut B,
    node: &Node,
    mission: &Mission,
    targets: ChanSet,
    channels: &[Chan],
) -> Result<(), AllocError>
    requires { (received : AllReceived) × StandsForReceived received node.now
        × MaySend mission.now traffic.old.cycle traffic.old.slot received node.now }
    ensures script { (B.seen bus.new).script ≡ (B.seen bus.old).script }
    ensures sent { (received : AllReceived) → StandsForReceived received node.now →
        OnOk result (SendsSlot B.may (B.seen bus.old).script (B.seen bus.old).log (B.seen bus.new).log
        (sends_of mission.now traffic.old.cycle traffic.old.slot (filter (has targets) channels.now)
        (received node.now.channel) node.now)
        traffic.old traffic.new) }
    ensures some { (received : AllReceived) → StandsForReceived received node.now →
        OnErr result (SendsFirstOfSlot B.may (B.seen bus.old).script (B.seen bus.old).log (B.seen bus.new).log
        (sends_of mission.now traffic.old.cycle traffic.old.slot (filter (has targets) channels.now)
        (received node.now.channel) node.now)
        traffic.old traffic.new) }
{
    for target in channels {
        if targets.has(*target) {
            let to = Receivers::Channels(set_of_one(*target));
            send_owed(alloc, traffic, bus, node, mission, *target, to)?;
        }
    }
    Ok(())
}

// Sends a node's frames of the slot: one for each target, or the same to all.
fn send_node<B: Bus>(
    alloc: Global,
    traffic: &mut Traffic,
    bus: &mut B,
    node: &Node,
    mission: &Mission,
    to: Receivers,
) -> Result<(), AllocError>
    requires { (received : AllReceived) × StandsForReceived received node.now
        × MaySend mission.now traffic.old.cycle traffic.old.slot received node.now }
    ensures script { (B.seen bus.new).script ≡ (B.seen bus.old).script }
    ensures sent { (received : AllReceived) → StandsForReceived received node.now →
        OnOk result (SendsSlot B.may (B.seen bus.old).script (B.seen bus.old).log (B.seen bus.new).log
        (sends_of mission.now traffic.old.cycle traffic.old.slot (receiver_numbers to) (received node.now.channel)
        node.now)
        traffic.old traffic.new) }
    ensures some { (received : AllReceived) → StandsForReceived received node.now →
        OnErr result (SendsFirstOfSlot B.may (B.seen bus.old).script (B.seen bus.old).log (B.seen bus.new).log
        (sends_of mission.now traffic.old.cycle traffic.old.slot (receiver_numbers to) (received node.now.channel)
        node.now)
        traffic.old traffic.new) }
{
    if has_targets(traffic.slot()) {
        match to {
            Receivers::Channels(targets) => {
                let _ = targets.flags();
                send_targets(
                    alloc,
                    traffic,
                    bus,
                    node,
                    mission,
                    targets,
                    &every_channel(),
                )
            }
            // No frame has the switchboard as its target.
            Receivers::Switchboard => Ok(()),
        }
    } else {
        send_owed(alloc, traffic, bus, node, mission, node.channel(), to)
    }
}

// Sends the frames of these nodes, in order.
fn send_each<B: Bus>(
    alloc: Global,
    traffic: &mut Traffic,
    bus: &mut B,
    nodes: &[Node],
    mission: &Mission,
    to: &Receivers,
) -> Result<(), AllocError>
    requires { (received : AllReceived) × All (StandsForReceived received) nodes.now
        × All (MaySend mission.now traffic.old.cycle traffic.old.slot received) nodes.now }
    ensures script { (B.seen bus.new).script ≡ (B.seen bus.old).script }
    ensures sent { (received : AllReceived) → All (StandsForReceived received) nodes.now →
        OnOk result (SendsSlot B.may (B.seen bus.old).script (B.seen bus.old).log (B.seen bus.new).log
        (all_sends mission.now traffic.old.cycle traffic.old.slot (receiver_numbers to.now) received nodes.now)
        traffic.old traffic.new) }
    ensures some { (received : AllReceived) → All (StandsForReceived received) nodes.now →
        OnErr result (SendsFirstOfSlot B.may (B.seen bus.old).script (B.seen bus.old).log (B.seen bus.new).log
        (all_sends mission.now traffic.old.cycle traffic.old.slot (receiver_numbers to.now) received nodes.now)
        traffic.old traffic.new) }
{
    for node in nodes {
        send_node(alloc, traffic, bus, node, mission, *to)?;
    }
    Ok(())
}

/// Sends what each node owes in the slot of the traffic, in their order: its frame to each receiver, and in the sweep
/// and the final slot to each target the frame for it. The traffic grows by what was carried, and for want of memory by
/// the first few of these entries.
pub fn send_slot<B: Bus>(
    alloc: Global,
    traffic: &mut Traffic,
    bus: &mut B,
    nodes: &Nodes,
    mission: &Mission,
    to: Receivers,
) -> Result<(), AllocError>
    requires { (received : AllReceived) × All (StandsForReceived received) nodes.now
        × All (MaySend mission.now traffic.old.cycle traffic.old.slot received) nodes.now }
    ensures script { (B.seen bus.new).script ≡ (B.seen bus.old).script }
    ensures sent { (received : AllReceived) → All (StandsForReceived received) nodes.now →
        OnOk result (SendsSlot B.may (B.seen bus.old).script (B.seen bus.old).log (B.seen bus.new).log
        (all_sends mission.now traffic.old.cycle traffic.old.slot (receiver_numbers to) received nodes.now) traffic.old
        traffic.new) }
    ensures some { (received : AllReceived) → All (StandsForReceived received) nodes.now →
        OnErr result (SendsFirstOfSlot B.may (B.seen bus.old).script (B.seen bus.old).log (B.seen bus.new).log
        (all_sends mission.now traffic.old.cycle traffic.old.slot (receiver_numbers to) received nodes.now) traffic.old
        traffic.new) }
{
    send_each(alloc, traffic, bus, nodes.as_slice(), mission, &to)
}
