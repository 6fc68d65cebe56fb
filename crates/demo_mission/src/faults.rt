//! The fault entries.
ghost use Rattle.std.specs.Prelude.{◌≡◌, ◌≤◌, ◌<◌, ◌+◌, ◌*◌, ◌%◌, ◌++◌, ◌∷◌, [], map, Some, Option, IfOk, OnOk, slice_get, unwrap_or};
ghost use Rattle.guards_model.specs.declared.Slot.TheVariants.{Request, Vote};
ghost use Rattle.guards_model.specs.Slots.{every_slot};
ghost use Rattle.guards_model.specs.Faults.{crash, restart, bus};
ghost use Rattle.guards_model.specs.BusRules.{lose};
ghost use Rattle.fault_script.specs.Entries.{fault_value};
ghost use Rattle.demo_mission.specs.Demo.{drawn, number_after, demo_script};

use crate::draws::Draws;
use fault_script::{Fault, Faults};
use guards_base::{Chan, Slot};
use icn_bus::{Act, Rule};
use std::alloc::{AllocError, Global};

const SLOTS: [Slot; 9] = [
    Slot::Request,
    Slot::Round1,
    Slot::Round2,
    Slot::Round3,
    Slot::Tasks,
    Slot::Vote,
    Slot::Sweep,
    Slot::Final,
    Slot::Switch,
];

/// A slot of the cycle by its number.
fn slot_of(number: u64) -> Slot
    requires { number < 9 }
    ensures { result ≡ unwrap_or (slice_get every_slot number) Request }
{
    SLOTS[number as usize]
}

/// The vote frame of a channel to the one after it is lost.
fn lost_vote(cycle: u32, from: u8) -> Fault
    requires { from < 7 }
    ensures { fault_value result
        ≡ bus (record { cycle = cycle; slot = Vote; from = from; to = Some ((from + 1) % 7); act = lose }) }
{
    Fault::Bus(Rule {
        cycle,
        slot: Slot::Vote,
        from: Chan::new(from).unwrap(),
        to: Some((from + 1) % 7),
        act: Act::Lose,
    })
}

/// A crash and its restart, and later a lost vote frame.
#[tactic(auto, unfolding(crate::specs::Demo::number_after))]
fn push_faults(faults: &mut Faults, k: u32, draws: &mut Draws) -> Result<(), AllocError>
    requires { k < 10 }
    ensures faults { OnOk result
        (map fault_value faults.new.items ≡ map fault_value faults.old.items ++ demo_script 1 k draws.old.number) }
    ensures number { OnOk result (draws.new.number ≡ number_after 3 draws.old.number) }
{
    let channel = draws.below(7) as u8;
    let slot = slot_of(draws.below(9));
    let sender = draws.below(7) as u8;
    faults.push(Fault::Crash {
        channel,
        cycle: 40 * k + 5,
        slot,
    })?;
    faults.push(Fault::Restart {
        channel,
        cycle: 40 * k + 10,
    })?;
    faults.push(lost_vote(40 * k + 30, sender))?;
    Ok(())
}

/// The entries of the script.
pub fn demo_faults(alloc: Global, draws: &mut Draws) -> Result<Faults, AllocError>
    ensures faults { IfOk result (λ faults. map fault_value faults.items ≡ demo_script 10 0 draws.old.number) }
{
    let mut faults = Faults::new(alloc);
    for k in 0..10 {
        push_faults(&mut faults, k, draws)?;
    }
    Ok(faults)
}
