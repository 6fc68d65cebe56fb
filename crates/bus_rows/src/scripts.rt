ghost use Rattle.std.specs.Prelude.{◌≡◌, true, IfOk};
ghost use Rattle.fault_script.specs.Entries.{fault_value, is_in_cycle};

use fault_script::{Disturbance, Fault, Faults, Ledger, Script, ScriptFault};
use guards_base::{Bytes, Chan, ChanSet, Slot};
use icn_bus::{Act, Rule};
use std::alloc::{AllocError, Global};
use std::test::Fail;

fn lose(cycle: u32, from: Chan, to: Option<u8>) -> Fault
    ensures { is_in_cycle (fault_value result) ≡ true }
{
    Fault::Bus(Rule {
        cycle,
        slot: Slot::Vote,
        from,
        to,
        act: Act::Lose,
    })
}

fn forge(alloc: Global, from: Chan, length: usize) -> Result<Fault, AllocError>
    ensures { IfOk result (λ entry. is_in_cycle (fault_value entry) ≡ true) }
{
    let piece = Bytes::from_vec(vec![in alloc; 0; length]?);
    Ok(Fault::Bus(Rule {
        cycle: 1,
        slot: Slot::Output,
        from,
        to: Some(8),
        act: Act::Forge(piece),
    }))
}

fn restart(channel: u8, cycle: u32) -> Fault
    ensures { is_in_cycle (fault_value result) ≡ true }
{
    Fault::Restart { channel, cycle }
}

fn damage(channel: u8, cycle: u32, block: u8, word: u8) -> Fault
    ensures { is_in_cycle (fault_value result) ≡ true }
{
    Fault::Damage {
        channel,
        cycle,
        block,
        word,
        value: 100,
    }
}

/// The fault of a script for five channels, twelve cycles and eight blocks whose second entry is this one.
fn fault_of(alloc: Global, entry: Fault) -> Result<Option<ScriptFault>, AllocError>
    requires { is_in_cycle (fault_value entry) ≡ true }
{
    let mut faults = Faults::new(alloc);
    faults.push(restart(4, 1))?;
    faults.push(entry)?;
    Ok(Script::new(alloc, faults, 5, 12, 8).err())
}

/// The faults of six second entries.
fn faults_of(alloc: Global, two: Chan, six: Chan) -> Result<[Option<ScriptFault>; 6], AllocError> {
    Ok([
        fault_of(alloc, restart(5, 12))?,
        fault_of(alloc, damage(4, 0, 8, 8))?,
        fault_of(alloc, lose(0, six, None))?,
        fault_of(alloc, lose(0, two, Some(2)))?,
        fault_of(alloc, forge(alloc, two, 4301)?)?,
        fault_of(alloc, forge(alloc, two, 4300)?)?,
    ])
}

#[test]
fn first_broken_rule_is_answered(rt: HostRuntime) -> Result<(), Fail> {
    let two = Chan::new(2).ok_or("a channel")?;
    let six = Chan::new(6).ok_or("a channel")?;
    let faults = faults_of(rt.alloc(), two, six)?;
    let wanted = [
        Some(ScriptFault::Cycle { at: 1 }),
        Some(ScriptFault::Block { at: 1 }),
        Some(ScriptFault::Channel { at: 1 }),
        Some(ScriptFault::To { at: 1 }),
        Some(ScriptFault::Long { at: 1 }),
        None,
    ];
    assert_eq!(rt; faults, wanted);
    Ok(())
}

/// A channel crashes and comes back, another one is damaged and then crashes.
fn crash_and_damage(alloc: Global) -> Result<Option<Script>, AllocError> {
    let mut faults = Faults::new(alloc);
    faults.push(Fault::Crash {
        channel: 4,
        cycle: 0,
        slot: Slot::Request,
    })?;
    faults.push(restart(4, 1))?;
    faults.push(damage(2, 1, 0, 0))?;
    faults.push(Fault::Crash {
        channel: 2,
        cycle: 1,
        slot: Slot::Vote,
    })?;
    Ok(Script::new(alloc, faults, 5, 12, 8).ok())
}

/// What three cycles' steps answer, each set as its mask: a crash, its restart, a damage, its disturbance and its end,
/// a removal and the wait.
fn steps(script: &Script, three: Chan, four: Chan) -> [u8; 12] {
    let all = ChanSet::below(5);
    let none = ChanSet::empty();
    let mut ledger = Ledger::first(5, 1);
    let s0 = ledger.start_cycle(script, 0).mask();
    let s1 = ledger.start_slot(script, 0, Slot::Request).mask();
    let s2 = ledger.end_cycle(all, none).mask();
    let s3 = ledger.start_cycle(script, 1).mask();
    let s4 = ledger.damaged().mask();
    let mut disturbance = Disturbance::begin(ChanSet::below(4));
    let s5 = disturbance.set(&ledger).mask();
    let s6 = ledger.start_slot(script, 1, Slot::Vote).mask();
    let s7 = ledger.damaged().mask();
    disturbance.charge(three);
    let s8 = disturbance.set(&ledger).mask();
    let s9 = ledger.end_cycle(all.without(three), none.with(four)).mask();
    let s10 = ledger.start_cycle(script, 2).mask();
    let s11 = ledger.start_cycle(script, 3).mask();
    [s0, s1, s2, s3, s4, s5, s6, s7, s8, s9, s10, s11]
}

#[test]
fn modes_and_marks_follow_the_script(rt: HostRuntime) -> Result<(), Fail> {
    let script = crash_and_damage(rt.alloc())?.ok_or("a script")?;
    let three = Chan::new(3).ok_or("a channel")?;
    let four = Chan::new(4).ok_or("a channel")?;
    let masks = steps(&script, three, four);
    assert_eq!(rt; masks, [0, 16, 0, 16, 4, 4, 4, 0, 12, 8, 0, 8]);
    Ok(())
}
