//! What hostile input, a broken source or sink, and a gate that holds its workers come to.
use crate::crashes::borne;
use crate::ends::{broken_reads, broken_writes, fronts};
use crate::meeting::Meeting;
use crate::pieces::told;
use crate::stage::{returning, run, run_over, smooth};
use ctx_lock::Actor;
use icn_bus::ScriptBus;
use std::alloc::{AllocError, Global};
use std::sync::Wait;
use std::test::Fail;
use std::thread::Threads;
use worked_missions::SUM;

#[test]
fn a_changed_first_round_changes_nothing(rt: HostRuntime) -> Result<(), Fail> {
    let told = told(&rt, rt.alloc(), "4 1 round1 0 1")?;
    assert_eq!(rt; told, 8);
    Ok(())
}

#[test]
fn a_changed_second_round_changes_nothing(rt: HostRuntime) -> Result<(), Fail> {
    let told = told(&rt, rt.alloc(), "4 2 round2 0 1")?;
    assert_eq!(rt; told, 8);
    Ok(())
}

#[test]
fn a_changed_vote_changes_nothing(rt: HostRuntime) -> Result<(), Fail> {
    let told = told(&rt, rt.alloc(), "4 5 vote 0 1")?;
    assert_eq!(rt; told, 8);
    Ok(())
}

#[test]
fn a_changed_sweep_changes_nothing(rt: HostRuntime) -> Result<(), Fail> {
    let told = told(&rt, rt.alloc(), "4 6 sweep 0 4")?;
    assert_eq!(rt; told, 10);
    Ok(())
}

#[test]
fn a_changed_content_changes_nothing(rt: HostRuntime) -> Result<(), Fail> {
    let told = told(&rt, rt.alloc(), "5 7 final 0 4")?;
    assert_eq!(rt; told, 10);
    Ok(())
}

#[test]
fn a_changed_set_changes_nothing(rt: HostRuntime) -> Result<(), Fail> {
    let told = told(&rt, rt.alloc(), "4 8 switch 0 7")?;
    assert_eq!(rt; told, 8);
    Ok(())
}

#[test]
fn a_changed_request_changes_nothing(rt: HostRuntime) -> Result<(), Fail> {
    let told = told(&rt, rt.alloc(), "4 0 request 4 1")?;
    assert_eq!(rt; told, 8);
    Ok(())
}

#[test]
fn a_sender_may_crash_in_each_slot_of_a_transfer(rt: HostRuntime) -> Result<(), Fail> {
    let slots = "request round1 round2 round3 tasks vote sweep final switch";
    let borne = borne(&rt, rt.alloc(), slots)?;
    assert_eq!(rt; borne, 9);
    Ok(())
}

#[test]
fn fronts_of_a_mission_are_none(rt: HostRuntime) -> Result<(), Fail> {
    let (refused, all) = fronts(&rt, rt.alloc())?;
    assert_eq!(rt; refused, all);
    Ok(())
}

#[test]
fn each_read_may_fail(rt: HostRuntime) -> Result<(), Fail> {
    let broken = broken_reads(&rt, rt.alloc())?;
    assert_eq!(rt; broken, SUM.len() + 1);
    Ok(())
}

#[test]
fn each_write_may_fail(rt: HostRuntime) -> Result<(), Fail> {
    let broken = broken_writes(&rt, rt.alloc())?;
    assert_eq!(rt; broken, 4);
    Ok(())
}

// Whether a mission is told as with the open gate, and the two workers met.
fn is_met<R: Threads + Wait + Sync>(
    rt: &R,
    alloc: Global,
    mission: &str,
    gate: &Meeting,
) -> Result<bool, AllocError> {
    let plain = run(rt, alloc, &smooth(mission.as_bytes()))?;
    let mut bus = ScriptBus::empty(alloc);
    let held = run_over(rt, alloc, &smooth(mission.as_bytes()), &mut bus, gate)?;
    Ok(gate.was_held() && held.is_done(&plain.text))
}

#[test]
fn the_workers_of_a_channel_meet(rt: HostRuntime) -> Result<(), Fail> {
    let mission = returning(rt.alloc(), "")?;
    let gate = Meeting::new((0, Actor::Task), (0, Actor::Sweep), 3);
    let met = is_met(&rt, rt.alloc(), &mission, &gate)?;
    assert!(rt; met);
    Ok(())
}

#[test]
fn workers_of_two_channels_meet(rt: HostRuntime) -> Result<(), Fail> {
    let gate = Meeting::new((0, Actor::Task), (3, Actor::Task), 0);
    let met = is_met(&rt, rt.alloc(), SUM, &gate)?;
    assert!(rt; met);
    Ok(())
}
