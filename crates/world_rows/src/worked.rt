use crate::drive::{Outcome, run_mission};
use crate::replay::{acts_of, are_alike};
use crate::workers_meet::WorkersMeet;
use ctx_lock::OpenGate;
use icn_bus::{Entry, MemBus, ScriptBus};
use std::alloc::{AllocError, Global};
use std::sync::Wait;
use std::test::Fail;
use std::thread::Threads;
use worked_missions::restoring_rows::{self, ROUNDS, crash_and_return};
use worked_missions::{Row, parted, unfolded, voting_rows};

// What came of a row over the scripted bus that is not as the row says. It owns nothing: each place where an owner ends
// costs the proof seconds.
fn other_than(row: &Row, outcome: &Outcome, log: &[Entry], is_told: bool) -> Option<&'static str> {
    if outcome.first.done != row.done {
        return Some("the cycles that finished");
    }
    if outcome.first.carried != row.carried || log.len() as u64 != row.carried {
        return Some("the entries that were carried");
    }
    if outcome.later != outcome.first {
        return Some("the answer after a halt");
    }
    if !is_told {
        return Some("the text");
    }
    if !row.has_votes(log) {
        return Some("the vote frames");
    }
    None
}

// What came of a row over the scripted bus that is not as the row says.
fn mistake(
    alloc: Global,
    row: &Row,
    outcome: &Outcome,
    bus: &ScriptBus,
) -> Result<Option<&'static str>, AllocError> {
    let (text, _) = parted(alloc, outcome.text.as_str())?;
    let is_told = row.is_told(alloc, &text)?;
    Ok(other_than(row, outcome, bus.log(), is_told))
}

// Whether two outcomes are told alike, but for how steps interleave.
fn are_told_alike(alloc: Global, one: &str, other: &str) -> Result<bool, AllocError> {
    let (text, _) = parted(alloc, one)?;
    let (twin, _) = parted(alloc, other)?;
    Ok(text == twin)
}

// Whether a run over the bus in memory came to the same.
fn is_twin(outcome: &Outcome, log: &[Entry], again: &Outcome, twin: &[Entry]) -> bool {
    again.first == outcome.first && again.later == outcome.later && are_alike(log, twin)
}

// Whether a mission comes out the same over the bus in memory, where it does to each entry what the scripted bus did.
fn is_replayed<R: Threads + Wait + Sync>(
    rt: &R,
    alloc: Global,
    mission: &str,
    outcome: &Outcome,
    bus: &ScriptBus,
) -> Result<bool, AllocError> {
    let mut memory = MemBus::new(alloc, acts_of(alloc, bus.log())?);
    let Some(again) = run_mission(rt, alloc, mission, &mut memory, &OpenGate)? else {
        return Ok(false);
    };
    let is_told = are_told_alike(alloc, outcome.text.as_str(), again.text.as_str())?;
    Ok(is_told & is_twin(outcome, bus.log(), &again, memory.log()))
}

// What is not as a row says, over one bus and then over the other.
fn wrong<R: Threads + Wait + Sync>(
    rt: &R,
    alloc: Global,
    row: &Row,
) -> Result<Option<&'static str>, AllocError> {
    let mission = row.mission(alloc)?;
    let mut bus = ScriptBus::empty(alloc);
    let Some(outcome) = run_mission(rt, alloc, &mission, &mut bus, &OpenGate)? else {
        return Ok(Some("the mission"));
    };
    if let Some(what) = mistake(alloc, row, &outcome, &bus)? {
        return Ok(Some(what));
    }
    if !is_replayed(rt, alloc, &mission, &outcome, &bus)? {
        return Ok(Some("the run over the other bus"));
    }
    Ok(None)
}

// Appends what is not as a row says, behind its name.
fn push_wrong(
    alloc: Global,
    others: &mut String,
    name: &str,
    what: Option<&'static str>,
) -> Result<(), AllocError> {
    match what {
        None => Ok(()),
        Some(what) => others.push_str(&format!(in alloc; "; {name}: {what}")?),
    }
}

// How many rows a table has, and each that does not come out as it says.
fn passed<R: Threads + Wait + Sync>(
    rt: &R,
    alloc: Global,
    rows: &str,
) -> Result<String, AllocError> {
    let mut others = String::new(alloc);
    for text in rows.split('§') {
        let row = Row::of(text);
        let what = wrong(rt, alloc, &row)?;
        push_wrong(alloc, &mut others, row.name, what)?;
    }
    format!(in alloc; "{} rows{others}", rows.split('§').count())
}

#[test]
fn channels_vote(rt: HostRuntime) -> Result<(), Fail> {
    let told = passed(&rt, rt.alloc(), voting_rows::ROWS)?;
    assert_eq!(rt; told.as_str(), "14 rows");
    Ok(())
}

#[test]
fn channels_are_restored(rt: HostRuntime) -> Result<(), Fail> {
    let told = passed(&rt, rt.alloc(), restoring_rows::ROWS)?;
    assert_eq!(rt; told.as_str(), "11 rows");
    Ok(())
}

// Whether the rounds are told as they are worked out by hand.
fn has_rounds(alloc: Global, told: &str) -> Result<bool, AllocError> {
    let (_, rounds) = parted(alloc, told)?;
    let wanted = unfolded(alloc, ROUNDS)?;
    Ok(rounds == wanted)
}

// What is not as worked out by hand where the workers of a channel meet at a gate.
fn wrong_at<R: Threads + Wait + Sync>(
    rt: &R,
    alloc: Global,
    gate: &WorkersMeet,
) -> Result<Option<&'static str>, AllocError> {
    let row = crash_and_return();
    let mission = row.mission(alloc)?;
    let mut bus = ScriptBus::empty(alloc);
    let Some(outcome) = run_mission(rt, alloc, &mission, &mut bus, gate)? else {
        return Ok(Some("the mission"));
    };
    if !has_rounds(alloc, outcome.text.as_str())? {
        return Ok(Some("the rounds"));
    }
    mistake(alloc, &row, &outcome, &bus)
}

#[test]
fn the_workers_of_a_channel_meet(rt: HostRuntime) -> Result<(), Fail> {
    let gate = WorkersMeet::new();
    assert_eq!(rt; wrong_at(&rt, rt.alloc(), &gate)?, None);
    assert!(rt; gate.was_held());
    Ok(())
}
