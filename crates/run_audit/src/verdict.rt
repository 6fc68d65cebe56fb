//! The verdict on a trace.
ghost use Rattle.std.specs.Prelude.{◌≡◌, length, IfOk};
ghost use Rattle.guards_audit.specs.Consistency as place;
ghost use Rattle.run_audit.specs.Values.{IsInUse, line_value, sizes_of};
ghost use Rattle.told_cycles.specs.Standing.{StandsAt, StandsSomewhere, Takes};
ghost use Rattle.run_audit.specs.Answers.{IsVerdict};

use crate::line::{Line, Sizes, read_line};
use crate::recorded::line_len;
use mission_type::Mission;
use native_calls::Calls;
use std::alloc::{AllocError, Global};
use told_cycles::Auditor;

/// Whether a trace is consistent with a mission.
#[derive(Clone, Copy, Debug, PartialEq, Eq)]
pub enum Verdict {
    Yes,
    /// The first line that is not good, from 1; or one more than the number of lines where the trace ends too early.
    No { line: u32 },
}

fn channels(mission: &Mission) -> u8
    ensures { result ≡ mission.now.rules.channels }
{
    mission.rules().channels
}

fn outputs(mission: &Mission) -> u8
    ensures { result ≡ length mission.now.outputs }
{
    mission.prove_sizes();
    mission.outputs().len() as u8
}

/// The sizes of a mission's lines.
fn sizes(mission: &Mission) -> Sizes
    ensures value { result ≡ sizes_of mission.now }
    ensures used { IsInUse result }
{
    mission.prove_sizes();
    Sizes {
        channels: channels(mission),
        width: mission.width(),
        outputs: outputs(mission),
    }
}

/// Takes a line, and answers whether it fits.
fn take<C: Calls>(auditor: &mut Auditor, mission: &Mission, line: Line, natives: &C) -> bool
    requires { StandsSomewhere mission.now auditor.old }
    ensures { (at : place.Place) → StandsAt mission.now at auditor.old →
        Takes mission.now at (line_value (sizes_of mission.now) line) auditor.new result }
{
    match line {
        Line::Head { channels, cycles } => auditor.take_head(mission, channels, cycles),
        Line::Cycle {
            cycle,
            active,
            transfer,
        } => { auditor.take_cycle(mission, cycle, active, transfer) }
        Line::Channel(line) => auditor.take_channel(mission, line, natives),
        Line::Steps(trace) => {
            let fits = auditor.take_steps(mission, &trace);
            drop(trace);
            fits
        }
        Line::End {
            removed,
            joined,
            remaining,
        } => { auditor.take_end(mission, removed, joined, remaining, natives) }
        Line::Out { words } => auditor.take_out(mission, &words),
        Line::Done { cycles } => auditor.take_done(mission, cycles),
    }
}

/// The verdict on a trace, for an auditor before its first line.
fn verdict_on<C: Calls>(
    alloc: Global,
    auditor: &mut Auditor,
    mission: &Mission,
    trace: &[u8],
    natives: &C,
) -> Result<Verdict, AllocError>
    requires { StandsAt mission.now place.at_head auditor.old }
    ensures { IfOk result (IsVerdict mission.now trace.now) }
{
    mission.prove_mission();
    mission.prove_sizes();
    let mut rest = trace;
    let mut line = 1;
    while !rest.is_empty() {
        let (now, more) = rest.split_at(line_len(rest));
        let Some(read) = read_line(alloc, now, sizes(mission))? else {
            return Ok(Verdict::No { line });
        };
        if !take(auditor, mission, read, natives) {
            return Ok(Verdict::No { line });
        }
        line += 1;
        rest = more;
    }
    if auditor.is_over() {
        return Ok(Verdict::Yes);
    }
    Ok(Verdict::No { line })
}

/// Whether a trace is consistent with a mission, in one pass over its lines.
pub fn audit<C: Calls>(
    alloc: Global,
    mission: &Mission,
    trace: &[u8],
    natives: &C,
) -> Result<Verdict, AllocError>
    ensures { IfOk result (IsVerdict mission.now trace.now) }
{
    let mut auditor = Auditor::new(alloc, mission)?;
    let verdict = verdict_on(alloc, &mut auditor, mission, trace, natives);
    drop(auditor);
    verdict
}
