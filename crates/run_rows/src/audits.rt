//! Traces that are judged by the missions before them.
use crate::sizes::padded;
use crate::stage::{Call, Ended, call_alone, smooth};
use mission_run::{MAX_AUDIT_BYTES, MAX_MISSION_BYTES};
use std::alloc::{AllocError, Global};
use std::sync::Wait;
use std::test::Fail;
use std::thread::Threads;
use worked_missions::{Row, SUM, changed, computing_rows, restoring_rows, voting_rows};

const ACTUATOR: &str = "[actuator]\nstep = [3]\n";

// What stands in the trace, once, what is written in its place, and the line that does not fit then.
const SUMS_CHANGED: [(&str, &str, u32); 6] = [
    ("cycle 0", "cycle 00", 2),
    (
        "vote 5 judged - alpha 0,0,0,0\ntrace 0 T",
        "vote 5 judged - alpha 0,0,0,0\ntrace 0 TT",
        7,
    ),
    ("remaining -\ncycle", "remaining 1\ncycle", 11),
    ("ch 0 in 5 vote 10", "ch 0 in 5 vote 11", 13),
    ("done 2\n", "done 2", 22),
    ("done 2\n", "done 2\ndone 2\n", 23),
];

// The same, with an actuator.
const MOVED_CHANGED: [(&str, &str, u32); 5] = [
    ("out 3", "out 4", 12),
    ("out 3", "out 03", 12),
    ("out 3\n", "", 12),
    ("out 6", "out 5", 23),
    ("out 6", "out 6,6", 23),
];

// A mission, the mark and a trace.
fn input_of(alloc: Global, mission: &str, trace: &str) -> Result<String, AllocError> {
    format!(in alloc; "{mission}--- trace\n{trace}")
}

fn trace_of<R: Threads + Wait + Sync>(
    rt: &R,
    alloc: Global,
    mission: &str,
) -> Result<Ended, AllocError> {
    call_alone(rt, alloc, &smooth("run --trace", mission))
}

fn audit<R: Threads + Wait + Sync>(
    rt: &R,
    alloc: Global,
    input: &str,
) -> Result<Ended, AllocError> {
    call_alone(rt, alloc, &smooth("audit", input))
}

// Whether this was answered and written, and the bus carried nothing.
fn is_told(ended: &Ended, status: u8, text: &str) -> bool {
    ended.status == status && ended.text.as_str() == text && ended.entries == 0
}

// Whether the trace was found to be consistent (0), or to be wrong at this line first.
fn is_judged(alloc: Global, ended: &Ended, line: u32) -> Result<bool, AllocError> {
    if line == 0 {
        return Ok(is_told(ended, 0, "audit yes\n"));
    }
    let text = format!(in alloc; "audit: no at line {line}\n")?;
    Ok(is_told(ended, 9, &text))
}

// Whether the input is judged so.
fn has_bad_line<R: Threads + Wait + Sync>(
    rt: &R,
    alloc: Global,
    input: &str,
    line: u32,
) -> Result<bool, AllocError> {
    is_judged(alloc, &audit(rt, alloc, input)?, line)
}

// Whether the trace of a mission is judged so once its texts have given way to others.
fn is_found<R: Threads + Wait + Sync>(
    rt: &R,
    alloc: Global,
    mission: &str,
    change: &(&str, &str, u32),
) -> Result<bool, AllocError> {
    let (old, new, line) = *change;
    let trace = changed(alloc, &trace_of(rt, alloc, mission)?.text, &[(old, new)])?;
    has_bad_line(rt, alloc, &input_of(alloc, mission, &trace)?, line)
}

#[test]
fn a_line_that_does_not_fit_is_found(rt: HostRuntime) -> Result<(), Fail> {
    let alloc = rt.alloc();
    for change in &SUMS_CHANGED {
        assert!(rt; is_found(&rt, alloc, SUM, change)?, "{}", change.1);
    }
    let moved = format!(in alloc; "{SUM}{ACTUATOR}")?;
    for change in &MOVED_CHANGED {
        assert!(rt; is_found(&rt, alloc, &moved, change)?, "{}", change.1);
    }
    Ok(())
}

// The line that is not good of the text of a traced run: 0 where the run came to its end, and that of its stop
// otherwise.
fn stop_line(ended: &Ended) -> u32 {
    let mut lines: u32 = 0;
    if ended.status != 0 {
        for _ in ended.text.lines() {
            lines = lines.saturating_add(1);
        }
    }
    lines
}

// Whether a mission's own trace is consistent, or wrong at its stop.
fn is_consistent<R: Threads + Wait + Sync>(
    rt: &R,
    alloc: Global,
    mission: &str,
) -> Result<bool, AllocError> {
    let ended = trace_of(rt, alloc, mission)?;
    let input = input_of(alloc, mission, &ended.text)?;
    has_bad_line(rt, alloc, &input, stop_line(&ended))
}

// How many rows a table has, and the names of those whose own trace is judged otherwise.
fn judged<R: Threads + Wait + Sync>(
    rt: &R,
    alloc: Global,
    rows: &str,
) -> Result<String, AllocError> {
    let mut others = String::new(alloc);
    for text in rows.split('§') {
        let row = Row::of(text);
        let mission = row.mission(alloc)?;
        if !is_consistent(rt, alloc, &mission)? {
            others.push_str(&format!(in alloc; "; {}", row.name)?)?;
        }
    }
    format!(in alloc; "{} rows{others}", rows.split('§').count())
}

#[test]
fn traces_of_whole_runs_are_consistent(rt: HostRuntime) -> Result<(), Fail> {
    let alloc = rt.alloc();
    let moved = format!(in alloc; "{SUM}{ACTUATOR}")?;
    assert!(rt; is_consistent(&rt, alloc, &moved)?);
    let told = judged(&rt, alloc, voting_rows::ROWS)?;
    assert_eq!(rt; told.as_str(), "14 rows");
    let told = judged(&rt, alloc, restoring_rows::ROWS)?;
    assert_eq!(rt; told.as_str(), "11 rows");
    let told = judged(&rt, alloc, computing_rows::ROWS)?;
    assert_eq!(rt; told.as_str(), "3 rows");
    Ok(())
}

// A report that is not traced has no steps to judge.
#[test]
fn a_plain_report_is_no_trace(rt: HostRuntime) -> Result<(), Fail> {
    let alloc = rt.alloc();
    let report = call_alone(&rt, alloc, &smooth("run", SUM))?;
    let input = input_of(alloc, SUM, &report.text)?;
    assert!(rt; has_bad_line(&rt, alloc, &input, 7)?);
    Ok(())
}

// What stands behind the mission, without its trace. The trace is empty, or begins with a mark.
const NO_TRACES: [&str; 4] = ["", "--- trace", "--- trace\n", "--- trace\n--- trace\n"];

// Marks before which no mission stands, and lines that are no marks.
const NO_MISSIONS: [(&str, &str); 6] = [
    ("", ""),
    ("--- trace", ""),
    ("--- trace\n", ""),
    ("--- trace ", "--- trace "),
    ("--- trace\r\n", "--- trace\r\n"),
    (" --- trace\n", " --- trace\n"),
];

#[test]
fn the_first_mark_parts_the_input(rt: HostRuntime) -> Result<(), Fail> {
    let alloc = rt.alloc();
    let trace = trace_of(&rt, alloc, SUM)?.text;
    for mark in &NO_TRACES {
        let input = format!(in alloc; "{SUM}{mark}")?;
        assert!(rt; has_bad_line(&rt, alloc, &input, 1)?, "{mark}");
    }
    let twice = format!(in alloc; "{SUM}--- trace\n--- trace\n{trace}")?;
    assert!(rt; has_bad_line(&rt, alloc, &twice, 1)?);
    let later = format!(in alloc; "{SUM}--- trace\n{trace}--- trace\n")?;
    assert!(rt; has_bad_line(&rt, alloc, &later, 23)?);
    for (input, mission) in &NO_MISSIONS {
        let refused = call_alone(&rt, alloc, &smooth("run", *mission))?;
        assert_eq!(rt; refused.status, 3, "{input}");
        assert!(rt; audit(&rt, alloc, *input)?.is_like(&refused), "{input}");
    }
    Ok(())
}

// Of a bad mission and a bad trace the mission is told.
#[test]
fn a_bad_mission_is_refused_first(rt: HostRuntime) -> Result<(), Fail> {
    let alloc = rt.alloc();
    let mission = changed(alloc, SUM, &[("channels = 4", "channels = 8")])?;
    let input = input_of(alloc, &mission, "no trace\n")?;
    let refused = audit(&rt, alloc, &input)?;
    assert!(rt; is_told(&refused, 3, "mission: out-of-range core.channels\n"));
    Ok(())
}

#[test]
fn sources_and_sinks_of_an_audit_may_fail(rt: HostRuntime) -> Result<(), Fail> {
    let alloc = rt.alloc();
    let good = input_of(alloc, SUM, &trace_of(&rt, alloc, SUM)?.text)?;
    let bytewise = Call {
        step: 1,
        ..smooth("audit", &good)
    };
    assert!(rt; is_told(&call_alone(&rt, alloc, &bytewise)?, 0, "audit yes\n"));
    let unread = Call {
        step: 64,
        failing_reads: &[2],
        ..smooth("audit", &good)
    };
    assert!(rt; is_told(&call_alone(&rt, alloc, &unread)?, 5, "read fault\n"));
    let unwritten = Call {
        failing_writes: &[0],
        ..smooth("audit", &good)
    };
    assert!(rt; is_told(&call_alone(&rt, alloc, &unwritten)?, 6, ""));
    let untold = Call {
        failing_writes: &[0],
        ..smooth("audit", SUM)
    };
    assert!(rt; is_told(&call_alone(&rt, alloc, &untold)?, 9, ""));
    Ok(())
}

// A mission of so many bytes, with its line end.
fn mission_of(alloc: Global, len: usize) -> Result<String, AllocError> {
    let mut mission = padded(alloc, SUM, len.saturating_sub(1))?;
    mission.push('\n')?;
    Ok(mission)
}

#[test]
fn a_mission_before_a_trace_has_its_limit(rt: HostRuntime) -> Result<(), Fail> {
    let alloc = rt.alloc();
    let trace = trace_of(&rt, alloc, SUM)?.text;
    let longest = input_of(alloc, &mission_of(alloc, MAX_MISSION_BYTES)?, &trace)?;
    assert!(rt; has_bad_line(&rt, alloc, &longest, 0)?);
    let longer = input_of(alloc, &mission_of(alloc, MAX_MISSION_BYTES + 1)?, &trace)?;
    assert!(rt; is_told(&audit(&rt, alloc, &longer)?, 4, "mission: too long\n"));
    Ok(())
}

#[test]
fn an_input_has_its_limit(rt: HostRuntime) -> Result<(), Fail> {
    let alloc = rt.alloc();
    let input = input_of(alloc, SUM, &trace_of(&rt, alloc, SUM)?.text)?;
    let mut longest = padded(alloc, &input, MAX_AUDIT_BYTES)?;
    assert!(rt; has_bad_line(&rt, alloc, &longest, 23)?);
    longest.push('x')?;
    assert!(rt; is_told(&audit(&rt, alloc, &longest)?, 4, "mission: too long\n"));
    Ok(())
}
