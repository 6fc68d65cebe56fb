use crate::cases::{Case, checks, faults, refusals, traced, unknown};
use crate::reports::mistake;
use crate::sizes::{greatest, padded};
use crate::stage::{Call, Ended, call_alone, call_over, check_alone, smooth};
use icn_bus::ScriptBus;
use mission_run::MAX_MISSION_BYTES;
use std::alloc::{AllocError, Global};
use std::sync::Wait;
use std::test::Fail;
use std::thread::Threads;
use worked_missions::restoring_rows::{self, ROUNDS, crash_and_return};
use worked_missions::{Row, SUM, computing_rows, parted, unfolded, voting_rows};

// What is not as a row says, over a bus that has carried nothing.
fn wrong_over<R: Threads + Wait + Sync>(
    rt: &R,
    alloc: Global,
    row: &Row,
    words: &str,
    bus: &mut ScriptBus,
) -> Result<Option<&'static str>, AllocError> {
    let mission = row.mission(alloc)?;
    let ended = call_over(rt, alloc, &smooth(words, &mission), bus)?;
    mistake(alloc, row, &mission, &ended, bus.log())
}

// What is not as a row says, where the call has these words.
fn wrong<R: Threads + Wait + Sync>(
    rt: &R,
    alloc: Global,
    row: &Row,
    words: &str,
) -> Result<Option<&'static str>, AllocError> {
    let mut bus = ScriptBus::empty(alloc);
    wrong_over(rt, alloc, row, words, &mut bus)
}

// Appends what is not as a row says, behind its name.
fn push_wrong(
    alloc: Global,
    others: &mut String,
    name: &str,
    what: Option<&'static str>,
) -> Result<(), AllocError> {
    match what {
        None => Ok(()),
        Some(what) => others.push_str(&format!(in alloc; "; {name}: {what}")?),
    }
}

// How many rows a table has, and each of at most so many cycles that does not come out as it says.
fn ran<R: Threads + Wait + Sync>(
    rt: &R,
    alloc: Global,
    rows: &str,
    words: &str,
    most: u32,
) -> Result<String, AllocError> {
    let mut others = String::new(alloc);
    for text in rows.split('§') {
        let row = Row::of(text);
        if row.done <= most {
            let what = wrong(rt, alloc, &row, words)?;
            push_wrong(alloc, &mut others, row.name, what)?;
        }
    }
    format!(in alloc; "{} rows{others}", rows.split('§').count())
}

#[test]
fn the_program_runs_the_worked_missions(rt: HostRuntime) -> Result<(), Fail> {
    let alloc = rt.alloc();
    let told = ran(&rt, alloc, voting_rows::ROWS, "run", 100)?;
    assert_eq!(rt; told.as_str(), "14 rows");
    let told = ran(&rt, alloc, restoring_rows::ROWS, "run", 100)?;
    assert_eq!(rt; told.as_str(), "11 rows");
    let told = ran(&rt, alloc, computing_rows::ROWS, "run", 100)?;
    assert_eq!(rt; told.as_str(), "3 rows");
    Ok(())
}

// What is not as a case says, where its call has these words.
fn wrong_case<R: Threads + Wait + Sync>(
    rt: &R,
    alloc: Global,
    words: &str,
    case: &Case,
) -> Result<Option<&'static str>, AllocError> {
    let mission = case.mission(alloc)?;
    let call = Call {
        words,
        mission: &mission,
        ..case.call
    };
    case.mistake(alloc, &call_alone(rt, alloc, &call)?)
}

// What is not as a case says, where its mission is checked without a bus.
fn wrong_check(alloc: Global, case: &Case) -> Result<Option<&'static str>, AllocError> {
    let mission = case.mission(alloc)?;
    let call = Call {
        mission: &mission,
        ..case.call
    };
    case.mistake(alloc, &check_alone(alloc, &call)?)
}

#[test]
fn a_check_tells_what_a_mission_is(rt: HostRuntime) -> Result<(), Fail> {
    let alloc = rt.alloc();
    for case in checks() {
        assert_eq!(rt;
            wrong_case(&rt, alloc, "check", case)?,
            None,
            "{}",
            case.text
        );
        assert_eq!(rt; wrong_check(alloc, case)?, None, "{}", case.text);
    }
    Ok(())
}

#[test]
fn what_is_no_mission_is_refused(rt: HostRuntime) -> Result<(), Fail> {
    let alloc = rt.alloc();
    for case in refusals() {
        assert_eq!(rt; wrong_case(&rt, alloc, "run", case)?, None, "{}", case.text);
        assert_eq!(rt;
            wrong_case(&rt, alloc, "check", case)?,
            None,
            "{}",
            case.text
        );
        assert_eq!(rt; wrong_check(alloc, case)?, None, "{}", case.text);
    }
    Ok(())
}

// The first line has no word.
const NO_COMMANDS: &str = "
fly
help
--help
-h
--version
demo
demo -1
demo 18446744073709551616
demo 100000000000000000000
demo -- 1
demo 1 1
audit 1
audit audit
audit --trace
audit --last 1
audit --
check --trace
check --last 1
run --
run run
run --trace=true
run --trace --trace
run --Trace
run --last
run --last 0
run --last 0000
run --last 2001
run --last 9999
run --last 00001
run --last 02000
run --last -1
run --last +1
run --last 1.
run --last 0x1
run --last one
run --last=1
run --last --trace
run --last 1 1
run --last 1 --last 1
run --last 1 --trace --trace
run --last 1 -- --trace
run --trace --last
run --trace --last 0
run --trace --last 2001
run --trace 1 --last
run --last 0 --trace
run --last 2001 --trace
run --last --trace 1
run -- --last 1
run 1 --last
--last 1 run
--trace run
--trace audit
demo --last 1
";

#[test]
fn other_words_are_no_command(rt: HostRuntime) -> Result<(), Fail> {
    for words in NO_COMMANDS.lines() {
        assert_eq!(rt;
            wrong_case(&rt, rt.alloc(), words, unknown())?,
            None,
            "{words}"
        );
    }
    Ok(())
}

#[test]
fn sources_and_sinks_may_fail(rt: HostRuntime) -> Result<(), Fail> {
    for case in faults() {
        assert_eq!(rt;
            wrong_case(&rt, rt.alloc(), "run", case)?,
            None,
            "{}",
            case.text
        );
    }
    Ok(())
}

// Also those that stop.
#[test]
fn few_cycles_are_all_told_as_the_last(rt: HostRuntime) -> Result<(), Fail> {
    let told = ran(&rt, rt.alloc(), voting_rows::ROWS, "run --last 5", 5)?;
    assert_eq!(rt; told.as_str(), "14 rows");
    Ok(())
}

#[test]
fn pieces_may_be_short_and_missions_long(rt: HostRuntime) -> Result<(), Fail> {
    let alloc = rt.alloc();
    let usual = call_alone(&rt, alloc, &smooth("run", SUM))?;
    let short = Call {
        step: 1,
        ..smooth("run", SUM)
    };
    assert!(rt; call_alone(&rt, alloc, &short)?.is_like(&usual));
    let longest = padded(alloc, SUM, MAX_MISSION_BYTES)?;
    assert!(rt; call_alone(&rt, alloc, &smooth("run", &longest))?.is_like(&usual));
    let longer = padded(alloc, SUM, MAX_MISSION_BYTES + 1)?;
    let refused = call_alone(&rt, alloc, &smooth("run", &longer))?;
    assert_eq!(rt; (refused.status, refused.entries), (4, 0));
    assert_eq!(rt; refused.text.as_str(), "mission: too long\n");
    Ok(())
}

#[test]
fn a_trace_adds_the_rounds_alone(rt: HostRuntime) -> Result<(), Fail> {
    let alloc = rt.alloc();
    let case = traced();
    assert_eq!(rt; wrong_case(&rt, alloc, case.call.words, case)?, None);
    let mission = crash_and_return().mission(alloc)?;
    let plain = call_alone(&rt, alloc, &smooth("run", &mission))?;
    let told = call_alone(&rt, alloc, &smooth("run --trace", &mission))?;
    let (text, rounds) = parted(alloc, &told.text)?;
    assert_eq!(rt; (told.status, told.entries), (plain.status, plain.entries));
    assert_eq!(rt; text, plain.text);
    assert_eq!(rt; rounds, unfolded(alloc, ROUNDS)?);
    Ok(())
}

// Simulated apart from the program, from the draws of the mission on.
const DEMO: &str = "demo 1
channels 7 blocks 128 cycles 400
joins 10 removals 10
frames 61696
last 46381,1000
";

// What came of a demo over a source that fails if it is read.
fn demo<R: Threads + Wait + Sync>(rt: &R, alloc: Global) -> Result<Ended, AllocError> {
    let call = Call {
        failing_reads: &[0],
        ..smooth("demo 1", "")
    };
    call_alone(rt, alloc, &call)
}

#[test]
fn a_demo_reads_no_source(rt: HostRuntime) -> Result<(), Fail> {
    let ended = demo(&rt, rt.alloc())?;
    assert_eq!(rt; ended.status, 0);
    assert_eq!(rt; ended.text.as_str(), DEMO);
    Ok(())
}

// A test of its own, since a demo takes some seconds.
#[test]
fn a_demo_repeats(rt: HostRuntime) -> Result<(), Fail> {
    let again = demo(&rt, rt.alloc())?;
    assert_eq!(rt; again.text.as_str(), DEMO);
    Ok(())
}

#[test]
fn the_greatest_sizes_run(rt: HostRuntime) -> Result<(), Fail> {
    let alloc = rt.alloc();
    let mission = greatest(alloc)?;
    let ran = call_alone(&rt, alloc, &smooth("run", &mission))?;
    assert_eq!(rt; (ran.status, ran.entries), (0, 495));
    // The first row of tasks runs in cycles 0, 16 and 32, the last one in cycles 15 and 31.
    let last =
        "ch 2 in 32 vote 48,46 judged - alpha 0,0,0\nend removed - joined - remaining -\ndone 33\n";
    assert!(rt; ran.text.ends_with(last));
    Ok(())
}
