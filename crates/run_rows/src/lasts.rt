//! Runs of which the last cycles alone are told.
use crate::stage::{Call, Ended, call_alone, smooth};
use std::alloc::{AllocError, Global};
use std::sync::Wait;
use std::test::Fail;
use std::thread::Threads;
use worked_missions::{SUM, changed, unfolded};

// The words; the cycle in whose votes two of four channels crash; the call of the sink that fails; the status, and how
// many entries are carried. Below stands what is written. A line of several channels stands for one of each.
const WORKED: &str = "run --last 1|-|-|0|80
guards channels 4 cycles 2
cycle 1 active 0,1,2,3 transfer -
ch 0,1,2,3 in 5 vote 10 judged - alpha 0,0,0,0
end removed - joined - remaining -
done 2

run --last 2000|-|-|0|80
guards channels 4 cycles 2
cycle 0 active 0,1,2,3 transfer -
ch 0,1,2,3 in 5 vote 5 judged - alpha 0,0,0,0
end removed - joined - remaining -
cycle 1 active 0,1,2,3 transfer -
ch 0,1,2,3 in 5 vote 10 judged - alpha 0,0,0,0
end removed - joined - remaining -
done 2

run --trace --last 1|-|-|0|80
guards channels 4 cycles 2
cycle 1 active 0,1,2,3 transfer -
ch 0,1,2,3 in 5 vote 10 judged - alpha 0,0,0,0
trace 0,1,2,3 T
end removed - joined - remaining -
done 2

run --last 0001 --trace|-|-|0|80
guards channels 4 cycles 2
cycle 1 active 0,1,2,3 transfer -
ch 0,1,2,3 in 5 vote 10 judged - alpha 0,0,0,0
trace 0,1,2,3 T
end removed - joined - remaining -
done 2

run --last 1|1|-|7|70
guards channels 4 cycles 2
cycle 0 active 0,1,2,3 transfer -
ch 0,1,2,3 in 5 vote 5 judged - alpha 0,0,0,0
end removed - joined - remaining -
stop cycle 1 slot vote disturbed 1,2 active 0,1,2,3

run --last 1|-|0|6|80

run --last 1|-|1|6|80
guards channels 4 cycles 2

run --last 1|-|2|6|80
guards channels 4 cycles 2
cycle 1 active 0,1,2,3 transfer -
ch 0,1,2,3 in 5 vote 10 judged - alpha 0,0,0,0
end removed - joined - remaining -

run --last 1|1|2|7|70
guards channels 4 cycles 2
cycle 0 active 0,1,2,3 transfer -
ch 0,1,2,3 in 5 vote 5 judged - alpha 0,0,0,0
end removed - joined - remaining -
";

// The words of a run of four cycles and of the same run with its last cycles alone, and how many these are; the cycle
// in whose votes two channels crash; the call of the sink that fails.
const SHORTENED: &str = "run|run --last 1|1|-|-
run|run --last 3|3|-|-
run|run --last 4|4|-|-
run|run --last 5|5|-|-
run|run --last 2000|2000|-|-
run|run --last 1|1|0|-
run|run --last 1|1|1|-
run|run --last 1|1|2|-
run|run --last 1|1|3|-
run|run --last 2|2|3|-
run|run --last 3|3|3|-
run|run --last 4|4|3|-
run|run --last 2000|2000|0|-
run|run --last 2000|2000|3|-
run|run --last 2|2|-|0
run|run --last 2|2|-|1
run|run --last 2|2|-|2
run|run --last 2|2|-|3
run|run --last 2|2|3|0
run|run --last 2|2|3|1
run|run --last 2|2|3|2
run|run --last 2|2|3|3
run|run --last 2000|2000|-|5
run --trace|run --trace --last 1|1|-|-
run --trace|run --last 1 --trace|1|-|-
run --trace|run --trace --last 2000|2000|2|-
run --trace|run --last 2000 --trace|2000|2|-
run --trace|run --last 3 --trace|3|-|2
";

// The cycles of the run, and what goes wrong in one of them.
fn mission_of(alloc: Global, cycles: &str, stop: &str) -> Result<String, AllocError> {
    let length = format!(in alloc; "cycles = {cycles}")?;
    let crash = format!(in alloc; "kind = 'crash', cycle = {stop}, slot = 'vote', channel")?;
    let fault = format!(in alloc; "fault = [{{ {crash} = 1 }}, {{ {crash} = 2 }}]\noutputs")?;
    let outputs = if stop == "-" {
        "outputs"
    } else {
        fault.as_str()
    };
    changed(
        alloc,
        SUM,
        &[("cycles = 2", length.as_str()), ("outputs", outputs)],
    )
}

// Makes a call, of whose calls of the sink one fails where this is a number.
fn called<R: Threads + Wait + Sync>(
    rt: &R,
    alloc: Global,
    words: &str,
    mission: &str,
    failing: Option<u32>,
) -> Result<Ended, AllocError> {
    match failing {
        None => call_alone(rt, alloc, &smooth(words, mission)),
        Some(number) => {
            let call = Call {
                failing_writes: &[number],
                ..smooth(words, mission)
            };
            call_alone(rt, alloc, &call)
        }
    }
}

fn number(field: &str) -> Option<u32> {
    field.parse::<u32>().ok()
}

// What comes of a worked call that is as its row says.
fn wanted(alloc: Global, row: &str) -> Result<Ended, AllocError> {
    let (head, text) = row.split_once('\n').unwrap_or((row, ""));
    let mut fields = head.rsplit('|');
    let entries = fields.next().and_then(number).unwrap_or(0);
    let status = fields.next().and_then(number).unwrap_or(0);
    Ok(Ended {
        status: status.min(255) as u8,
        text: unfolded(alloc, text)?,
        entries: entries as usize,
    })
}

fn is_as_worked<R: Threads + Wait + Sync>(
    rt: &R,
    alloc: Global,
    row: &str,
) -> Result<bool, AllocError> {
    let mut fields = row.split('|');
    let words = fields.next().unwrap_or("");
    let stop = fields.next().unwrap_or("");
    let failing = fields.next().and_then(number);
    let mission = mission_of(alloc, "2", stop)?;
    let ended = called(rt, alloc, words, &mission, failing)?;
    Ok(ended.is_like(&wanted(alloc, row)?))
}

#[test]
fn the_last_cycles_are_told_alone(rt: HostRuntime) -> Result<(), Fail> {
    for row in WORKED.split("\n\n") {
        assert!(rt; is_as_worked(&rt, rt.alloc(), row)?, "{row}");
    }
    Ok(())
}

// Whether a line is the first of a piece that is written at once, but for the head line.
fn begins_piece(line: &str) -> bool {
    line.starts_with("cycle ") || line.starts_with("done ") || line.starts_with("stop ")
}

fn cycles_of(text: &str) -> u32 {
    let mut cycles: u32 = 0;
    for line in text.lines() {
        if line.starts_with("cycle ") {
            cycles = cycles.saturating_add(1);
        }
    }
    cycles
}

// The text without the parts of all but the last cycles, as far as the piece that is not written.
fn shortened(alloc: Global, text: &str, last: u32, unwritten: u32) -> Result<String, AllocError> {
    let skipped = cycles_of(text).saturating_sub(last);
    let mut short = String::new(alloc);
    let mut piece: u32 = 0;
    for line in text.lines() {
        if begins_piece(line) {
            piece = piece.saturating_add(1);
        }
        let is_told = piece == 0 || piece > skipped;
        if is_told && piece.saturating_sub(skipped) < unwritten {
            short.push_str(line)?;
            short.push_str("\n")?;
        }
    }
    Ok(short)
}

// A sink that fails is told where nothing else is.
fn status_with(status: u8, failing: Option<u32>) -> u8 {
    if status == 0 && failing.is_some() {
        6
    } else {
        status
    }
}

fn is_as_shortened<R: Threads + Wait + Sync>(
    rt: &R,
    alloc: Global,
    row: &str,
) -> Result<bool, AllocError> {
    let mut fields = row.split('|');
    let whole = fields.next().unwrap_or("");
    let words = fields.next().unwrap_or("");
    let last = fields.next().and_then(number).unwrap_or(0);
    let stop = fields.next().unwrap_or("");
    let failing = fields.next().and_then(number);
    let mission = mission_of(alloc, "4", stop)?;
    let all = called(rt, alloc, whole, &mission, None)?;
    let ended = called(rt, alloc, words, &mission, failing)?;
    let text = shortened(alloc, &all.text, last, failing.unwrap_or(u32::MAX))?;
    let status = status_with(all.status, failing);
    Ok(ended.status == status && ended.text == text && ended.entries == all.entries)
}

#[test]
fn a_short_text_is_the_long_one_shortened(rt: HostRuntime) -> Result<(), Fail> {
    for row in SHORTENED.lines() {
        assert!(rt; is_as_shortened(&rt, rt.alloc(), row)?, "{row}");
    }
    Ok(())
}
