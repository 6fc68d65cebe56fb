use mission_text::read;
use native_calls::{Calls, Code, middle, ramp, saturated};
use run_audit::{Verdict, audit};
use std::alloc::{AllocError, Global};
use std::test::Fail;
use worked_missions::SUM;

// The operations as they are.
struct Plain;

impl Calls for Plain {
    fn call(&self, code: Code, a: i64, b: i64, c: i64) -> i64 {
        match code {
            Code::Sat => saturated(a, b, c),
            Code::Mid => middle(a, b, c),
            Code::Ramp => ramp(a, b, c),
        }
    }
}

// The trace of two cycles of a mission of four channels that sum their inputs.
const SUMS: &str = "guards channels 4 cycles 2
cycle 0 active 0,1,2,3 transfer -
ch 0 in 5 vote 5 judged - alpha 0,0,0,0
ch 1 in 5 vote 5 judged - alpha 0,0,0,0
ch 2 in 5 vote 5 judged - alpha 0,0,0,0
ch 3 in 5 vote 5 judged - alpha 0,0,0,0
trace 0 T
trace 1 T
trace 2 T
trace 3 T
end removed - joined - remaining -
cycle 1 active 0,1,2,3 transfer -
ch 0 in 5 vote 10 judged - alpha 0,0,0,0
ch 1 in 5 vote 10 judged - alpha 0,0,0,0
ch 2 in 5 vote 10 judged - alpha 0,0,0,0
ch 3 in 5 vote 10 judged - alpha 0,0,0,0
trace 0 T
trace 1 T
trace 2 T
trace 3 T
end removed - joined - remaining -
done 2
";

// The number of a line, the line that is not good when it is changed (0 where none is), and what stands in its place.
const CHANGED: &str = "1|0|guards channels 4 cycles 2
13|13|ch 0 in 5 vote 11 judged - alpha 0,0,0,0
7|7|trace 0 TT
1|1|guards channels 4 cycles 02
1|1|guards channels 5 cycles 2
2|2|cycle 1 active 0,1,2,3 transfer -
2|2|cycle 0 active 0,1,2 transfer -
2|2|cycle 0 active 0,1,2,3 transfer 4@0
3|3|ch 00 in 5 vote 5 judged - alpha 0,0,0,0
4|4|ch 0 in 5 vote 5 judged - alpha 0,0,0,0
4|4|ch 1 in 6 vote 5 judged - alpha 0,0,0,0
7|8|trace 1 T
8|8|trace 1 S
11|12|end removed 3 joined - remaining -
11|11|end removed 2,3 joined - remaining -
11|11|end removed - joined - remaining 0
11|11|end removed - joined - remaining - 
11|11|out 5
22|22|done 3
22|22|done 2.
";

// The text with a line in place of the one with this number.
fn with_line(alloc: Global, text: &str, number: usize, line: &str) -> Result<String, AllocError> {
    let mut changed = String::new(alloc);
    for (place, old) in text.lines().enumerate() {
        changed.push_str(if place + 1 == number { line } else { old })?;
        changed.push('\n')?;
    }
    Ok(changed)
}

// The line that is not good; 0 where the trace is consistent.
fn bad_line(alloc: Global, mission: &str, trace: &str) -> Result<u32, Fail> {
    let mission = read(alloc, mission.as_bytes()).ok().ok_or("a mission")?;
    match audit(alloc, &mission, trace.as_bytes(), &Plain)? {
        Verdict::Yes => Ok(0),
        Verdict::No { line } => Ok(line),
    }
}

fn number_of(text: &str) -> Result<u32, Fail> {
    Ok(text.parse::<u32>().ok().ok_or("a number")?)
}

// One line that does not fit is found at its number.
#[test]
fn changed_lines_are_found(rt: HostRuntime) -> Result<(), Fail> {
    let alloc = rt.alloc();
    for row in CHANGED.lines() {
        let (number, rest) = row.split_once('|').ok_or("a number")?;
        let (bad, line) = rest.split_once('|').ok_or("a line")?;
        let text = with_line(alloc, SUMS, number_of(number)? as usize, line)?;
        assert_eq!(rt; bad_line(alloc, SUM, &text)?, number_of(bad)?);
    }
    Ok(())
}

// A trace that ends too early, or goes on, is found at the line after.
#[test]
fn lines_are_missing_or_too_many(rt: HostRuntime) -> Result<(), Fail> {
    let alloc = rt.alloc();
    assert_eq!(rt; bad_line(alloc, SUM, "")?, 1);
    assert_eq!(rt; bad_line(alloc, SUM, "guards channels 4 cycles 2\n")?, 2);
    assert_eq!(rt; bad_line(alloc, SUM, "guards channels 4 cycles 2")?, 1);
    let mut twice = String::from_str(alloc, SUMS)?;
    twice.push_str("done 2\n")?;
    assert_eq!(rt; bad_line(alloc, SUM, &twice)?, 23);
    Ok(())
}
