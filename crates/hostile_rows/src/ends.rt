//! Texts that end too soon, and sources and sinks that fail.
use crate::stage::{Call, Ended, run, smooth};
use guards_base::Bytes;
use std::alloc::{AllocError, Global};
use std::sync::Wait;
use std::thread::Threads;
use worked_missions::SUM;

// The place of the last bracket that closes.
fn last_bracket() -> usize {
    let mut last: usize = 0;
    for (at, byte) in SUM.bytes().enumerate() {
        if byte == b']' {
            last = at;
        }
    }
    last
}

/// How many fronts of the mission that end before its last bracket are refused as a bad mission, and how many there
/// are.
pub fn fronts<R: Threads + Wait + Sync>(
    rt: &R,
    alloc: Global,
) -> Result<(usize, usize), AllocError> {
    let last = last_bracket();
    let mut refused: usize = 0;
    let mut front = Bytes::new(alloc);
    for byte in SUM.bytes() {
        if front.len() <= last && run(rt, alloc, &smooth(front.as_slice()))?.status == 3 {
            refused = refused.saturating_add(1);
        }
        front.push(byte)?;
    }
    Ok((refused, last.saturating_add(1)))
}

fn is_read_fault(ended: &Ended) -> bool {
    ended.status == 5 && ended.text.as_str() == "read fault\n"
}

/// How many calls of a source that gives one byte at a time end the run where they fail. The last one is at the end of
/// the input.
pub fn broken_reads<R: Threads + Wait + Sync>(rt: &R, alloc: Global) -> Result<usize, AllocError> {
    let mut broken: usize = 0;
    for number in 0..SUM.len().saturating_add(1) {
        let call = Call {
            step: 1,
            failing_reads: &[number as u32],
            ..smooth(SUM.as_bytes())
        };
        if is_read_fault(&run(rt, alloc, &call)?) {
            broken = broken.saturating_add(1);
        }
    }
    Ok(broken)
}

fn is_part(line: &str) -> bool {
    line.starts_with("cycle ") || line.starts_with("done ")
}

// The first parts of a text: the head line, each cycle, and the last line.
fn first_parts(alloc: Global, text: &str, count: u32) -> Result<String, AllocError> {
    let mut front = String::new(alloc);
    let mut parts: u32 = 1;
    for line in text.lines() {
        if is_part(line) {
            parts = parts.saturating_add(1);
        }
        if parts <= count {
            front.push_str(line)?;
            front.push('\n')?;
        }
    }
    Ok(front)
}

fn ends_with<R: Threads + Wait + Sync>(
    rt: &R,
    alloc: Global,
    number: u32,
    text: &str,
) -> Result<bool, AllocError> {
    let call = Call {
        failing_writes: &[number],
        ..smooth(SUM.as_bytes())
    };
    let ended = run(rt, alloc, &call)?;
    let due = first_parts(alloc, text, number)?;
    Ok(ended.status == 6 && ended.text == due)
}

/// How many of the four calls of the sink end the run where they fail, with the parts before them written.
pub fn broken_writes<R: Threads + Wait + Sync>(rt: &R, alloc: Global) -> Result<u32, AllocError> {
    let whole = run(rt, alloc, &smooth(SUM.as_bytes()))?;
    let mut broken: u32 = 0;
    for number in 0..4 {
        if ends_with(rt, alloc, number, &whole.text)? {
            broken = broken.saturating_add(1);
        }
    }
    Ok(broken)
}
