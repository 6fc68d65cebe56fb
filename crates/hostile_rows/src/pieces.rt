//! Pieces that stand in the place of a frame of a transfer. A carry is a line: its cycle, the number and the name of
//! its slot, its sender and its receiver.
use crate::stage::{returning, run, run_over, smooth};
use ctx_lock::OpenGate;
use guards_base::Bytes;
use icn_bus::{Entry, ScriptBus};
use std::alloc::{AllocError, Global};
use std::sync::Wait;
use std::thread::Threads;

// The changes of a frame: how many bytes are taken from its end, how many zeros are put there, and a byte's place and
// value. The last four are of its first byte, its sender, its cycle and its kind.
const CHANGES: &str = "9999 0 9999 0
9999 1 9999 0
1 0 9999 0
0 1 9999 0
0 0 0 70
0 0 3 2
0 0 7 9
0 0 2 7
";

// The changes of a frame of a transfer besides: its target and its start.
const TARGET_AND_START: &str = "0 0 8 3
0 0 12 2
";

// The number of a field of a line, from 0.
fn number(line: &str, field: usize) -> usize {
    let word = line.split_whitespace().nth(field).unwrap_or("");
    word.parse::<usize>().unwrap_or(0)
}

fn byte(line: &str, field: usize) -> u8 {
    let word = line.split_whitespace().nth(field).unwrap_or("");
    word.parse::<u8>().unwrap_or(0)
}

fn is_carried(entry: &Entry, carry: &str) -> bool {
    entry.cycle as usize == number(carry, 0)
        && entry.slot.index() as usize == number(carry, 1)
        && entry.from.index() as usize == number(carry, 3)
        && entry.to as usize == number(carry, 4)
}

// What was sent in a carry; nothing where there is none.
fn sent<'a>(log: &'a [Entry], carry: &str) -> &'a [u8] {
    let mut found: &[u8] = &[];
    for entry in log {
        if is_carried(entry, carry) {
            found = entry.sent.as_slice();
        }
    }
    found
}

fn changed(alloc: Global, frame: &[u8], change: &str) -> Result<Bytes, AllocError> {
    let kept = frame.len().saturating_sub(number(change, 0));
    let place = number(change, 2);
    let value = byte(change, 3);
    let mut piece = Bytes::new(alloc);
    for (at, byte) in frame.iter().enumerate() {
        if at < kept {
            piece.push(if at == place { value } else { *byte })?;
        }
    }
    if number(change, 1) == 1 {
        piece.push(0)?;
    }
    Ok(piece)
}

fn digits(alloc: Global, piece: &[u8]) -> Result<String, AllocError> {
    let mut text = String::new(alloc);
    for byte in piece {
        let byte = *byte;
        text.push_str(&format!(in alloc; "{byte:02x}")?)?;
    }
    Ok(text)
}

// The entry of a script by which a piece is delivered in a carry.
fn forged(alloc: Global, carry: &str, piece: &[u8]) -> Result<String, AllocError> {
    let cycle = number(carry, 0);
    let slot = carry.split_whitespace().nth(2).unwrap_or("");
    let from = number(carry, 3);
    let to = number(carry, 4);
    let digits = digits(alloc, piece)?;
    format!(in alloc;
        "{{ kind = 'forge', cycle = {cycle}, slot = '{slot}', from = {from}, to = {to}, bytes = '{digits}' }},\n"
    )
}

fn is_told<R: Threads + Wait + Sync>(
    rt: &R,
    alloc: Global,
    carry: &str,
    piece: &[u8],
    text: &str,
) -> Result<bool, AllocError> {
    let mission = returning(alloc, &forged(alloc, carry, piece)?)?;
    let ended = run(rt, alloc, &smooth(mission.as_bytes()))?;
    Ok(ended.is_done(text))
}

// Of how many of these changes of a carry's frame the run tells what it tells without them.
fn told_of<R: Threads + Wait + Sync>(
    rt: &R,
    alloc: Global,
    carry: &str,
    changes: &str,
    frame: &[u8],
    text: &str,
) -> Result<usize, AllocError> {
    let mut told: usize = 0;
    for change in changes.lines() {
        let piece = changed(alloc, frame, change)?;
        if is_told(rt, alloc, carry, piece.as_slice(), text)? {
            told = told.saturating_add(1);
        }
    }
    Ok(told)
}

fn told_over<R: Threads + Wait + Sync>(
    rt: &R,
    alloc: Global,
    carry: &str,
    log: &[Entry],
    text: &str,
) -> Result<usize, AllocError> {
    let frame = sent(log, carry);
    if frame.is_empty() {
        return Ok(0);
    }
    let told = told_of(rt, alloc, carry, CHANGES, frame, text)?;
    if number(carry, 4) != 4 {
        return Ok(told);
    }
    Ok(told.saturating_add(told_of(rt, alloc, carry, TARGET_AND_START, frame, text)?))
}

/// Of how many changed frames of a carry a run tells what it tells without them.
pub fn told<R: Threads + Wait + Sync>(
    rt: &R,
    alloc: Global,
    carry: &str,
) -> Result<usize, AllocError> {
    let mut bus = ScriptBus::empty(alloc);
    let mission = returning(alloc, "")?;
    let plain = run_over(rt, alloc, &smooth(mission.as_bytes()), &mut bus, &OpenGate)?;
    told_over(rt, alloc, carry, bus.log(), &plain.text)
}
