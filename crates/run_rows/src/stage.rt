//! Calls of the program over a source, a sink and a bus in memory.
use crate::answer::answer;
use guards_base::{Bytes, Numbers, Text, Words};
use guards_io::{MemSink, MemSource};
use icn_bus::ScriptBus;
use mission_run::check_mission;
use std::alloc::{AllocError, Global};
use std::str::from_utf8;
use std::sync::Wait;
use std::thread::Threads;

const ROOM: usize = 1_048_576;

/// What a call is handed.
#[derive(Clone, Copy)]
pub struct Call<'a> {
    /// The words after the program's name, with spaces between them.
    pub words: &'a str,
    /// What the source gives.
    pub mission: &'a str,
    /// How many bytes the source gives, and the sink takes, at once.
    pub step: usize,
    /// The calls of the source that fail, by their numbers from 0.
    pub failing_reads: &'a [u32],
    /// The calls of the sink that fail.
    pub failing_writes: &'a [u32],
}

/// What came of a call.
#[derive(Drop)]
pub struct Ended {
    pub status: u8,
    /// What the sink took.
    pub text: String,
    /// How many entries the log of the bus has.
    pub entries: usize,
}

impl Ended {
    /// Whether all of it is as in the other.
    pub fn is_like(&self, other: &Ended) -> bool {
        self.status == other.status && self.text == other.text && self.entries == other.entries
    }
}

/// A call over a source that gives all at once and a sink that takes all at once.
pub fn smooth<'a>(words: &'a str, mission: &'a str) -> Call<'a> {
    Call {
        words,
        mission,
        step: ROOM,
        failing_reads: &[],
        failing_writes: &[],
    }
}

fn words_of(alloc: Global, line: &str) -> Result<Words, AllocError> {
    let mut words = Words::new(alloc);
    for word in line.split_whitespace() {
        words.push(Text::from_str(alloc, word)?)?;
    }
    Ok(words)
}

fn source_of(alloc: Global, call: &Call) -> Result<MemSource, AllocError> {
    let bytes = Bytes::from_slice(alloc, call.mission.as_bytes())?;
    let failing = Numbers::from_slice(alloc, call.failing_reads)?;
    Ok(MemSource::new(bytes, call.step.max(1), failing))
}

fn sink_of(alloc: Global, call: &Call) -> Result<MemSink, AllocError> {
    let failing = Numbers::from_slice(alloc, call.failing_writes)?;
    MemSink::new(alloc, ROOM, call.step.max(1), failing)
}

fn told(alloc: Global, status: u8, out: &MemSink, entries: usize) -> Result<Ended, AllocError> {
    let text = from_utf8(out.bytes()).unwrap_or("bytes that are no text");
    Ok(Ended {
        status,
        text: String::from_str(alloc, text)?,
        entries,
    })
}

/// Makes a call of the program over a bus.
pub fn call_over<R: Threads + Wait + Sync>(
    rt: &R,
    alloc: Global,
    call: &Call,
    bus: &mut ScriptBus,
) -> Result<Ended, AllocError> {
    let words = words_of(alloc, call.words)?;
    let mut src = source_of(alloc, call)?;
    let mut out = sink_of(alloc, call)?;
    let status = answer(rt, alloc, &words, &mut src, &mut out, bus).code();
    told(alloc, status, &out, bus.log().len())
}

/// Makes a call of the program over a bus of its own.
pub fn call_alone<R: Threads + Wait + Sync>(
    rt: &R,
    alloc: Global,
    call: &Call,
) -> Result<Ended, AllocError> {
    let mut bus = ScriptBus::empty(alloc);
    call_over(rt, alloc, call, &mut bus)
}

/// Checks the mission of a call by the call that knows no bus.
pub fn check_alone(alloc: Global, call: &Call) -> Result<Ended, AllocError> {
    let mut src = source_of(alloc, call)?;
    let mut out = sink_of(alloc, call)?;
    let status = check_mission(alloc, &mut src, &mut out).code();
    told(alloc, status, &out, 0)
}
