//! Calls of the program over a source, a sink and a bus in memory.
use crate::answer::answer;
use ctx_lock::{Gate, OpenGate};
use guards_base::{Bytes, Numbers, Text, Words};
use guards_io::{MemSink, MemSource};
use icn_bus::ScriptBus;
use std::alloc::{AllocError, Global};
use std::str::from_utf8;
use std::sync::Wait;
use std::thread::Threads;
use worked_missions::restoring_rows::crash_and_return;

const ROOM: usize = 1_048_576;

/// What a run is handed.
#[derive(Clone, Copy)]
pub struct Call<'a> {
    pub mission: &'a [u8],
    /// How many bytes the source gives at once.
    pub step: usize,
    /// The calls of the source that fail, by their numbers from 0.
    pub failing_reads: &'a [u32],
    /// The calls of the sink that fail.
    pub failing_writes: &'a [u32],
}

/// A run of which nothing fails.
pub fn smooth(mission: &[u8]) -> Call {
    Call {
        mission,
        step: ROOM,
        failing_reads: &[],
        failing_writes: &[],
    }
}

/// What came of a run.
#[derive(Drop)]
pub struct Ended {
    pub status: u8,
    /// What the sink took.
    pub text: String,
}

impl Ended {
    /// Whether the run came to its end and told this.
    pub fn is_done(&self, text: &str) -> bool {
        self.status == 0 && self.text.as_str() == text
    }
}

fn words(alloc: Global) -> Result<Words, AllocError> {
    let mut words = Words::new(alloc);
    words.push(Text::from_str(alloc, "run")?)?;
    Ok(words)
}

fn source_of(alloc: Global, call: &Call) -> Result<MemSource, AllocError> {
    let bytes = Bytes::from_slice(alloc, call.mission)?;
    let failing = Numbers::from_slice(alloc, call.failing_reads)?;
    Ok(MemSource::new(bytes, call.step.max(1), failing))
}

fn sink_of(alloc: Global, call: &Call) -> Result<MemSink, AllocError> {
    let failing = Numbers::from_slice(alloc, call.failing_writes)?;
    MemSink::new(alloc, ROOM, ROOM, failing)
}

fn told(alloc: Global, status: u8, out: &MemSink) -> Result<Ended, AllocError> {
    let text = from_utf8(out.bytes()).unwrap_or("bytes that are no text");
    Ok(Ended {
        status,
        text: String::from_str(alloc, text)?,
    })
}

/// Runs a mission over a bus and a gate.
pub fn run_over<G: Gate, R: Threads + Wait + Sync>(
    rt: &R,
    alloc: Global,
    call: &Call,
    bus: &mut ScriptBus,
    gate: &G,
) -> Result<Ended, AllocError> {
    let words = words(alloc)?;
    let mut src = source_of(alloc, call)?;
    let mut out = sink_of(alloc, call)?;
    let status = answer(rt, alloc, &words, &mut src, &mut out, bus, gate).code();
    told(alloc, status, &out)
}

/// Runs a mission over a bus of its own.
pub fn run<R: Threads + Wait + Sync>(
    rt: &R,
    alloc: Global,
    call: &Call,
) -> Result<Ended, AllocError> {
    let mut bus = ScriptBus::empty(alloc);
    run_over(rt, alloc, call, &mut bus, &OpenGate)
}

/// The mission whose channel 4 crashes and returns, with further entries of its script.
pub fn returning(alloc: Global, entries: &str) -> Result<String, AllocError> {
    let mission = crash_and_return().mission(alloc)?;
    let more = format!(in alloc; "fault = [{entries}")?;
    mission.replace(alloc, "fault = [", &more)
}
