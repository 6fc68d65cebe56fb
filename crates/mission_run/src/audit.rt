//! Judges the trace of a run by its mission.
ghost use Rattle.guards_model.specs.Missions.{MissionValue};
ghost use Rattle.mission_run.specs.Auditing.{AuditsBytes, CompletesAudit, Judges, JudgesInput};
ghost use Rattle.run_audit.specs.Answers.{IsVerdict};
ghost use Rattle.std.specs.Prelude.{List, ℕ};

use crate::limit::MAX_AUDIT_BYTES;
use crate::lines::{no_line, yes_line};
use guards_io::{ReadStop, Sink, Source, put, put_line, read_all};
use mission_check::{
    MAX_MISSION_BYTES, Status, long_line, read_line, refuse_mission, status_of_write,
};
use mission_text::read;
use mission_type::Mission;
use native_calls::Calls;
use run_audit::{Verdict, audit, split_run};
use std::alloc::Global;

/// Writes the line of a trace that is not consistent.
fn say_no<K: Sink>(alloc: Global, line: u32, out: &mut K) -> Status
    ensures { (M : MissionValue) (trace : List ℕ) → IsVerdict M trace (Verdict.No line) →
        Judges M trace (K.seen out.old) (K.seen out.new) result }
{
    match no_line(alloc, line) {
        Ok(text) => {
            put_line(out, &text);
            Status::NotARun(line)
        }
        Err(_) => Status::NoMemory,
    }
}

/// Writes the line of a verdict.
fn say<K: Sink>(alloc: Global, verdict: Verdict, out: &mut K) -> Status
    ensures { (M : MissionValue) (trace : List ℕ) → IsVerdict M trace verdict →
        Judges M trace (K.seen out.old) (K.seen out.new) result }
{
    match verdict {
        Verdict::Yes => status_of_write(put(out, yes_line())),
        Verdict::No { line } => say_no(alloc, line, out),
    }
}

/// Judges a trace by a mission.
fn judge<K: Sink, C: Calls>(
    alloc: Global,
    mission: Mission,
    trace: &[u8],
    out: &mut K,
    natives: &C,
) -> Status
    ensures { Judges mission trace.now (K.seen out.old) (K.seen out.new) result }
{
    match audit(alloc, &mission, trace, natives) {
        Ok(verdict) => say(alloc, verdict, out),
        Err(_) => Status::NoMemory,
    }
}

/// Judges the trace of an input by the mission before it.
fn judge_input<K: Sink, C: Calls>(alloc: Global, input: &[u8], out: &mut K, natives: &C) -> Status
    ensures { JudgesInput input.now (K.seen out.old) (K.seen out.new) result }
{
    let (mission, trace) = split_run(input);
    if mission.len() > MAX_MISSION_BYTES {
        put_line(out, long_line());
        return Status::TooLong;
    }
    match read(alloc, mission) {
        Ok(mission) => judge(alloc, mission, trace, out, natives),
        Err(fault) => refuse_mission(alloc, out, fault),
    }
}

fn audit_read<S: Source, K: Sink, C: Calls>(
    alloc: Global,
    src: &mut S,
    out: &mut K,
    natives: &C,
) -> Status
    ensures { AuditsBytes
        (S.seen src.old) (S.seen src.new) (K.seen out.old) (K.seen out.new) result }
{
    match read_all(alloc, src, MAX_AUDIT_BYTES) {
        Ok(bytes) => judge_input(alloc, bytes.as_slice(), out, natives),
        Err(ReadStop::Failed) => {
            put_line(out, read_line());
            Status::ReadFault
        }
        Err(ReadStop::TooLong) => {
            put_line(out, long_line());
            Status::TooLong
        }
        Err(ReadStop::Memory) => Status::NoMemory,
    }
}

/// Reads a mission and the trace of its run, and writes whether the trace is consistent with the mission.
pub fn audit_run<S: Source, K: Sink, C: Calls>(
    alloc: Global,
    src: &mut S,
    out: &mut K,
    natives: &C,
) -> Status
    ensures outcome { AuditsBytes
        (S.seen src.old) (S.seen src.new) (K.seen out.old) (K.seen out.new) result }
    ensures completes { CompletesAudit
        (S.seen src.old) (S.seen src.new) (K.seen out.old) (K.seen out.new) result }
{
    audit_read(alloc, src, out, natives)
}
