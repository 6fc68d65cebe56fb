//! The top call: all that the program does.
ghost use Rattle.std.specs.Prelude.{◌≡◌, ◌&&◌, ◌==◌, length, Ok};
ghost use Rattle.mission_text.specs.Mission.{mission_of};
ghost use Rattle.campaign_call.specs.Outcomes.{AnswersBytes, AnswersMission, CampaignCompletes, CampaignOutcome, Does, status_of};
ghost use Rattle.campaign_call.specs.Requests.{IsWithin, request_of};

use crate::document::put_document;
use crate::lines::{faults_line, usage_line};
use crate::request::{Request, read_request};
use crate::status::CampaignStatus;
use campaign_run::run_campaign;
use ctx_lock::Gate;
use fault_script::Script;
use guards_base::Words;
use guards_io::{Sink, Source, WriteStop, put_line};
use mission_check::{Status, read_bytes, status_of_write, take_bytes};
use mission_type::Mission;
use native_calls::Calls;
use std::alloc::Global;
use std::sync::Wait;
use std::thread::Threads;

fn both(first: bool, second: bool) -> bool
    ensures { result ≡ (first && second) }
{
    first && second
}

/// Whether a script has no entry.
fn is_empty(script: &Script) -> bool
    ensures { result ≡ (length script.now == 0) }
{
    let no_rules = script.rules().is_empty();
    let no_others = script.others().is_empty();
    both(no_rules, no_others)
}

/// The status of a campaign that was run.
fn ended(ran: Result<(), WriteStop>) -> Status
    ensures { result ≡ status_of ran }
{
    match ran {
        Ok(()) => Status::Done,
        Err(WriteStop::Failed) => Status::WriteFault,
        Err(WriteStop::Memory) => Status::NoMemory,
    }
}

/// Does what is asked for with a mission without faults.
fn answer_faultless<K: Sink, G: Gate, C: Calls + Sync, R: Threads + Wait + Sync>(
    rt: &R,
    alloc: Global,
    request: &Request,
    bytes: &[u8],
    mission: &Mission,
    out: &mut K,
    gate: &G,
    natives: &C,
) -> Status
    requires read { mission_of bytes.now ≡ Ok mission.now }
    requires few { IsWithin request.now }
    ensures { Does request.now bytes.now mission.now (K.seen out.old) (K.seen out.new) result }
{
    match *request {
        Request::Campaign { state, runs, rates } => ended(run_campaign(
            rt, alloc, bytes, mission, rates, state, runs, out, gate, natives,
        )),
        Request::Mission { state, rates } => {
            status_of_write(put_document(alloc, bytes, mission, rates, state, out))
        }
    }
}

/// Does what is asked for with a mission, or tells that it has faults of its own.
fn answer_mission<K: Sink, G: Gate, C: Calls + Sync, R: Threads + Wait + Sync>(
    rt: &R,
    alloc: Global,
    request: &Request,
    bytes: &[u8],
    mission: &Mission,
    out: &mut K,
    gate: &G,
    natives: &C,
) -> CampaignStatus
    requires read { mission_of bytes.now ≡ Ok mission.now }
    requires few { IsWithin request.now }
    ensures { AnswersMission request.now bytes.now mission.now (K.seen out.old) (K.seen out.new) result }
{
    if !is_empty(mission.script()) {
        put_line(out, faults_line());
        return CampaignStatus::HasFaults;
    }
    let status = answer_faultless(rt, alloc, request, bytes, mission, out, gate, natives);
    CampaignStatus::Ended(status)
}

/// Reads the source to its end, and answers its bytes.
fn answer<S: Source, K: Sink, G: Gate, C: Calls + Sync, R: Threads + Wait + Sync>(
    rt: &R,
    alloc: Global,
    request: &Request,
    src: &mut S,
    out: &mut K,
    gate: &G,
    natives: &C,
) -> CampaignStatus
    requires few { IsWithin request.now }
    ensures { AnswersBytes request.now (S.seen src.old) (S.seen src.new) (K.seen out.old) (K.seen out.new) result }
{
    let bytes = match take_bytes(alloc, src, out) {
        Ok(bytes) => bytes,
        Err(status) => return CampaignStatus::Ended(status),
    };
    let given = bytes.as_slice();
    match read_bytes(alloc, given, out) {
        Ok(mission) => answer_mission(rt, alloc, request, given, &mission, out, gate, natives),
        Err(status) => CampaignStatus::Ended(status),
    }
}

fn carry_out<S: Source, K: Sink, G: Gate, C: Calls + Sync, R: Threads + Wait + Sync>(
    rt: &R,
    alloc: Global,
    words: &Words,
    src: &mut S,
    out: &mut K,
    gate: &G,
    natives: &C,
) -> CampaignStatus
    ensures { CampaignOutcome (request_of words.now.items) (S.seen src.old) (S.seen src.new) (K.seen out.old)
        (K.seen out.new) result }
{
    match read_request(words) {
        Some(request) => answer(rt, alloc, &request, src, out, gate, natives),
        None => {
            put_line(out, usage_line());
            CampaignStatus::Ended(Status::Usage)
        }
    }
}

/// Does all that the program does with a mission without faults that it reads: it draws a script of faults for each
/// run, runs the mission with it, and writes a row for each, and then the lines of their summary; or it writes the
/// mission of one such run. It may wait, so that it returns is not promised.
pub fn campaign<S: Source, K: Sink, G: Gate, C: Calls + Sync, R: Threads + Wait + Sync>(
    rt: &R,
    alloc: Global,
    words: &Words,
    src: &mut S,
    out: &mut K,
    gate: &G,
    natives: &C,
) -> CampaignStatus
    ensures outcome { CampaignOutcome (request_of words.now.items) (S.seen src.old) (S.seen src.new) (K.seen out.old)
        (K.seen out.new) result }
    ensures completes { CampaignCompletes (request_of words.now.items) (S.seen src.old) (S.seen src.new)
        (K.seen out.old) (K.seen out.new) result }
{
    carry_out(rt, alloc, words, src, out, gate, natives)
}
