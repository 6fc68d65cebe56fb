//! Fault injection: runs a mission with many drawn fault scripts, and writes a row for each run.
#![tactic(auto)]

ghost use Rattle.std.specs.Prelude.{◌≡◌};
ghost use Rattle.guards_model.specs.declared.Code.TheVariants as codes;
ghost use Rattle.guards_model.specs.Natives.{native};

mod watched;

use crate::watched::Watched;
use campaign_call::{CampaignStatus, Request, campaign, read_request};
use ctx_lock::OpenGate;
use guards_base::{Text, Words};
use guards_io::{Sink, Source, StdSink, StdSource};
use mission_check::Status;
use native_calls::{Code, Native, Natives, Operation, middle, ramp, saturated};
use std::alloc::{AllocError, Global};
use std::env;
use std::io::{ErrorKind, IsTerminal, Stderr};
use std::process::ExitCode;
use std::sync::Wait;
use std::thread::Threads;

/// The words after the program's name. Words that are no text are no campaign.
fn words(rt: &HostRuntime) -> Result<Words, AllocError> {
    let mut words = Words::new(rt.alloc());
    match env::args(rt) {
        Ok(args) => {
            for arg in args.skip(1) {
                words.push(Text::from_string(arg))?;
            }
        }
        Err(error) => {
            if error.kind() == ErrorKind::OutOfMemory {
                return Err(AllocError);
            }
        }
    }
    Ok(words)
}

/// Keeps the operations of the task language beside their facts, and does what the words say with the open gate.
fn answer<
    R: Threads + Wait + Sync,
    S: Source,
    K: Sink,
    X: Operation + Sync,
    Y: Operation + Sync,
    Z: Operation + Sync,
>(
    rt: &R,
    alloc: Global,
    words: &Words,
    src: &mut S,
    out: &mut K,
    sat: X,
    mid: Y,
    ramp: Z,
) -> CampaignStatus
    requires sat { X.computes codes.Sat sat }
    requires mid { Y.computes codes.Mid mid }
    requires ramp { Z.computes codes.Ramp ramp }
{
    let natives = Natives::new(
        Native::new(Code::Sat, sat),
        Native::new(Code::Mid, mid),
        Native::new(Code::Ramp, ramp),
    );
    campaign(rt, alloc, words, src, out, &OpenGate, &natives)
}

/// Standard error, where the words ask for rows and it is a terminal, and how many rows.
fn teller(words: &Words, err: Stderr) -> (Option<Stderr>, u32) {
    match read_request(words) {
        Some(Request::Campaign { runs, .. }) if err.is_terminal() => (Some(err), runs),
        _ => (None, 0),
    }
}

fn main(rt: HostRuntime) -> ExitCode {
    let mut src = StdSource::new(rt.stdin());
    let status = match words(&rt) {
        Ok(words) => {
            let (told, runs) = teller(&words, rt.stderr());
            let mut out = Watched::new(rt.alloc(), StdSink::new(rt.stdout()), told, runs);
            answer(
                &rt,
                rt.alloc(),
                &words,
                &mut src,
                &mut out,
                |a: i64, b: i64, c: i64| -> i64
                    ensures { result ≡ native Code.Sat a b c }
                { saturated(a, b, c) },
                |a: i64, b: i64, c: i64| -> i64
                    ensures { result ≡ native Code.Mid a b c }
                { middle(a, b, c) },
                |a: i64, b: i64, c: i64| -> i64
                    ensures { result ≡ native Code.Ramp a b c }
                { ramp(a, b, c) },
            )
        }
        Err(AllocError) => CampaignStatus::Ended(Status::NoMemory),
    };
    ExitCode::from(status.code())
}
