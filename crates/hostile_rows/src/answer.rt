//! The call `guards` over a scripted bus and a gate.

ghost use Rattle.std.specs.Prelude.{◌≡◌, ◌≤ℤ◌, pos};
ghost use Rattle.guards_model.specs.Actuators.{limited};
ghost use Rattle.guards_model.specs.declared.Code.TheVariants as codes;
ghost use Rattle.guards_model.specs.Natives.{native};

use ctx_lock::Gate;
use guards_base::Words;
use guards_io::{MemSink, MemSource};
use icn_bus::ScriptBus;
use mission_run::{Status, guards};
use native_calls::{Code, Native, Natives, Operation, middle, ramp, saturated};
use output_gate::{Limiter, Moves};
use std::alloc::Global;
use std::sync::Wait;
use std::thread::Threads;

/// Does what the words say over a scripted bus and a gate, with the operations of the task language.
pub fn answer<G: Gate, R: Threads + Wait + Sync>(
    rt: &R,
    alloc: Global,
    words: &Words,
    src: &mut MemSource,
    out: &mut MemSink,
    bus: &mut ScriptBus,
    gate: &G,
) -> Status {
    answer_by(
        rt,
        alloc,
        words,
        src,
        out,
        bus,
        gate,
        |a: i64, b: i64, c: i64| -> i64
            ensures { result ≡ native Code.Sat a b c }
        { saturated(a, b, c) },
        |a: i64, b: i64, c: i64| -> i64
            ensures { result ≡ native Code.Mid a b c }
        { middle(a, b, c) },
        |a: i64, b: i64, c: i64| -> i64
            ensures { result ≡ native Code.Ramp a b c }
        { ramp(a, b, c) },
        |last: i64, wanted: i64, step: i64| -> i64
            requires { pos 0 ≤ℤ step }
            ensures { result ≡ limited last wanted step }
        { ramp(last, wanted, step) },
    )
}

/// Keeps the closures beside their facts.
fn answer_by<
    G: Gate,
    R: Threads + Wait + Sync,
    X: Operation + Sync,
    Y: Operation + Sync,
    Z: Operation + Sync,
    F: Moves + Sync,
>(
    rt: &R,
    alloc: Global,
    words: &Words,
    src: &mut MemSource,
    out: &mut MemSink,
    bus: &mut ScriptBus,
    gate: &G,
    sat: X,
    mid: Y,
    ramp: Z,
    limit: F,
) -> Status
    requires sat { X.computes codes.Sat sat }
    requires mid { Y.computes codes.Mid mid }
    requires ramp { Z.computes codes.Ramp ramp }
    requires limit { F.limits limit }
{
    let sat = Native::new(Code::Sat, sat);
    let mid = Native::new(Code::Mid, mid);
    let ramp = Native::new(Code::Ramp, ramp);
    let natives = Natives::new(sat, mid, ramp);
    let limiter = Limiter::new(limit);
    guards(rt, alloc, words, src, out, bus, gate, &natives, &limiter)
}
