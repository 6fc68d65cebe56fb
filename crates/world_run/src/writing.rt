//! Writes the text of a run, part by part.
ghost use Rattle.std.specs.Prelude.{◌≡◌, ◌≤◌, ◌++◌, IfOk, OnOk, Some, length};
ghost use Rattle.output_gate.specs.Gates.{GateValue};
ghost use Rattle.guards_io.specs.Writes.{Puts};
ghost use Rattle.guards_runs.specs.IdealReport.{head, last};
ghost use Rattle.world_run.specs.Running.{TellsStop, bare_text, cycle_text, stop_text, stop_value, words_line};

use crate::stop::RunStop;
use guards_base::{ChanSet, CycleRecord, Text};
use guards_io::{Sink, WriteStop, put, put_line};
use guards_model::Slot;
use icn_world::Halt;
use mission_type::Mission;
use output_gate::OutputGate;
use std::alloc::{AllocError, Global};

#[tactic(auto, unfolding(guards_runs::specs::IdealReport::head))]
pub(crate) fn head_text(alloc: Global, mission: &Mission) -> Result<Text, AllocError>
    ensures { IfOk result (λ text. text ≡ head mission.now) }
{
    let mut text = Text::new(alloc);
    report_text::head(alloc, &mut text, mission.rules().channels, mission.cycles())?;
    Ok(text)
}

/// Writes the head line.
pub fn put_head<K: Sink>(alloc: Global, mission: &Mission, out: &mut K) -> Result<(), WriteStop>
    ensures { Puts (K.seen out.old) (K.seen out.new) (head mission.now) result }
{
    let Ok(text) = head_text(alloc, mission) else {
        return Err(WriteStop::Memory);
    };
    put(out, text.as_str())
}

/// The part of a cycle, with its trace lines where `trace` says so.
#[tactic(auto, unfolding(crate::specs::Running::bare_text))]
fn bare_text(
    alloc: Global,
    mission: &Mission,
    part: &CycleRecord,
    trace: bool,
) -> Result<Text, AllocError>
    ensures { IfOk result (λ text. text ≡ bare_text trace mission.now part.now) }
{
    mission.prove_sizes();
    let channels = mission.rules().channels;
    let width = mission.width();
    let outputs = mission.outputs().len() as u8;
    let mut text = Text::new(alloc);
    report_text::write_cycle(alloc, &mut text, part, channels, width, outputs, trace)?;
    Ok(text)
}

/// Appends the line of an actuator's words, if there is one.
fn push_words(
    alloc: Global,
    text: &mut Text,
    actuator: &Option<OutputGate>,
    outputs: u8,
) -> Result<(), AllocError>
    requires few { outputs ≤ 8 }
    requires fits { (g : GateValue) → actuator.now ≡ Some g → length g.words ≡ outputs }
    ensures { OnOk result (text.new ≡ text.old ++ words_line actuator.now) }
{
    match actuator {
        Some(gate) => report_text::write_out(alloc, text, &gate.words(), outputs),
        None => Ok(()),
    }
}

/// The part of a cycle with the line of an actuator's words, if there is one.
pub(crate) fn cycle_text(
    alloc: Global,
    mission: &Mission,
    part: &CycleRecord,
    actuator: &Option<OutputGate>,
    trace: bool,
) -> Result<Text, AllocError>
    requires { (g : GateValue) → actuator.now ≡ Some g → length g.words ≡ length mission.now.outputs }
    ensures { IfOk result (λ text. text ≡ cycle_text trace mission.now actuator.now part.now) }
{
    mission.prove_sizes();
    let outputs = mission.outputs().len() as u8;
    let mut text = bare_text(alloc, mission, part, trace)?;
    push_words(alloc, &mut text, actuator, outputs)?;
    Ok(text)
}

/// Writes the part of a cycle, with its trace lines where `trace` says so and with the line of an actuator's words.
pub fn put_cycle<K: Sink>(
    alloc: Global,
    mission: &Mission,
    part: &CycleRecord,
    actuator: &Option<OutputGate>,
    trace: bool,
    out: &mut K,
) -> Result<(), WriteStop>
    requires { (g : GateValue) → actuator.now ≡ Some g → length g.words ≡ length mission.now.outputs }
    ensures { Puts (K.seen out.old) (K.seen out.new) (cycle_text trace mission.now actuator.now part.now) result }
{
    let Ok(text) = cycle_text(alloc, mission, part, actuator, trace) else {
        return Err(WriteStop::Memory);
    };
    put(out, text.as_str())
}

#[tactic(auto, unfolding(guards_runs::specs::IdealReport::last))]
pub(crate) fn end_text(alloc: Global, mission: &Mission) -> Result<Text, AllocError>
    ensures { IfOk result (λ text. text ≡ last mission.now) }
{
    let mut text = Text::new(alloc);
    report_text::write_end(alloc, &mut text, mission.cycles())?;
    Ok(text)
}

/// Writes the last line of a run that did not stop.
pub fn put_end<K: Sink>(alloc: Global, mission: &Mission, out: &mut K) -> Result<(), WriteStop>
    ensures { Puts (K.seen out.old) (K.seen out.new) (last mission.now) result }
{
    let Ok(text) = end_text(alloc, mission) else {
        return Err(WriteStop::Memory);
    };
    put(out, text.as_str())
}

#[tactic(auto, unfolding(crate::specs::Running::stop_text))]
pub(crate) fn stop_text(
    alloc: Global,
    cycle: u32,
    slot: Slot,
    set: ChanSet,
    active: ChanSet,
) -> Result<Text, AllocError>
    ensures { IfOk result (λ text. text ≡ stop_text (stop_value cycle slot set active)) }
{
    let mut text = Text::new(alloc);
    report_text::write_stop(alloc, &mut text, cycle, slot, set, active)?;
    Ok(text)
}

/// Writes the line of a stop. A sink that fails changes nothing of the answer.
pub fn tell_stop<K: Sink>(
    alloc: Global,
    cycle: u32,
    slot: Slot,
    set: ChanSet,
    active: ChanSet,
    out: &mut K,
) -> RunStop
    ensures { TellsStop (stop_value cycle slot set active) (K.seen out.old) (K.seen out.new) result }
{
    let Ok(text) = stop_text(alloc, cycle, slot, set, active) else {
        return RunStop::Halted(Halt::NoMemory);
    };
    put_line(out, text.as_str());
    RunStop::Halted(Halt::Disturbed {
        cycle,
        slot,
        set,
        active,
    })
}
