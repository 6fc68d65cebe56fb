//! The report of a run.
ghost use Rattle.std.specs.Prelude.{◌≡◌, ◌≤◌, ◌++◌, [], flat_map, take, if◌then◌else◌, IfOk, OnOk, OnErr, string_bytes};
ghost use Rattle.guards_model.specs.Slots.{slot_text};
ghost use Rattle.guards_model.specs.Texts.{head_line, trace_line, cycle_part, out_line, done_line, stop_line, part_text};
ghost use Rattle.guards_model.specs.Records.{shown};

use crate::lines::{channel_lines, cycle_line, end_line, trace_lines};
use crate::pieces::{joined, set_text};
use guards_base::{ChanSet, CycleRecord, Slot, Text, TraceLine};
use std::alloc::{AllocError, Global};

fn head_line(alloc: Global, channels: u8, cycles: u32) -> Result<String, AllocError>
    ensures { IfOk result (λ text. string_bytes text ≡ head_line channels cycles) }
{
    format!(in alloc; "guards channels {channels} cycles {cycles}\n")
}

/// Appends the head line. For want of memory the text is as it was.
pub fn head(alloc: Global, text: &mut Text, channels: u8, cycles: u32) -> Result<(), AllocError>
    ensures written { OnOk result (text.new ≡ text.old ++ head_line channels cycles) }
    ensures refused { OnErr result (text.new ≡ text.old) }
{
    text.push_str(&head_line(alloc, channels, cycles)?)
}

// Appends the lines of rounds where they are shown.
fn push_traces(
    alloc: Global,
    text: &mut String,
    traces: &[TraceLine],
    trace: bool,
) -> Result<(), AllocError>
    ensures { OnOk result (string_bytes text.new
        ≡ string_bytes text.old ++ (if trace then flat_map trace_line traces.now else [])) }
{
    if trace {
        text.push_str(&trace_lines(alloc, traces)?)?;
    }
    Ok(())
}

// The part of a cycle.
fn cycle_text(
    alloc: Global,
    part: &CycleRecord,
    channels: u8,
    width: u8,
    outputs: u8,
    trace: bool,
) -> Result<String, AllocError>
    requires channels { channels ≤ 7 }
    requires width { width ≤ 4 }
    requires outputs { outputs ≤ 8 }
    ensures { IfOk result (λ text. string_bytes text
        ≡ part_text (cycle_part trace (shown channels width outputs part.now))) }
{
    let mut text = cycle_line(alloc, part)?;
    text.push_str(&channel_lines(alloc, part.lines.as_slice(), channels, width, outputs)?)?;
    push_traces(alloc, &mut text, part.traces.as_slice(), trace)?;
    text.push_str(&end_line(alloc, part)?)?;
    Ok(text)
}

/// Appends the part of a cycle, with its trace lines where `trace` says so. For want of memory the text is as it was.
pub fn write_cycle(
    alloc: Global,
    text: &mut Text,
    part: &CycleRecord,
    channels: u8,
    width: u8,
    outputs: u8,
    trace: bool,
) -> Result<(), AllocError>
    requires channels { channels ≤ 7 }
    requires width { width ≤ 4 }
    requires outputs { outputs ≤ 8 }
    ensures written { OnOk result
        (text.new ≡ text.old ++ part_text (cycle_part trace (shown channels width outputs part.now))) }
    ensures refused { OnErr result (text.new ≡ text.old) }
{
    text.push_str(&cycle_text(alloc, part, channels, width, outputs, trace)?)
}

fn out_line(alloc: Global, words: &[i64]) -> Result<String, AllocError>
    ensures { IfOk result (λ text. string_bytes text ≡ out_line words.now) }
{
    let words = joined(alloc, words)?;
    format!(in alloc; "out {words}\n")
}

/// Appends the line of an actuator's words, which stands after the end line of a cycle's part. For want of memory the
/// text is as it was.
pub fn write_out(
    alloc: Global,
    text: &mut Text,
    words: &[i64; 8],
    outputs: u8,
) -> Result<(), AllocError>
    requires { outputs ≤ 8 }
    ensures written { OnOk result (text.new ≡ text.old ++ out_line (take outputs words.now)) }
    ensures refused { OnErr result (text.new ≡ text.old) }
{
    text.push_str(&out_line(alloc, &words[..usize::from(outputs)])?)
}

/// Appends the last line of a run that did not stop. For want of memory the text is as it was.
pub fn write_end(alloc: Global, text: &mut Text, cycles: u32) -> Result<(), AllocError>
    ensures written { OnOk result (text.new ≡ text.old ++ done_line cycles) }
    ensures refused { OnErr result (text.new ≡ text.old) }
{
    text.push_str(&format!(in alloc; "done {cycles}\n")?)
}

fn slot_text(slot: Slot) -> &'static str
    ensures { result.now ≡ slot_text slot }
{
    match slot {
        Slot::Request => "request",
        Slot::Round1 => "round1",
        Slot::Round2 => "round2",
        Slot::Round3 => "round3",
        Slot::Tasks => "tasks",
        Slot::Vote => "vote",
        Slot::Sweep => "sweep",
        Slot::Final => "final",
        Slot::Switch => "switch",
        Slot::Output => "output",
    }
}

fn stop_line(
    alloc: Global,
    cycle: u32,
    slot: Slot,
    set: ChanSet,
    active: ChanSet,
) -> Result<String, AllocError>
    ensures { IfOk result (λ text. string_bytes text
        ≡ stop_line (record { cycle = cycle; slot = slot; set = set; active = active })) }
{
    let slot = slot_text(slot);
    let set = set_text(alloc, set)?;
    let active = set_text(alloc, active)?;
    format!(in alloc; "stop cycle {cycle} slot {slot} disturbed {set} active {active}\n")
}

/// Appends the line of a stop: the cycle and the slot in which too many channels were disturbed, these channels, and
/// the active ones. For want of memory the text is as it was.
pub fn write_stop(
    alloc: Global,
    text: &mut Text,
    cycle: u32,
    slot: Slot,
    set: ChanSet,
    active: ChanSet,
) -> Result<(), AllocError>
    ensures written { OnOk result
        (text.new ≡ text.old ++ stop_line (record { cycle = cycle; slot = slot; set = set; active = active })) }
    ensures refused { OnErr result (text.new ≡ text.old) }
{
    text.push_str(&stop_line(alloc, cycle, slot, set, active)?)
}
