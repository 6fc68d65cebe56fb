//! The lines of a cycle.
ghost use Rattle.std.specs.Prelude.{◌≡◌, ◌<◌, ◌≤◌, ◌++◌, ◌∷◌, [], codes, map, flat_map, string_bytes, IfOk};
ghost use Rattle.std.specs.Fmt.{decimal};
ghost use Rattle.guards_model.specs.Texts.{set_text, transfer_text, remaining_text, step_text, steps_text, cycle_line, channel_line, trace_line, end_line};
ghost use Rattle.guards_model.specs.Records.{actor_of_step, transfer_of_pair, shown_line};

use crate::pieces::{joined, set_text};
use guards_base::{ChanSet, ChannelLine, CycleRecord, TraceLine};
use std::alloc::{AllocError, Global};

fn running_text(alloc: Global, targets: ChanSet, start: u32) -> Result<String, AllocError>
    ensures { IfOk result (λ text. string_bytes text ≡ set_text targets ++ codes "@" ++ decimal start) }
{
    let targets = set_text(alloc, targets)?;
    format!(in alloc; "{targets}@{start}")
}

// The targets and the start of a transfer, or `-`.
fn transfer_text(alloc: Global, transfer: Option<(ChanSet, u32)>) -> Result<String, AllocError>
    ensures { IfOk result (λ text. string_bytes text ≡ transfer_text (transfer_of_pair transfer)) }
{
    let Some((targets, start)) = transfer else {
        return String::from_str(alloc, "-");
    };
    running_text(alloc, targets, start)
}

fn remaining_text(alloc: Global, remaining: Option<u16>) -> Result<String, AllocError>
    ensures { IfOk result (λ text. string_bytes text ≡ remaining_text remaining) }
{
    let Some(count) = remaining else {
        return String::from_str(alloc, "-");
    };
    format!(in alloc; "{count}")
}

/// The line that begins a cycle.
pub fn cycle_line(alloc: Global, part: &CycleRecord) -> Result<String, AllocError>
    ensures { IfOk result (λ text. string_bytes text ≡ cycle_line part.now) }
{
    let cycle = part.cycle;
    let active = set_text(alloc, part.active)?;
    let transfer = transfer_text(alloc, part.transfer)?;
    format!(in alloc; "cycle {cycle} active {active} transfer {transfer}\n")
}

/// The line of a channel, with as many words, votes and counts as are shown.
pub fn channel_line(
    alloc: Global,
    line: &ChannelLine,
    channels: u8,
    width: u8,
    outputs: u8,
) -> Result<String, AllocError>
    requires channels { channels ≤ 7 }
    requires width { width ≤ 4 }
    requires outputs { outputs ≤ 8 }
    ensures { IfOk result (λ text. string_bytes text ≡ channel_line (shown_line channels width outputs line.now)) }
{
    let chan = line.chan.index();
    let inputs = joined(alloc, &line.inputs[..usize::from(width)])?;
    let votes = joined(alloc, &line.votes[..usize::from(outputs)])?;
    let judged = set_text(alloc, line.judged)?;
    let counts = joined(alloc, &line.alphas[..usize::from(channels)])?;
    format!(in alloc; "ch {chan} in {inputs} vote {votes} judged {judged} alpha {counts}\n")
}

// T for a write and S for a copy.
fn letter(step: u8) -> char
    ensures letter { result ∷ [] ≡ step_text (actor_of_step step) }
    ensures ascii { result < 128 }
{
    match step {
        0 => 'T',
        _ => 'S',
    }
}

// T for each write and S for each copy, or `-`.
fn steps_text(alloc: Global, steps: &[u8]) -> Result<String, AllocError>
    ensures { IfOk result (λ text. string_bytes text ≡ steps_text (map actor_of_step steps.now)) }
{
    if steps.is_empty() {
        return String::from_str(alloc, "-");
    }
    let mut text = String::new(alloc);
    for step in steps {
        text.push(letter(*step))?;
    }
    Ok(text)
}

/// The line of a channel's round.
pub fn trace_line(alloc: Global, trace: &TraceLine) -> Result<String, AllocError>
    ensures { IfOk result (λ text. string_bytes text ≡ trace_line trace.now) }
{
    let chan = trace.chan.index();
    let steps = steps_text(alloc, trace.steps.as_slice())?;
    format!(in alloc; "trace {chan} {steps}\n")
}

/// The line that ends a cycle.
pub fn end_line(alloc: Global, part: &CycleRecord) -> Result<String, AllocError>
    ensures { IfOk result (λ text. string_bytes text ≡ end_line part.now) }
{
    let removed = set_text(alloc, part.removed)?;
    let joined = set_text(alloc, part.joined)?;
    let remaining = remaining_text(alloc, part.remaining)?;
    format!(in alloc; "end removed {removed} joined {joined} remaining {remaining}\n")
}

/// The lines of channels, one after the other.
pub fn channel_lines(
    alloc: Global,
    lines: &[ChannelLine],
    channels: u8,
    width: u8,
    outputs: u8,
) -> Result<String, AllocError>
    requires channels { channels ≤ 7 }
    requires width { width ≤ 4 }
    requires outputs { outputs ≤ 8 }
    ensures { IfOk result (λ text. string_bytes text
        ≡ flat_map (λ l. channel_line (shown_line channels width outputs l)) lines.now) }
{
    let mut text = String::new(alloc);
    for line in lines {
        text.push_str(&channel_line(alloc, line, channels, width, outputs)?)?;
    }
    Ok(text)
}

/// The lines of rounds, one after the other.
pub fn trace_lines(alloc: Global, traces: &[TraceLine]) -> Result<String, AllocError>
    ensures { IfOk result (λ text. string_bytes text ≡ flat_map trace_line traces.now) }
{
    let mut text = String::new(alloc);
    for trace in traces {
        text.push_str(&trace_line(alloc, trace)?)?;
    }
    Ok(text)
}
