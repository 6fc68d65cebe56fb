//! The records of cycles in which every channel works and none is judged, and their texts.
ghost use Rattle.std.specs.Prelude.{◌≡◌, ◌≤◌, ◌+◌, ℕ, map, length, take, IfOk};
ghost use Rattle.guards_model.specs.Channels.{numbers_below};
ghost use Rattle.guards_model.specs.Records.{shown, shown_line};
ghost use Rattle.guards_runs.specs.IdealMachine.{ideal};
ghost use Rattle.guards_runs.specs.IdealReport.{ideal_line, record_with, record_text, head, part, last};

use crate::machine::run_cycle;
use crate::votes::{count_of, votes_of};
use context_blocks::Context;
use guards_base::{Ballot, Chan, ChanSet, ChannelLine, CycleRecord, Lines, Text, Traces};
use mission_type::Mission;
use native_calls::Calls;
use std::alloc::{AllocError, Global};

/// The line of a channel.
#[tactic(auto, using(crate::proofs::Shown::line_shown))]
fn line_of(chan: Chan, inputs: [i64; 4], ballot: &Ballot) -> ChannelLine
    ensures { (channels width : ℕ) → channels ≤ 7 →
        shown_line channels width (length ballot.now) result ≡ ideal_line channels (take width inputs) ballot.now chan }
{
    ChannelLine {
        chan,
        inputs,
        votes: votes_of(ballot),
        judged: ChanSet::empty(),
        alphas: [0; 7],
    }
}

/// The line of each channel.
fn lines_of(
    alloc: Global,
    channels: u8,
    inputs: [i64; 4],
    ballot: &Ballot,
) -> Result<Lines, AllocError>
    requires { channels ≤ 7 }
    ensures { IfOk result (λ lines. (width : ℕ) →
        map (shown_line channels width (length ballot.now)) lines.items
        ≡ map (ideal_line channels (take width inputs) ballot.now) (numbers_below channels)) }
{
    let mut lines = Lines::new(alloc);
    for number in 0..channels {
        if let Some(chan) = Chan::new(number) {
            let line = line_of(chan, inputs, ballot);
            lines.push(line)?;
        }
    }
    Ok(lines)
}

/// The record of a cycle.
#[tactic(auto, unfolding(guards_runs::specs::IdealReport::record_with))]
fn record_of(
    alloc: Global,
    channels: u8,
    cycle: u32,
    inputs: [i64; 4],
    ballot: &Ballot,
) -> Result<CycleRecord, AllocError>
    requires { channels ≤ 7 }
    ensures { IfOk result (λ r. (width : ℕ) →
        shown channels width (length ballot.now) r ≡ record_with channels cycle (take width inputs) ballot.now) }
{
    let lines = lines_of(alloc, channels, inputs, ballot)?;
    Ok(CycleRecord {
        cycle,
        active: ChanSet::below(channels),
        transfer: None,
        lines,
        traces: Traces::new(alloc),
        removed: ChanSet::empty(),
        joined: ChanSet::empty(),
        remaining: None,
    })
}

/// The text of a cycle's record.
#[tactic(auto, unfolding(guards_runs::specs::IdealReport::record_text))]
fn record_text(
    alloc: Global,
    channels: u8,
    cycle: u32,
    width: u8,
    inputs: [i64; 4],
    ballot: &Ballot,
) -> Result<Text, AllocError>
    requires channels { channels ≤ 7 }
    requires width { width ≤ 4 }
    ensures { IfOk result (λ text. text ≡ record_text (record_with channels cycle (take width inputs) ballot.now)) }
{
    let record = record_of(alloc, channels, cycle, inputs, ballot)?;
    let mut text = Text::new(alloc);
    let outputs = count_of(ballot);
    report_text::write_cycle(alloc, &mut text, &record, channels, width, outputs, false)?;
    Ok(text)
}

/// Runs a cycle, and gives its part.
pub fn cycle_text<C: Calls>(
    alloc: Global,
    mission: &Mission,
    cycle: u32,
    context: &mut Context,
    natives: &C,
) -> Result<Text, AllocError>
    requires { context.old ≡ ideal mission.now cycle }
    ensures context { context.new ≡ ideal mission.now (cycle + 1) }
    ensures text { IfOk result (λ text. text ≡ part mission.now cycle) }
{
    mission.prove_sizes();
    let inputs = run_cycle(mission, cycle, context, natives);
    let ballot = mission.output_words(context);
    let channels = mission.rules().channels;
    let width = mission.width();
    record_text(alloc, channels, cycle, width, inputs, &ballot)
}

/// The head line.
#[tactic(auto, unfolding(guards_runs::specs::IdealReport::head))]
pub fn head(alloc: Global, mission: &Mission) -> Result<Text, AllocError>
    ensures { IfOk result (λ text. text ≡ head mission.now) }
{
    let mut text = Text::new(alloc);
    report_text::head(alloc, &mut text, mission.rules.channels, mission.cycles)?;
    Ok(text)
}

/// The last line.
#[tactic(auto, unfolding(guards_runs::specs::IdealReport::last))]
pub fn last(alloc: Global, mission: &Mission) -> Result<Text, AllocError>
    ensures { IfOk result (λ text. text ≡ last mission.now) }
{
    let mut text = Text::new(alloc);
    report_text::write_end(alloc, &mut text, mission.cycles)?;
    Ok(text)
}
