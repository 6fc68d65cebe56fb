//! The text of a line.
ghost use Rattle.std.specs.Prelude.{◌≡◌, ◌++◌, codes, IfOk, OnOk, string_bytes};
ghost use Rattle.std.specs.Fmt.{decimal};
ghost use Rattle.guards_model.specs.Slots.{slot_text};
ghost use Rattle.lint_lines.specs.declared.line.LintLine.TheVariants as line;
ghost use Rattle.lint_lines.specs.LineTexts.{body_text, is_warning, line_text, path_text, lint_text, urgency_text, warns};

use crate::line::LintLine;
use guards_base::Text;
use guards_model::Slot;
use std::alloc::{AllocError, Global};

fn is_warning(line: LintLine) -> bool
    ensures { result ≡ is_warning line }
{
    match line {
        LintLine::StaysJudged { period } => period <= 2,
        LintLine::TransferTakes { .. } => false,
        _ => true,
    }
}

/// Whether a line warns.
pub fn warn(lines: &[LintLine]) -> bool
    ensures { result ≡ warns lines.now }
{
    lines.iter().any(|line| is_warning(*line))
}

fn urgency_text(warning: bool) -> &'static str
    ensures { result.now ≡ urgency_text warning }
{
    match warning {
        true => "warning",
        false => "note",
    }
}

fn output_path(alloc: Global, place: u16) -> Result<String, AllocError>
    ensures { IfOk result (λ text. string_bytes text ≡ codes "outputs[" ++ decimal place ++ codes "]") }
{
    format!(in alloc; "outputs[{place}]")
}

fn task_path(alloc: Global, place: usize) -> Result<String, AllocError>
    ensures { IfOk result (λ text. string_bytes text ≡ codes "task[" ++ decimal place ++ codes "]") }
{
    format!(in alloc; "task[{place}]")
}

fn path_text(alloc: Global, line: LintLine) -> Result<String, AllocError>
    ensures { IfOk result (λ text. string_bytes text ≡ path_text line) }
{
    match line {
        LintLine::JoinUnbounded { .. } => String::from_str(alloc, "core"),
        LintLine::StaysJudged { .. } => String::from_str(alloc, "core.keep"),
        LintLine::TransferTakes { .. } => String::from_str(alloc, "core.sweep"),
        LintLine::TransferRunsOn { .. } => String::from_str(alloc, "core.sweep"),
        LintLine::CrowdedCycle { .. } => String::from_str(alloc, "fault"),
        LintLine::IdleRestart { .. } => String::from_str(alloc, "fault"),
        LintLine::IdleCrash { .. } => String::from_str(alloc, "fault"),
        LintLine::IdleDamage { .. } => String::from_str(alloc, "fault"),
        LintLine::IdleRule { .. } => String::from_str(alloc, "fault"),
        LintLine::SilentWord { .. } => String::from_str(alloc, "outputs"),
        LintLine::UnwrittenOutput { place, .. } => output_path(alloc, place),
        LintLine::UnreadSensor { .. } => String::from_str(alloc, "sensors"),
        LintLine::UnwrittenWord { .. } => String::from_str(alloc, "task"),
        LintLine::IdleTask { place } => task_path(alloc, place),
    }
}

fn slot_text(slot: Slot) -> &'static str
    ensures { result.now ≡ slot_text slot }
{
    match slot {
        Slot::Request => "request",
        Slot::Round1 => "round1",
        Slot::Round2 => "round2",
        Slot::Round3 => "round3",
        Slot::Tasks => "tasks",
        Slot::Vote => "vote",
        Slot::Sweep => "sweep",
        Slot::Final => "final",
        Slot::Switch => "switch",
        Slot::Output => "output",
    }
}

fn unbounded_text(alloc: Global, writes: u16, sweep: u8, last: u8) -> Result<String, AllocError>
    ensures { IfOk result (λ text. string_bytes text ≡ body_text (line.JoinUnbounded writes sweep last)) }
{
    format!(in alloc;
        "no bound of a join is promised: a row writes {writes} blocks, sweep is {sweep} and final is {last}"
    )
}

fn stays_text(alloc: Global, period: u32) -> Result<String, AllocError>
    ensures { IfOk result (λ text. string_bytes text ≡ body_text (line.StaysJudged period)) }
{
    format!(in alloc;
        "a channel that is judged errant once in {period} cycles is never removed for it"
    )
}

fn takes_text(alloc: Global, row: u16, cycles: u32) -> Result<String, AllocError>
    ensures { IfOk result (λ text. string_bytes text ≡ body_text (line.TransferTakes row cycles)) }
{
    format!(in alloc; "a transfer that starts in row {row} takes {cycles} cycles")
}

fn runs_on_text(alloc: Global, row: u16) -> Result<String, AllocError>
    ensures { IfOk result (λ text. string_bytes text ≡ body_text (line.TransferRunsOn row)) }
{
    format!(in alloc; "a transfer that starts in row {row} does not end in 2000 cycles")
}

fn crowded_text(alloc: Global, cycle: u32, count: u8, channels: u8) -> Result<String, AllocError>
    ensures { IfOk result (λ text. string_bytes text ≡ body_text (line.CrowdedCycle cycle count channels)) }
{
    format!(in alloc;
        "in cycle {cycle} the script names {count} of {channels} channels, a third or more"
    )
}

fn restart_text(alloc: Global, channel: u8, cycle: u32) -> Result<String, AllocError>
    ensures { IfOk result (λ text. string_bytes text ≡ body_text (line.IdleRestart channel cycle)) }
{
    format!(in alloc; "no effect: restart of channel {channel} in cycle {cycle}, which is not down")
}

fn crash_text(alloc: Global, channel: u8, cycle: u32) -> Result<String, AllocError>
    ensures { IfOk result (λ text. string_bytes text ≡ body_text (line.IdleCrash channel cycle)) }
{
    format!(in alloc; "no effect: crash of channel {channel} in cycle {cycle}, which is down")
}

fn damage_text(alloc: Global, channel: u8, cycle: u32) -> Result<String, AllocError>
    ensures { IfOk result (λ text. string_bytes text ≡ body_text (line.IdleDamage channel cycle)) }
{
    format!(in alloc; "no effect: damage of channel {channel} in cycle {cycle}, which is down")
}

fn rule_text(alloc: Global, from: u8, cycle: u32, slot: Slot) -> Result<String, AllocError>
    ensures { IfOk result (λ text. string_bytes text ≡ body_text (line.IdleRule from cycle slot)) }
{
    let slot = slot_text(slot);
    format!(in alloc;
        "no effect: frames of channel {from} in cycle {cycle}, none such in slot {slot}"
    )
}

fn silent_text(alloc: Global, block: u16, word: u16) -> Result<String, AllocError>
    ensures { IfOk result (λ text. string_bytes text ≡ body_text (line.SilentWord block word)) }
{
    format!(in alloc; "no output depends on b{block}.{word}: damage there shows in no vote")
}

fn unwritten_output_text(
    alloc: Global,
    place: u16,
    block: u8,
    word: u8,
) -> Result<String, AllocError>
    ensures { IfOk result (λ text. string_bytes text ≡ body_text (line.UnwrittenOutput place block word)) }
{
    let _place = place;
    format!(in alloc; "b{block}.{word} is written by no task of the table")
}

fn sensor_text(alloc: Global, place: u8) -> Result<String, AllocError>
    ensures { IfOk result (λ text. string_bytes text ≡ body_text (line.UnreadSensor place)) }
{
    format!(in alloc; "in{place} is read by no task of the table")
}

fn unwritten_text(alloc: Global, block: u16, word: u16) -> Result<String, AllocError>
    ensures { IfOk result (λ text. string_bytes text ≡ body_text (line.UnwrittenWord block word)) }
{
    format!(in alloc; "b{block}.{word} is read and never written")
}

fn body_text(alloc: Global, line: LintLine) -> Result<String, AllocError>
    ensures { IfOk result (λ text. string_bytes text ≡ body_text line) }
{
    match line {
        LintLine::JoinUnbounded {
            writes,
            sweep,
            last,
        } => unbounded_text(alloc, writes, sweep, last),
        LintLine::StaysJudged { period } => stays_text(alloc, period),
        LintLine::TransferTakes { row, cycles } => takes_text(alloc, row, cycles),
        LintLine::TransferRunsOn { row } => runs_on_text(alloc, row),
        LintLine::CrowdedCycle {
            cycle,
            count,
            channels,
        } => crowded_text(alloc, cycle, count, channels),
        LintLine::IdleRestart { channel, cycle } => restart_text(alloc, channel, cycle),
        LintLine::IdleCrash { channel, cycle } => crash_text(alloc, channel, cycle),
        LintLine::IdleDamage { channel, cycle } => damage_text(alloc, channel, cycle),
        LintLine::IdleRule { from, cycle, slot } => rule_text(alloc, from, cycle, slot),
        LintLine::SilentWord { block, word } => silent_text(alloc, block, word),
        LintLine::UnwrittenOutput { place, block, word } => {
            unwritten_output_text(alloc, place, block, word)
        }
        LintLine::UnreadSensor { place } => sensor_text(alloc, place),
        LintLine::UnwrittenWord { block, word } => unwritten_text(alloc, block, word),
        LintLine::IdleTask { .. } => String::from_str(alloc, "stands in no row of the table"),
    }
}

#[tactic(auto, unfolding(crate::specs::LineTexts::line_text))]
fn line_text(alloc: Global, line: LintLine) -> Result<String, AllocError>
    ensures { IfOk result (λ text. string_bytes text ≡ line_text line) }
{
    let urgency = urgency_text(is_warning(line));
    let path = path_text(alloc, line)?;
    let body = body_text(alloc, line)?;
    format!(in alloc; "{urgency} {path} {body}\n")
}

fn push_text(alloc: Global, line: &LintLine, text: &mut Text) -> Result<(), AllocError>
    ensures { OnOk result (text.new ≡ text.old ++ line_text line.now) }
{
    text.push_str(&line_text(alloc, *line)?)
}

/// The text of lines, one after the other.
pub fn lines_text(alloc: Global, lines: &[LintLine]) -> Result<Text, AllocError>
    ensures { IfOk result (λ text. text ≡ lint_text lines.now) }
{
    let mut text = Text::new(alloc);
    for place in 0..lines.len() {
        push_text(alloc, &lines[place], &mut text)?;
    }
    Ok(text)
}
