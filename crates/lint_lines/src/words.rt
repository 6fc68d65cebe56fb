//! The lines on words.
ghost use Rattle.std.specs.Prelude.{◌≡◌, ◌≤◌, ◌*◌, ◌<◌, ◌++◌, flat_map, length, nat_lt, true, OnOk};
ghost use Rattle.std.specs.List.{list_all};
ghost use Rattle.context_blocks.specs.BlockSets.{flag_at};
ghost use Rattle.guards_model.specs.Channels.{numbers_below};
ghost use Rattle.table_flow.specs.Flow.{lists_from};
ghost use Rattle.lint_lines.specs.LineLists.{option_list};
ghost use Rattle.lint_lines.specs.WordLines.{is_zero_at, output_line, sensor_line, silent_line, unwritten_line, word_lines};

use crate::line::{Lines, LintLine, push_line};
use context_blocks::Context;
use mission_type::Mission;
use std::alloc::AllocError;
use table_flow::{Flow, WORDS, depended_words, table_flow};

fn silent_line(written: &[bool; WORDS], depended: &[bool; WORDS], w: u16) -> Option<LintLine>
    requires { w < 2048 }
    ensures { option_list result ≡ silent_line (flag_at written.now) (flag_at depended.now) w }
{
    if written[w as usize] && !depended[w as usize] {
        let (block, word) = (w / 8, w % 8);
        Some(LintLine::SilentWord { block, word })
    } else {
        None
    }
}

fn push_silent(
    written: &[bool; WORDS],
    depended: &[bool; WORDS],
    count: u16,
    lines: &mut Lines,
) -> Result<(), AllocError>
    requires { count ≤ 2048 }
    ensures { OnOk result (lines.new.items ≡ lines.old.items
        ++ flat_map (silent_line (flag_at written.now) (flag_at depended.now)) (numbers_below count)) }
{
    for w in 0..count {
        push_line(silent_line(written, depended, w), lines)?;
    }
    Ok(())
}

fn output_line(written: &[bool; WORDS], place: usize, output: (u8, u8)) -> Option<LintLine>
    requires place { place < 8 }
    requires word { output.1 < 8 }
    ensures { option_list result ≡ output_line (flag_at written.now) place output }
{
    let (block, word) = output;
    let place = place as u16;
    if written[usize::from(block) * 8 + usize::from(word)] {
        None
    } else {
        Some(LintLine::UnwrittenOutput { place, block, word })
    }
}

fn push_outputs(
    written: &[bool; WORDS],
    outputs: &[(u8, u8)],
    lines: &mut Lines,
) -> Result<(), AllocError>
    requires few { length outputs.now ≤ 8 }
    requires words { list_all (λ o. nat_lt o.1 8) outputs.now ≡ true }
    ensures { OnOk result (lines.new.items ≡ lines.old.items
        ++ lists_from (output_line (flag_at written.now)) 0 outputs.now) }
{
    for place in 0..outputs.len() {
        push_line(output_line(written, place, outputs[place]), lines)?;
    }
    Ok(())
}

fn sensor_line(read: &[bool; 4], k: u8) -> Option<LintLine>
    requires { k < 4 }
    ensures { option_list result ≡ sensor_line (flag_at read.now) k }
{
    if read[k as usize] {
        None
    } else {
        Some(LintLine::UnreadSensor { place: k })
    }
}

fn push_sensors(read: &[bool; 4], width: u8, lines: &mut Lines) -> Result<(), AllocError>
    requires { width ≤ 4 }
    ensures { OnOk result (lines.new.items ≡ lines.old.items
        ++ flat_map (sensor_line (flag_at read.now)) (numbers_below width)) }
{
    for k in 0..width {
        push_line(sensor_line(read, k), lines)?;
    }
    Ok(())
}

/// Whether a word of the context is 0.
fn is_zero_at(context: &Context, w: u16) -> bool
    requires here { w < length context.now * 8 }
    requires low { w < 2048 }
    ensures { result ≡ is_zero_at context.now w }
{
    let block = (w / 8) as u8;
    let word = usize::from(w % 8);
    context.get(block).words[word] == 0
}

fn unwritten_line(context: &Context, flow: &Flow, w: u16) -> Option<LintLine>
    requires here { w < length context.now * 8 }
    requires low { w < 2048 }
    ensures { option_list result ≡ unwritten_line context.now (flag_at flow.now.words) (flag_at flow.now.written) w }
{
    if flow.words[w as usize] && !flow.written[w as usize] && is_zero_at(context, w) {
        let (block, word) = (w / 8, w % 8);
        Some(LintLine::UnwrittenWord { block, word })
    } else {
        None
    }
}

fn push_unwritten(
    context: &Context,
    flow: &Flow,
    count: u16,
    lines: &mut Lines,
) -> Result<(), AllocError>
    requires here { count ≤ length context.now * 8 }
    requires low { count ≤ 2048 }
    ensures { OnOk result (lines.new.items ≡ lines.old.items
        ++ flat_map (unwritten_line context.now (flag_at flow.now.words) (flag_at flow.now.written))
        (numbers_below count)) }
{
    for w in 0..count {
        push_line(unwritten_line(context, flow, w), lines)?;
    }
    Ok(())
}

/// How many blocks a context of the mission has.
fn block_count(mission: &Mission) -> u16
    ensures value { result ≡ mission.now.rules.blocks }
    ensures few { result ≤ 256 }
{
    mission.prove_mission();
    mission.rules().blocks
}

/// How many words it has.
fn word_count(mission: &Mission) -> u16
    ensures value { result ≡ mission.now.rules.blocks * 8 }
    ensures few { result ≤ 2048 }
{
    block_count(mission) * 8
}

/// Appends the lines on words: those on which no output depends, outputs that are not written, sensor words that are
/// not read, and words that are read and not written.
pub fn push_word_lines(mission: &Mission, lines: &mut Lines) -> Result<(), AllocError>
    ensures { OnOk result (lines.new.items ≡ lines.old.items ++ word_lines mission.now) }
{
    mission.prove_sizes();
    let count = word_count(mission);
    let flow = table_flow(mission.table());
    let blocks = block_count(mission);
    let depended = depended_words(mission.table(), mission.outputs(), blocks);
    push_silent(&flow.written, &depended, count, lines)?;
    push_outputs(&flow.written, mission.outputs(), lines)?;
    push_sensors(&flow.inputs, mission.width(), lines)?;
    push_unwritten(mission.initial(), &flow, count, lines)?;
    Ok(())
}
