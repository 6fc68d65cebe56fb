//! The text of `check`, and the summary of a demo.
ghost use Rattle.std.specs.Prelude.{◌≡◌, ◌≤◌, ◌++◌, take, IfOk, OnOk, OnErr, string_bytes};
ghost use Rattle.guards_model.specs.Texts.{part_text};
ghost use Rattle.guards_model.specs.CheckTexts.{sizes_line, rounds_line, writes_line, bound_text, join_line, check_head_part, expression_line, demo_line, changes_line, frames_line, last_votes_line, summary_part};

use crate::pieces::joined;
use guards_base::Text;
use std::alloc::{AllocError, Global};

fn sizes_line(alloc: Global, channels: u8, cycles: u32, blocks: u16) -> Result<String, AllocError>
    ensures { IfOk result (λ text. string_bytes text ≡ sizes_line channels cycles blocks) }
{
    format!(in alloc; "check channels {channels} cycles {cycles} blocks {blocks}\n")
}

fn bound_text(alloc: Global, bound: Option<u32>) -> Result<String, AllocError>
    ensures { IfOk result (λ text. string_bytes text ≡ bound_text bound) }
{
    let Some(cycles) = bound else {
        return String::from_str(alloc, "-");
    };
    format!(in alloc; "{cycles}")
}

fn rounds_line(alloc: Global, rounds: u8) -> Result<String, AllocError>
    ensures { IfOk result (λ text. string_bytes text ≡ rounds_line rounds) }
{
    format!(in alloc; "rounds {rounds}\n")
}

fn writes_line(alloc: Global, writes: u16) -> Result<String, AllocError>
    ensures { IfOk result (λ text. string_bytes text ≡ writes_line writes) }
{
    format!(in alloc; "writes {writes}\n")
}

fn join_line(alloc: Global, bound: Option<u32>) -> Result<String, AllocError>
    ensures { IfOk result (λ text. string_bytes text ≡ join_line bound) }
{
    let bound = bound_text(alloc, bound)?;
    format!(in alloc; "join {bound}\n")
}

fn head_text(
    alloc: Global,
    channels: u8,
    cycles: u32,
    blocks: u16,
    rounds: u8,
    writes: u16,
    join: Option<u32>,
) -> Result<String, AllocError>
    ensures { IfOk result (λ text. string_bytes text
        ≡ part_text (check_head_part channels cycles blocks rounds writes join)) }
{
    let mut text = sizes_line(alloc, channels, cycles, blocks)?;
    text.push_str(&rounds_line(alloc, rounds)?)?;
    text.push_str(&writes_line(alloc, writes)?)?;
    text.push_str(&join_line(alloc, join)?)?;
    Ok(text)
}

/// Appends the first lines of `check`: the sizes, the rounds of a cycle, the greatest number of blocks that a row
/// writes, and the bound of a join in cycles. For want of memory the text is as it was.
pub fn check_head(
    alloc: Global,
    text: &mut Text,
    channels: u8,
    cycles: u32,
    blocks: u16,
    rounds: u8,
    writes: u16,
    join: Option<u32>,
) -> Result<(), AllocError>
    ensures written { OnOk result
        (text.new ≡ text.old ++ part_text (check_head_part channels cycles blocks rounds writes join)) }
    ensures refused { OnErr result (text.new ≡ text.old) }
{
    text.push_str(&head_text(alloc, channels, cycles, blocks, rounds, writes, join)?)
}

fn expression_line(
    alloc: Global,
    row: u16,
    task: &str,
    block: u8,
    word: u8,
    expr: &str,
) -> Result<String, AllocError>
    ensures { IfOk result (λ text. string_bytes text ≡ expression_line row task.now block word expr.now) }
{
    format!(in alloc; "row {row} task {task} b{block}.{word} = {expr}\n")
}

/// Appends the line of an expression: its row, its task, the block and the word that it is stored in, and its text.
/// For want of memory the text is as it was.
pub fn check_line(
    alloc: Global,
    text: &mut Text,
    row: u16,
    task: &Text,
    block: u8,
    word: u8,
    expr: &Text,
) -> Result<(), AllocError>
    ensures written { OnOk result (text.new ≡ text.old ++ expression_line row task.now block word expr.now) }
    ensures refused { OnErr result (text.new ≡ text.old) }
{
    text.push_str(&expression_line(alloc, row, task.as_str(), block, word, expr.as_str())?)
}

fn changes_line(alloc: Global, joins: u32, removals: u32) -> Result<String, AllocError>
    ensures { IfOk result (λ text. string_bytes text ≡ changes_line joins removals) }
{
    format!(in alloc; "joins {joins} removals {removals}\n")
}

fn demo_line(alloc: Global, n: u64) -> Result<String, AllocError>
    ensures { IfOk result (λ text. string_bytes text ≡ demo_line n) }
{
    format!(in alloc; "demo {n}\n")
}

fn frames_line(alloc: Global, frames: u64) -> Result<String, AllocError>
    ensures { IfOk result (λ text. string_bytes text ≡ frames_line frames) }
{
    format!(in alloc; "frames {frames}\n")
}

fn last_votes_line(alloc: Global, votes: &[Option<i64>]) -> Result<String, AllocError>
    ensures { IfOk result (λ text. string_bytes text ≡ last_votes_line votes.now) }
{
    let votes = joined(alloc, votes)?;
    format!(in alloc; "last {votes}\n")
}

fn summary_text(
    alloc: Global,
    n: u64,
    joins: u32,
    removals: u32,
    frames: u64,
    votes: &[Option<i64>],
) -> Result<String, AllocError>
    ensures { IfOk result (λ text. string_bytes text ≡ part_text (summary_part n joins removals frames votes.now)) }
{
    let mut text = demo_line(alloc, n)?;
    text.push_str("channels 7 blocks 128 cycles 400\n")?;
    text.push_str(&changes_line(alloc, joins, removals)?)?;
    text.push_str(&frames_line(alloc, frames)?)?;
    text.push_str(&last_votes_line(alloc, votes)?)?;
    Ok(text)
}

/// Appends the five lines of a demo: its number, its sizes, the channels that joined and that were removed in all
/// cycles, the frames that were carried, and the votes of the last cycle. For want of memory the text is as it was.
pub fn summary(
    alloc: Global,
    text: &mut Text,
    n: u64,
    joins: u32,
    removals: u32,
    frames: u64,
    last: &[Option<i64>; 8],
    outputs: u8,
) -> Result<(), AllocError>
    requires { outputs ≤ 8 }
    ensures written { OnOk result
        (text.new ≡ text.old ++ part_text (summary_part n joins removals frames (take outputs last.now))) }
    ensures refused { OnErr result (text.new ≡ text.old) }
{
    let votes = &last[..usize::from(outputs)];
    text.push_str(&summary_text(alloc, n, joins, removals, frames, votes)?)
}
