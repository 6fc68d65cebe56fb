//! How long a transfer takes.
ghost use Rattle.std.specs.Prelude.{◌≡◌, ◌≤◌, ◌<◌, ◌∷◌, [], List, Some, length, flat_map, ◌++◌, OnOk};
ghost use Rattle.guards_model.specs.Channels.{numbers_below};
ghost use Rattle.guards_model.specs.Missions.{written_blocks};
ghost use Rattle.guards_model.specs.Tags.{StandFor};
ghost use Rattle.guards_model.specs.Transfers.{TransferCycle, planned_blocks};
ghost use Rattle.lint_lines.specs.LineLists.{option_list};
ghost use Rattle.mission_lint.specs.RuleLines.{length_line};
ghost use Rattle.recovery_laws.specs.Lengths.{transfer_length};

use crate::known::{blocks_of, last_of, sweep_of};
use dirty_tags::Tags;
use lint_lines::{Lines, LintLine, push_line};
use mission_type::Mission;
use std::alloc::AllocError;

/// One more cycle of a transfer, and how many blocks remain after it.
fn pass_cycle(mission: &Mission, cycle: u32, tags: &mut Tags) -> u16
    requires { tags.old.blocks ≡ mission.now.rules.blocks }
    ensures stands { (cycles : List TransferCycle) → StandFor tags.old cycles [] →
        StandFor tags.new (record {
          planned = planned_blocks mission.now.rules.blocks mission.now.rules.sweep cycles;
          written = written_blocks mission.now cycle;
        } ∷ cycles) [] }
    ensures remaining { result ≡ length tags.new.remaining }
    ensures blocks { tags.new.blocks ≡ tags.old.blocks }
{
    let plan = tags.plan(sweep_of(mission));
    let blocks = blocks_of(mission);
    let _known = blocks;
    tags.wrote_all(&mission.table().distinct_blocks(cycle));
    tags.close_cycle(&plan)
}

/// How many cycles a transfer takes that starts in a cycle of the row, or none where no run lasts that long.
fn transfer_length(mission: &Mission, row: u16) -> Option<u32>
    ensures { result ≡ transfer_length mission.now row }
{
    let last = u16::from(last_of(mission));
    let mut tags = Tags::all(blocks_of(mission));
    for before in 0..2000u32 {
        let remaining = pass_cycle(mission, u32::from(row) + before, &mut tags);
        if remaining <= last {
            return Some(before + 1);
        }
    }
    None
}

fn length_line(row: u16, length: Option<u32>) -> LintLine
    ensures { option_list (Some result) ≡ length_line row length }
{
    match length {
        Some(cycles) => LintLine::TransferTakes { row, cycles },
        None => LintLine::TransferRunsOn { row },
    }
}

/// Appends a line for each of so many rows.
pub(crate) fn push_transfers(
    mission: &Mission,
    rows: u16,
    lines: &mut Lines,
) -> Result<(), AllocError>
    ensures { OnOk result (lines.new.items ≡ lines.old.items
        ++ flat_map (λ row. length_line row (transfer_length mission.now row)) (numbers_below rows)) }
{
    for row in 0..rows {
        push_line(Some(length_line(row, transfer_length(mission, row))), lines)?;
    }
    Ok(())
}
