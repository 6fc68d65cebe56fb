//! The lines that are written of a mission.

ghost use Rattle.std.specs.Prelude.{◌≡◌, ◌++◌, OnOk};
ghost use Rattle.lint_lines.specs.LineLists.{option_list};

use guards_base::Sequence;
use guards_model::Slot;
use std::alloc::AllocError;

/// What a line tells of a mission.
#[derive(Clone, Copy, Debug, PartialEq, Eq)]
pub enum LintLine {
    /// No bound of a join is promised: a row writes as many blocks as are copied, or more than a final frame has.
    JoinUnbounded { writes: u16, sweep: u8, last: u8 },
    /// A channel that is judged at most once in so many cycles in a row is never removed for it, and for no fewer
    /// cycles is that so.
    StaysJudged { period: u32 },
    /// A transfer that starts in a cycle of this row takes so many cycles.
    TransferTakes { row: u16, cycles: u32 },
    /// A transfer that starts in a cycle of this row ends within no run.
    TransferRunsOn { row: u16 },
    /// In this cycle the script names so many channels, a third of them or more.
    CrowdedCycle { cycle: u32, count: u8, channels: u8 },
    /// The channel is not down before this restart.
    IdleRestart { channel: u8, cycle: u32 },
    /// The channel is down before this crash.
    IdleCrash { channel: u8, cycle: u32 },
    /// The channel is down before this damage.
    IdleDamage { channel: u8, cycle: u32 },
    /// No frames to this receiver are carried in the slot.
    IdleRule { from: u8, cycle: u32, slot: Slot },
    /// No output depends on the word, which is written.
    SilentWord { block: u16, word: u16 },
    /// No task of the table writes the output.
    UnwrittenOutput { place: u16, block: u8, word: u8 },
    /// No task of the table reads the sensor words of this place.
    UnreadSensor { place: u8 },
    /// The word is read, and begins as 0, and no task of the table writes it.
    UnwrittenWord { block: u16, word: u16 },
    /// No row of the table names the task of this place.
    IdleTask { place: usize },
}

/// Lines, in the order of their paths.
pub type Lines = Sequence<LintLine>;

/// Appends a line, if there is one.
pub fn push_line(line: Option<LintLine>, lines: &mut Lines) -> Result<(), AllocError>
    ensures { OnOk result (lines.new.items ≡ lines.old.items ++ option_list line) }
{
    if let Some(line) = line {
        lines.push(line)?;
    }
    Ok(())
}
