//! How many inputs and outputs the lines of a report have: as many as its first line of a channel.
ghost use Rattle.std.specs.Prelude.{◌≡◌, ◌≤◌, ◌<◌, Some, IfOk};
ghost use Rattle.run_audit.specs.declared.line.Sizes.{Sizes};
ghost use Rattle.run_audit.specs.Values.{IsInUse};
ghost use Rattle.report_story.specs.Sizing.{ReadsSized, ReadsAny, story_sizes_at};

use run_audit::{Line, Sizes, read_line};
use std::alloc::{AllocError, Global};

/// A line, and how many channels, inputs and outputs it is read with.
#[derive(Drop)]
pub struct SizedLine {
    pub line: Line,
    pub sizes: Sizes,
}

/// The sizes of a number below 32: one to four inputs, one to eight outputs.
fn sizes_at(channels: u8, number: u8) -> Sizes
    requires channels { (1 ≤ channels) × (channels ≤ 7) }
    requires number { number < 32 }
    ensures value { result ≡ story_sizes_at channels number }
    ensures used { IsInUse result }
{
    Sizes {
        channels,
        width: 1 + number / 8,
        outputs: 1 + number % 8,
    }
}

/// The line that a text spells, whatever its sizes.
fn read_any(alloc: Global, bytes: &[u8], channels: u8) -> Result<Option<SizedLine>, AllocError>
    requires { (1 ≤ channels) × (channels ≤ 7) }
    ensures { IfOk result (ReadsAny channels bytes.now) }
{
    for number in 0..32u8 {
        let sizes = sizes_at(channels, number);
        match read_line(alloc, bytes, sizes)? {
            Some(line) => return Ok(Some(SizedLine { line, sizes })),
            None => {}
        }
    }
    Ok(None)
}

/// The line that a text spells with these sizes, or with any where none are known.
pub(crate) fn read_sized(
    alloc: Global,
    bytes: &[u8],
    channels: u8,
    sizes: Option<Sizes>,
) -> Result<Option<SizedLine>, AllocError>
    requires channels { (1 ≤ channels) × (channels ≤ 7) }
    requires sizes { (s : Sizes) → sizes ≡ Some s → IsInUse s }
    ensures { IfOk result (ReadsSized channels sizes bytes.now) }
{
    let Some(sizes) = sizes else {
        return read_any(alloc, bytes, channels);
    };
    match read_line(alloc, bytes, sizes)? {
        Some(line) => Ok(Some(SizedLine { line, sizes })),
        None => Ok(None),
    }
}
