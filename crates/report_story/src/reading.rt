//! Reads a report, line by line.
ghost use Rattle.std.specs.Prelude.{◌<◌, ◌^◌, length, Option, IfOk};
ghost use Rattle.report_story.specs.declared.reader.RunSizes.{RunSizes};
ghost use Rattle.report_story.specs.Answers.{IsPlace, OnlyStops, StepsStory, TellsStory};

use crate::reader::{Reader, RunSizes, fits_mission};
use crate::sizes::read_sized;
use crate::stop::read_stop;
use run_audit::line_len;
use std::alloc::{AllocError, Global};

/// Why bytes are no report.
#[derive(Clone, Copy, Debug, PartialEq, Eq)]
pub enum BadReport {
    /// This line, from 1, may not come where it stands; or there is none.
    Line(u32),
    /// Memory ran out.
    Memory,
}

impl From<AllocError> for BadReport {
    ghost use Rattle.std.specs.Prelude.{◌≡◌};
    ghost use Rattle.report_story.specs.declared.reading.BadReport.TheVariants as bad;

    ghost from_gives = { λ _ fault. fault ≡ bad.Memory };

    fn from(_error: AllocError) -> BadReport {
        BadReport::Memory
    }
}

/// Takes a line as a stop, which any report may have, and answers whether it may come here.
fn take_stop(alloc: Global, reader: &mut Reader, bytes: &[u8]) -> Result<bool, AllocError>
    requires { OnlyStops reader.old bytes.now }
    ensures { (known : Option RunSizes) →
        IfOk result (λ fits. StepsStory known reader.old bytes.now fits reader.new) }
{
    match read_stop(alloc, bytes)? {
        Some(stop) => Ok(reader.take_stop(stop.cycle, stop.slot, stop.set, stop.active)),
        None => Ok(false),
    }
}

/// Takes a line, and answers whether it may come here.
fn take(
    alloc: Global,
    known: Option<RunSizes>,
    reader: &mut Reader,
    bytes: &[u8],
) -> Result<bool, AllocError>
    requires { IsPlace reader.old }
    ensures { IfOk result (λ fits. StepsStory known reader.old bytes.now fits reader.new) }
{
    match read_sized(alloc, bytes, reader.channels, reader.sizes)? {
        Some(read) => {
            if !fits_mission(known, &read.line, read.sizes) {
                return Ok(false);
            }
            reader.take(&read.line, read.sizes)
        }
        None => take_stop(alloc, reader, bytes),
    }
}

/// What a report tells, of a mission that is known or of any: all its lines, one after the other, from the first on.
pub fn read_report(
    alloc: Global,
    known: Option<RunSizes>,
    report: &[u8],
) -> Result<Reader, BadReport>
    requires { length report.now < 2 ^ 31 }
    ensures { TellsStory known report.now result }
{
    let mut reader = Reader::new(alloc);
    let mut rest = report;
    let mut lines = 0;
    while !rest.is_empty() {
        let (now, more) = rest.split_at(line_len(rest));
        if !take(alloc, known, &mut reader, now)? {
            return Err(BadReport::Line(lines + 1));
        }
        lines += 1;
        rest = more;
    }
    if reader.is_at_head() {
        return Err(BadReport::Line(lines + 1));
    }
    Ok(reader)
}
