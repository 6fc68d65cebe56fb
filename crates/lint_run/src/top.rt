//! The top call: all that the program does.
ghost use Rattle.std.specs.Prelude.{◌≡◌, ℕ, Bool, List, IfOk};
ghost use Rattle.guards_io.specs.Views.{SinkView};
ghost use Rattle.guards_io.specs.Writes.{Writes};
ghost use Rattle.lint_run.specs.Outcomes.{LintCompletes, LintOutcome, LintsBytes, LintsMission, RefusesWith, TellsLines, lint_usage, told_lines};

use crate::status::LintStatus;
use document_lint::push_document_lines;
use guards_base::Words;
use guards_io::{Sink, Source, WriteStop, put, put_line};
use lint_lines::{Lines, lines_text, warn};
use mission_check::{Status, read_bytes, take_bytes};
use mission_lint::find_lines;
use mission_type::Mission;
use std::alloc::{AllocError, Global};

/// The line of wrong words.
#[tactic(auto, unfolding(crate::specs::Outcomes::lint_usage))]
fn usage_line() -> &'static str
    ensures { result.now ≡ lint_usage }
{
    "usage: guards_lint\n"
}

/// The status of lines that were written, some of which warn or none.
fn told(written: Result<(), WriteStop>, warned: bool) -> LintStatus
    ensures { (text : List ℕ) (old new : SinkView) → Writes old new text written →
        TellsLines text warned old new result }
{
    match written {
        Ok(()) => match warned {
            true => LintStatus::Warned,
            false => LintStatus::Clean,
        },
        Err(WriteStop::Failed) => LintStatus::Stopped(Status::WriteFault),
        Err(WriteStop::Memory) => LintStatus::Stopped(Status::NoMemory),
    }
}

/// The lines on a mission, and those on the document that its bytes are.
fn all_lines(alloc: Global, bytes: &[u8], mission: &Mission) -> Result<Lines, AllocError>
    ensures { IfOk result (λ lines. lines.items ≡ told_lines bytes.now mission.now) }
{
    let mut lines = find_lines(alloc, mission)?;
    push_document_lines(alloc, bytes, &mut lines)?;
    Ok(lines)
}

/// Writes the lines on a mission and its bytes.
#[tactic(auto, using(guards_io::proofs::WritesLemmas::nothing_written))]
fn tell<K: Sink>(alloc: Global, bytes: &[u8], mission: &Mission, out: &mut K) -> LintStatus
    ensures { LintsMission bytes.now mission.now (K.seen out.old)
        (K.seen out.new) result }
{
    let Ok(lines) = all_lines(alloc, bytes, mission) else {
        return LintStatus::Stopped(Status::NoMemory);
    };
    let Ok(text) = lines_text(alloc, lines.as_slice()) else {
        return LintStatus::Stopped(Status::NoMemory);
    };
    let written = put(out, text.as_str());
    told(written, warn(lines.as_slice()))
}

/// Reads a mission, and writes the lines on it.
fn read_and_tell<S: Source, K: Sink>(alloc: Global, src: &mut S, out: &mut K) -> LintStatus
    ensures { LintsBytes
        (S.seen src.old)
        (S.seen src.new)
        (K.seen out.old)
        (K.seen out.new) result }
{
    let taken = match take_bytes(alloc, src, out) {
        Ok(bytes) => bytes,
        Err(status) => return LintStatus::Stopped(status),
    };
    let bytes = taken.as_slice();
    match read_bytes(alloc, bytes, out) {
        Ok(mission) => tell(alloc, bytes, &mission, out),
        Err(status) => LintStatus::Stopped(status),
    }
}

fn carry_out<S: Source, K: Sink>(
    alloc: Global,
    words: &Words,
    src: &mut S,
    out: &mut K,
) -> LintStatus
    ensures { LintOutcome words.now.items
        (S.seen src.old)
        (S.seen src.new)
        (K.seen out.old)
        (K.seen out.new) result }
{
    if words.len() == 0 {
        read_and_tell(alloc, src, out)
    } else {
        put_line(out, usage_line());
        LintStatus::Stopped(Status::Usage)
    }
}

/// Does all that the program does: without words it reads a mission, and writes a line for each thing that its
/// definition tells of it. The status says whether one of them warns.
pub fn lint<S: Source, K: Sink>(
    alloc: Global,
    words: &Words,
    src: &mut S,
    out: &mut K,
) -> LintStatus
    ensures outcome { LintOutcome words.now.items
        (S.seen src.old)
        (S.seen src.new)
        (K.seen out.old)
        (K.seen out.new) result }
    ensures completes { LintCompletes words.now.items
        (S.seen src.old)
        (S.seen src.new)
        (K.seen out.old)
        (K.seen out.new) result }
{
    carry_out(alloc, words, src, out)
}
