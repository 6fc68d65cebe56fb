//! Reads a report, with its mission before it or without, and writes its picture.
ghost use Rattle.std.specs.Prelude.{◌≡◌, ◌≤◌, ℕ, List, length, Option, Err};
ghost use Rattle.picture_marks.specs.declared.facts.Limits.{Limits};
ghost use Rattle.report_story.specs.declared.reader.RunSizes.{RunSizes};
ghost use Rattle.report_story.specs.Answers.{IsPlace};
ghost use Rattle.report_story.specs.Places.{story_of};
ghost use Rattle.run_audit.specs.Marks.{mission_bytes};
ghost use Rattle.mission_check.specs.Reading.{Tells};
ghost use Rattle.picture_run.specs.declared.status.TheConstants.{MAX_INPUT_BYTES};
ghost use Rattle.picture_run.specs.Drawing.{Answers, CompletesPicture, Draws, DrawsReport, DrawsStream, Pictures, has_mark, limits_of, outputs_of_sizes, picture_of, run_sizes};

use crate::lines::{bad_line, long_report_line, usage_line};
use crate::status::{MAX_INPUT_BYTES, PictureStatus};
use guards_base::Words;
use guards_io::{ReadStop, Sink, Source, put, put_line, read_all};
use mission_check::{
    MAX_MISSION_BYTES, Status, long_line, read_line, refuse_mission, status_of_write,
};
use mission_text::read;
use mission_type::Mission;
use picture_marks::Limits;
use picture_svg::picture_text;
use report_story::{BadReport, Reader, RunSizes, read_report};
use run_audit::{Sizes, split_run};
use std::alloc::Global;

fn outputs_of(sizes: Option<Sizes>) -> u8
    ensures { result ≡ outputs_of_sizes sizes }
{
    match sizes {
        Some(sizes) => sizes.outputs,
        None => 0,
    }
}

/// Writes the picture of what a report told.
fn draw<K: Sink>(alloc: Global, limits: Option<Limits>, story: &Reader, out: &mut K) -> Status
    requires { IsPlace story.now }
    ensures { Tells (picture_of limits story.now) (K.seen out.old) (K.seen out.new) result }
{
    let told = story.told.as_slice();
    let outputs = outputs_of(story.sizes);
    match picture_text(
        alloc,
        limits,
        story.channels,
        outputs,
        story.cycles,
        told,
        &story.ending,
    ) {
        Ok(text) => status_of_write(put(out, &text)),
        Err(_) => Status::NoMemory,
    }
}

/// Writes the line of a report that is none.
fn refuse<K: Sink>(alloc: Global, line: u32, out: &mut K) -> PictureStatus
    ensures { (limits : Option Limits) (known : Option RunSizes) (report : List ℕ) →
        story_of known report ≡ Err line →
        DrawsReport limits known report (K.seen out.old) (K.seen out.new) result }
{
    match bad_line(alloc, line) {
        Ok(text) => {
            put_line(out, &text);
            PictureStatus::BadReport(line)
        }
        Err(_) => PictureStatus::Ended(Status::NoMemory),
    }
}

/// Draws a report, of a mission that is known or of any.
fn draw_report<K: Sink>(
    alloc: Global,
    limits: Option<Limits>,
    known: Option<RunSizes>,
    report: &[u8],
    out: &mut K,
) -> PictureStatus
    requires { length report.now ≤ MAX_INPUT_BYTES }
    ensures { DrawsReport limits known report.now (K.seen out.old) (K.seen out.new) result }
{
    match read_report(alloc, known, report) {
        Ok(story) => PictureStatus::Ended(draw(alloc, limits, &story, out)),
        Err(BadReport::Line(line)) => refuse(alloc, line, out),
        Err(BadReport::Memory) => PictureStatus::Ended(Status::NoMemory),
    }
}

fn limits_of(mission: &Mission) -> Limits
    ensures { result ≡ limits_of mission.now }
{
    let rules = mission.rules();
    Limits {
        threshold: rules.threshold,
        last: rules.last,
    }
}

fn run_sizes(mission: &Mission) -> RunSizes
    ensures { result ≡ run_sizes mission.now }
{
    mission.prove_sizes();
    RunSizes {
        cycles: mission.cycles(),
        sizes: Sizes {
            channels: mission.rules().channels,
            width: mission.width(),
            outputs: mission.outputs().len() as u8,
        },
    }
}

/// Draws a report that comes after its mission.
fn draw_stream<K: Sink>(alloc: Global, mission: &[u8], report: &[u8], out: &mut K) -> PictureStatus
    requires { length report.now ≤ MAX_INPUT_BYTES }
    ensures { DrawsStream mission.now report.now (K.seen out.old) (K.seen out.new) result }
{
    if mission.len() > MAX_MISSION_BYTES {
        put_line(out, long_line());
        return PictureStatus::Ended(Status::TooLong);
    }
    match read(alloc, mission) {
        Ok(mission) => {
            let limits = limits_of(&mission);
            let known = run_sizes(&mission);
            draw_report(alloc, Some(limits), Some(known), report, out)
        }
        Err(fault) => PictureStatus::Ended(refuse_mission(alloc, out, fault)),
    }
}

/// Whether some line of an input is the mark after its mission.
fn has_mark(input: &[u8], mission: &[u8]) -> bool
    requires { mission.now ≡ mission_bytes input.now }
    ensures { result ≡ has_mark input.now }
{
    mission.len() < input.len()
}

/// Draws the report of an input, with its mission where that stands before it.
fn draw_input<K: Sink>(alloc: Global, input: &[u8], out: &mut K) -> PictureStatus
    requires { length input.now ≤ MAX_INPUT_BYTES }
    ensures { Draws input.now (K.seen out.old) (K.seen out.new) result }
{
    let (mission, report) = split_run(input);
    if has_mark(input, mission) {
        draw_stream(alloc, mission, report, out)
    } else {
        draw_report(alloc, None, None, input, out)
    }
}

fn draw_source<S: Source, K: Sink>(alloc: Global, src: &mut S, out: &mut K) -> PictureStatus
    ensures { Pictures (S.seen src.old) (S.seen src.new) (K.seen out.old) (K.seen out.new) result }
{
    match read_all(alloc, src, MAX_INPUT_BYTES) {
        Ok(bytes) => draw_input(alloc, bytes.as_slice(), out),
        Err(ReadStop::Failed) => {
            put_line(out, read_line());
            PictureStatus::Ended(Status::ReadFault)
        }
        Err(ReadStop::TooLong) => {
            put_line(out, long_report_line());
            PictureStatus::Ended(Status::TooLong)
        }
        Err(ReadStop::Memory) => PictureStatus::Ended(Status::NoMemory),
    }
}

fn answer<S: Source, K: Sink>(
    alloc: Global,
    words: &Words,
    src: &mut S,
    out: &mut K,
) -> PictureStatus
    ensures { Answers (length words.now.items)
        (S.seen src.old) (S.seen src.new) (K.seen out.old) (K.seen out.new) result }
{
    if words.len() > 0 {
        put_line(out, usage_line());
        return PictureStatus::Ended(Status::Usage);
    }
    draw_source(alloc, src, out)
}

/// Reads a report, or a mission, the line `--- trace` and its report, and writes the report's picture as SVG: with the
/// mission the counts are held against the threshold, and what remains of a transfer against the final frame. It takes
/// no words.
pub fn picture<S: Source, K: Sink>(
    alloc: Global,
    words: &Words,
    src: &mut S,
    out: &mut K,
) -> PictureStatus
    ensures outcome { Answers (length words.now.items)
        (S.seen src.old) (S.seen src.new) (K.seen out.old) (K.seen out.new) result }
    ensures completes { CompletesPicture (length words.now.items)
        (S.seen src.old) (S.seen src.new) (K.seen out.old) (K.seen out.new) result }
{
    answer(alloc, words, src, out)
}
