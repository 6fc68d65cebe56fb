//! Where on the sheet things stand, and how high bars are.
ghost use Rattle.std.specs.Prelude.{◌≡◌, ◌≤◌, ◌<◌, ◌^◌, ℕ, List, map, IfOk};
ghost use Rattle.picture_svg.specs.Sheet.{axis_y, channel_y, cycle_width, cycle_x, highest, is_output, lane_y, measured, output_y, scale_of, scaled, scales_of, sheet_of, top_count, transfer_y, widened, with_mark, with_sheet_word, word_height};

use picture_marks::{Lane, Mark, Shown};
use std::alloc::{AllocError, Global};

/// The least and the greatest word of an output.
#[derive(Clone, Copy, Debug)]
pub struct Scale {
    pub low: i64,
    pub high: i64,
}

/// What a bar's height stands for, where it is a number that is not negative.
#[derive(Clone, Copy, Debug)]
pub enum Measure {
    Counts,
    Thresholds,
    Blocks,
}

/// The sizes of a picture.
#[derive(Clone, Copy)]
pub struct Sheet {
    pub channels: u8,
    pub outputs: u8,
    /// How wide a cycle is.
    pub width: u64,
    pub most_counted: u64,
    pub most_left: u64,
}

pub(crate) fn cycle_width(cycles: u32) -> u64
    ensures value { result ≡ cycle_width cycles }
    ensures some { 0 < result }
    ensures most { result ≤ 101600 }
{
    (101_600 / u64::from(cycles).max(1)).max(1)
}

/// Where a cycle begins.
pub(crate) fn cycle_x(width: u64, cycle: u64) -> u64
    requires width { width ≤ 101600 }
    requires cycle { cycle < 2 ^ 40 }
    ensures value { result ≡ cycle_x width cycle }
    ensures most { result < 2 ^ 60 }
{
    12_800 + cycle * width
}

pub(crate) fn channel_y(channel: u8) -> u64
    ensures value { result ≡ channel_y channel }
    ensures most { result ≤ 1200000 }
{
    8_600 + u64::from(channel) * 4_400
}

pub(crate) fn transfer_y(channels: u8) -> u64
    ensures value { result ≡ transfer_y channels }
    ensures most { result ≤ 1300000 }
{
    channel_y(channels) + 400
}

pub(crate) fn output_y(channels: u8, place: u8) -> u64
    ensures value { result ≡ output_y channels place }
    ensures most { result ≤ 2500000 }
{
    transfer_y(channels) + 4_400 + u64::from(place) * 4_000
}

pub(crate) fn axis_y(channels: u8, outputs: u8) -> u64
    ensures value { result ≡ axis_y channels outputs }
    ensures most { result ≤ 2600000 }
{
    output_y(channels, outputs) + 200
}

/// The upper edge of a lane's row.
pub(crate) fn lane_y(channels: u8, lane: Lane) -> u64
    ensures value { result ≡ lane_y channels lane }
    ensures most { result ≤ 2500000 }
{
    match lane {
        Lane::State { channel } => channel_y(channel),
        Lane::Judged { channel } => channel_y(channel),
        Lane::Count { channel } => channel_y(channel),
        Lane::Threshold { channel } => channel_y(channel),
        Lane::Removed { channel } => channel_y(channel),
        Lane::Joined { channel } => channel_y(channel),
        Lane::Dropped { channel } => channel_y(channel),
        Lane::Remaining => transfer_y(channels),
        Lane::Final => transfer_y(channels),
        Lane::Output { place } => output_y(channels, place),
    }
}

/// A value as a height, where the greatest one is as high as said.
pub(crate) fn scaled(value: u64, highest: u64, tall: u32) -> u64
    ensures value { result ≡ scaled value highest tall }
    ensures most { result ≤ tall }
{
    let tall = u128::from(tall);
    let share = u128::from(value) * tall / u128::from(highest).max(1);
    tall.min(share) as u64
}

fn measured(measure: Measure, shown: Shown) -> u64
    ensures { result ≡ measured measure shown }
{
    match (measure, shown) {
        (Measure::Counts, Shown::Count { count }) => u64::from(count),
        (Measure::Thresholds, Shown::Threshold { count }) => u64::from(count),
        (Measure::Blocks, Shown::Blocks { left }) => u64::from(left),
        (Measure::Blocks, Shown::Final { blocks }) => u64::from(blocks),
        _ => 0,
    }
}

/// The greatest value that some marks show.
fn highest(measure: Measure, marks: &[Mark]) -> u64
    ensures { result ≡ highest measure marks.now }
{
    let mut most = 0u64;
    for mark in marks {
        most = most.max(measured(measure, mark.shown));
    }
    most
}

/// What the highest bar of a count stands for.
fn top_count(counted: u64, threshold: u64) -> u64
    ensures { result ≡ top_count counted threshold }
{
    if u128::from(threshold) <= 4 * u128::from(counted) {
        counted.max(threshold)
    } else {
        counted
    }
}

fn widened(scale: Option<Scale>, word: i64) -> Scale
    ensures { result ≡ widened scale word }
{
    match scale {
        None => Scale {
            low: word,
            high: word,
        },
        Some(scale) => Scale {
            low: scale.low.min(word),
            high: scale.high.max(word),
        },
    }
}

fn with_word(scale: Option<Scale>, shown: Shown) -> Option<Scale>
    ensures { result ≡ with_sheet_word scale shown }
{
    match shown {
        Shown::Vote { word } => Some(widened(scale, word)),
        _ => scale,
    }
}

fn is_output(output: u8, lane: Lane) -> bool
    ensures { result ≡ is_output output lane }
{
    match lane {
        Lane::Output { place } => place == output,
        _ => false,
    }
}

fn with_mark(output: u8, scale: Option<Scale>, mark: Mark) -> Option<Scale>
    ensures { result ≡ with_mark output scale mark }
{
    if is_output(output, mark.lane) {
        with_word(scale, mark.shown)
    } else {
        scale
    }
}

/// The scale of an output.
fn scale_of(marks: &[Mark], output: u8) -> Option<Scale>
    ensures { result ≡ scale_of marks.now output }
{
    let mut scale = None;
    for mark in marks {
        scale = with_mark(output, scale, *mark);
    }
    scale
}

/// The height of a word's bar.
pub(crate) fn word_height(scale: Option<Scale>, word: i64) -> u64
    ensures value { result ≡ word_height scale word }
    ensures most { result ≤ 2600 }
{
    match scale {
        None => 0,
        Some(scale) => scaled(
            word.abs_diff(scale.low),
            scale.high.abs_diff(scale.low),
            2_600,
        ),
    }
}

/// The scales of the outputs.
pub(crate) fn scales(
    alloc: Global,
    outputs: u8,
    marks: &[Mark],
) -> Result<Vec<Option<Scale>>, AllocError>
    ensures { IfOk result (λ scales. scales.items ≡ scales_of outputs marks.now) }
{
    let mut scales = Vec::new(alloc);
    for output in 0..outputs {
        scales.push(scale_of(marks, output))?;
    }
    Ok(scales)
}

/// The sheet of a picture of so many channels, outputs and cycles with these marks.
pub(crate) fn sheet_of(channels: u8, outputs: u8, cycles: u32, marks: &[Mark]) -> Sheet
    ensures value { result ≡ sheet_of channels outputs cycles marks.now }
    ensures narrow { result.width ≤ 101600 }
{
    Sheet {
        channels,
        outputs,
        width: cycle_width(cycles),
        most_counted: top_count(
            highest(Measure::Counts, marks),
            highest(Measure::Thresholds, marks),
        ),
        most_left: highest(Measure::Blocks, marks),
    }
}
