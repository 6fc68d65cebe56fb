//! What a mark looks like, where it stands, and what it says.
ghost use Rattle.std.specs.Prelude.{◌≡◌, ◌≤◌, ◌++◌, ◌+◌, ◌==◌, List, get_or, flat_map, codes, string_bytes, None, IfOk};
ghost use Rattle.std.specs.Fmt.{decimal};
ghost use Rattle.picture_svg.specs.Drawing.{bar_corner, bar_side, class_of, foot_of, height_of, is_above, is_sign, mark_text, output_of, sign_corner, sign_cycle, subject_text, title_of, when_text, mark_words};

use crate::sheet::{Scale, Sheet, cycle_x, lane_y, scaled, word_height};
use picture_marks::{Lane, Mark, Shown};
use std::alloc::{AllocError, Global};
use svg_text::{Corner, Side, rect, sign};

fn class_of(shown: Shown) -> &'static str
    ensures { result.now ≡ class_of shown }
{
    match shown {
        Shown::Nothing => "none",
        Shown::Runs => "runs",
        Shown::Silent => "silent",
        Shown::Off => "off",
        Shown::Judged => "judged",
        Shown::Restored { .. } => "restored",
        Shown::Removed { .. } => "removed",
        Shown::Joined { .. } => "joined",
        Shown::Dropped { .. } => "dropped",
        Shown::Count { .. } => "count",
        Shown::Threshold { .. } => "limit",
        Shown::Blocks { .. } => "left",
        Shown::Final { .. } => "limit",
        Shown::Vote { .. } => "vote",
    }
}

fn channel_text(alloc: Global, channel: u8) -> Result<String, AllocError>
    ensures { IfOk result (λ text. string_bytes text ≡ codes "channel " ++ decimal channel) }
{
    format!(in alloc; "channel {channel}")
}

#[tactic(auto, unfolding(crate::specs::Drawing::subject_text))]
fn subject_text(alloc: Global, lane: Lane) -> Result<String, AllocError>
    ensures { IfOk result (λ text. string_bytes text ≡ subject_text lane) }
{
    match lane {
        Lane::State { channel } => channel_text(alloc, channel),
        Lane::Judged { channel } => channel_text(alloc, channel),
        Lane::Count { channel } => channel_text(alloc, channel),
        Lane::Threshold { channel } => channel_text(alloc, channel),
        Lane::Removed { channel } => channel_text(alloc, channel),
        Lane::Joined { channel } => channel_text(alloc, channel),
        Lane::Dropped { channel } => channel_text(alloc, channel),
        Lane::Remaining => String::from_str(alloc, "the transfer"),
        Lane::Final => String::from_str(alloc, "the transfer"),
        Lane::Output { place } => format!(in alloc; "output {place}"),
    }
}

#[tactic(auto, unfolding(crate::specs::Drawing::mark_words))]
fn words_of(alloc: Global, shown: Shown) -> Result<String, AllocError>
    ensures { IfOk result (λ text. string_bytes text ≡ mark_words shown) }
{
    match shown {
        Shown::Nothing => String::from_str(alloc, "shows nothing"),
        Shown::Runs => String::from_str(alloc, "runs"),
        Shown::Silent => String::from_str(alloc, "is active and has no line"),
        Shown::Off => String::from_str(alloc, "is switched off"),
        Shown::Judged => String::from_str(alloc, "is judged errant"),
        Shown::Restored { start } => { format!(in alloc; "is being restored since cycle {start}") }
        Shown::Removed { cycle } => format!(in alloc; "is removed at the end of cycle {cycle}"),
        Shown::Joined { cycle } => { format!(in alloc; "joins at the end of cycle {cycle}") }
        Shown::Dropped { cycle } => {
            format!(in alloc; "is dropped from the transfer before cycle {cycle}")
        }
        Shown::Count { count } => format!(in alloc; "has a count of {count}/65536"),
        Shown::Threshold { count } => { format!(in alloc; "has a threshold of {count}/65536") }
        Shown::Blocks { left } => format!(in alloc; "has {left} blocks left"),
        Shown::Final { blocks } => {
            format!(in alloc; "has room for {blocks} blocks in a final frame")
        }
        Shown::Vote { word } => format!(in alloc; "is {word}"),
    }
}

/// Whether a span is of one cycle.
fn is_one(first: u32, past: u32) -> bool
    ensures { result ≡ (past == first + 1) }
{
    u64::from(past) == u64::from(first) + 1
}

fn span_words(alloc: Global, first: u32, last: u32) -> Result<String, AllocError>
    ensures { IfOk result (λ text. string_bytes text
        ≡ codes "cycles " ++ decimal first ++ codes " to " ++ decimal last) }
{
    format!(in alloc; "cycles {first} to {last}")
}

#[tactic(auto, unfolding(crate::specs::Drawing::when_text))]
fn when_text(alloc: Global, first: u32, past: u32) -> Result<String, AllocError>
    ensures { IfOk result (λ text. string_bytes text ≡ when_text first past) }
{
    if is_one(first, past) {
        return format!(in alloc; "cycle {first}");
    }
    span_words(alloc, first, past.saturating_sub(1))
}

/// What a mark says.
fn title_of(alloc: Global, mark: Mark) -> Result<String, AllocError>
    ensures { IfOk result (λ text. string_bytes text ≡ title_of mark) }
{
    let subject = subject_text(alloc, mark.lane)?;
    let words = words_of(alloc, mark.shown)?;
    let when = when_text(alloc, mark.first, mark.past)?;
    format!(in alloc; "{subject} {words}, {when}")
}

/// The lower edge of a mark in its row. A limit stands across its row, as high as a bar of its number is.
fn foot_of(sheet: Sheet, shown: Shown) -> u64
    ensures value { result ≡ foot_of sheet shown }
    ensures most { result ≤ 3550 }
{
    match shown {
        Shown::Nothing => 0,
        Shown::Runs => 1_500,
        Shown::Silent => 1_500,
        Shown::Off => 850,
        Shown::Judged => 1_500,
        Shown::Restored { .. } => 1_500,
        Shown::Removed { .. } => 750,
        Shown::Joined { .. } => 750,
        Shown::Dropped { .. } => 750,
        Shown::Count { .. } => 3_500,
        Shown::Threshold { count } => {
            3_550 - scaled(u64::from(count), sheet.most_counted, 1_600)
        }
        Shown::Blocks { .. } => 3_200,
        Shown::Final { blocks } => 3_250 - scaled(u64::from(blocks), sheet.most_left, 3_000),
        Shown::Vote { .. } => 3_000,
    }
}

fn output_of(lane: Lane) -> u8
    ensures { result ≡ output_of lane }
{
    match lane {
        Lane::Output { place } => place,
        _ => 0,
    }
}

pub(crate) fn scale_at(scales: &[Option<Scale>], place: u8) -> Option<Scale>
    ensures { result ≡ get_or scales.now place None }
{
    let place = usize::from(place);
    if place < scales.len() {
        scales[place]
    } else {
        None
    }
}

fn height_of(sheet: Sheet, scales: &[Option<Scale>], lane: Lane, shown: Shown) -> u64
    ensures value { result ≡ height_of sheet scales.now lane shown }
    ensures most { result ≤ 3000 }
{
    match shown {
        Shown::Nothing => 0,
        Shown::Runs => 1_500,
        Shown::Silent => 1_500,
        Shown::Off => 200,
        Shown::Judged => 400,
        Shown::Restored { .. } => 1_500,
        Shown::Removed { .. } => 0,
        Shown::Joined { .. } => 0,
        Shown::Dropped { .. } => 0,
        Shown::Count { count } => scaled(u64::from(count), sheet.most_counted, 1_600),
        Shown::Threshold { .. } => 100,
        Shown::Blocks { left } => scaled(u64::from(left), sheet.most_left, 3_000),
        Shown::Final { .. } => 100,
        Shown::Vote { word } => word_height(scale_at(scales, output_of(lane)), word) + 200,
    }
}

/// Whether a mark is a sign, and no bar.
fn is_sign(shown: Shown) -> bool
    ensures { result ≡ is_sign shown }
{
    matches!(
        shown,
        Shown::Removed { .. } | Shown::Joined { .. } | Shown::Dropped { .. }
    )
}

/// Whether a mark is a threshold above the highest bar.
fn is_above(sheet: Sheet, shown: Shown) -> bool
    ensures { result ≡ is_above sheet shown }
{
    match shown {
        Shown::Threshold { count } => sheet.most_counted < u64::from(count),
        _ => false,
    }
}

/// The cycle where a sign stands: it stands where the cycle begins.
fn sign_cycle(shown: Shown, mark: Mark) -> u32
    ensures { result ≡ sign_cycle shown mark }
{
    match shown {
        Shown::Dropped { .. } => mark.first,
        _ => mark.past,
    }
}

fn sign_corner(sheet: Sheet, mark: Mark) -> Corner
    requires { sheet.width ≤ 101600 }
    ensures { result ≡ sign_corner sheet mark }
{
    Corner {
        x: cycle_x(sheet.width, u64::from(sign_cycle(mark.shown, mark))),
        y: lane_y(sheet.channels, mark.lane) + foot_of(sheet, mark.shown),
    }
}

fn bar_corner(sheet: Sheet, scales: &[Option<Scale>], mark: Mark) -> Corner
    requires { sheet.width ≤ 101600 }
    ensures { result ≡ bar_corner sheet scales.now mark }
{
    let height = height_of(sheet, scales, mark.lane, mark.shown);
    let top = foot_of(sheet, mark.shown).saturating_sub(height);
    Corner {
        x: cycle_x(sheet.width, u64::from(mark.first)),
        y: lane_y(sheet.channels, mark.lane) + top,
    }
}

fn bar_side(sheet: Sheet, scales: &[Option<Scale>], mark: Mark) -> Side
    requires { sheet.width ≤ 101600 }
    ensures { result ≡ bar_side sheet scales.now mark }
{
    let cycles = u64::from(mark.past.saturating_sub(mark.first));
    Side {
        width: cycles * sheet.width,
        height: height_of(sheet, scales, mark.lane, mark.shown),
    }
}

/// The text of a mark.
#[tactic(auto, unfolding(crate::specs::Drawing::mark_text))]
fn mark_text(
    alloc: Global,
    sheet: Sheet,
    scales: &[Option<Scale>],
    mark: Mark,
) -> Result<String, AllocError>
    requires { sheet.width ≤ 101600 }
    ensures { IfOk result (λ text. string_bytes text ≡ mark_text sheet scales.now mark) }
{
    let class = class_of(mark.shown);
    let title = title_of(alloc, mark)?;
    if is_sign(mark.shown) {
        return sign(alloc, class, sign_corner(sheet, mark), &title);
    }
    if is_above(sheet, mark.shown) {
        return Ok(String::new(alloc));
    }
    let corner = bar_corner(sheet, scales, mark);
    rect(alloc, class, corner, bar_side(sheet, scales, mark), &title)
}

/// The texts of all marks, one after the other.
pub(crate) fn marks_text(
    alloc: Global,
    sheet: Sheet,
    scales: &[Option<Scale>],
    marks: &[Mark],
) -> Result<String, AllocError>
    requires { sheet.width ≤ 101600 }
    ensures { IfOk result (λ text. string_bytes text ≡ flat_map (mark_text sheet scales.now) marks.now) }
{
    let mut text = String::new(alloc);
    for mark in marks {
        text.push_str(&mark_text(alloc, sheet, scales, *mark)?)?;
    }
    Ok(text)
}
