//! The whole picture, part by part.
ghost use Rattle.std.specs.Prelude.{◌≡◌, ◌≤◌, ◌<◌, ◌^◌, ◌++◌, ◌+◌, List, [], if◌then◌else◌, get_or, length, flat_map, codes, string_bytes, IfOk};
ghost use Rattle.std.specs.Fmt.{decimal, signed_decimal};
ghost use Rattle.guards_model.specs.Channels.{ChannelSet, numbers_below};
ghost use Rattle.guards_model.specs.Slots.{slot_text};
ghost use Rattle.picture_marks.specs.Marks.{marks_of};
ghost use Rattle.picture_svg.specs.Picture.{channel_name, disturbed_text, end_class, end_words, foot_text, front_text, head_words, limits_text, limits_words, names_text, output_name, plot_text, range_text, sheet_text, stop_mark_text, stop_words, stopped_text, style_text, svg_of, tick_step, tick_text, ticks_text, transfer_name, void_text};

use crate::drawing::{marks_text, scale_at};
use crate::looks::{
    dark_style, ends_legend, ground_style, mark_style, signs_legend, signs_text, states_legend,
};
use crate::sheet::{
    Scale, Sheet, axis_y, channel_y, cycle_x, output_y, scales, sheet_of, transfer_y,
};
use guards_base::{Chan, ChanSet, Slot};
use picture_marks::{CycleFacts, End, Limits, Mark, marks};
use std::alloc::{AllocError, Global};
use svg_text::{Corner, Side, close, label, line, open, rect};

/// The upper edge of the plot.
const TOP: u64 = 7_800;

fn head_words(alloc: Global, channels: u8, cycles: u32) -> Result<String, AllocError>
    ensures { IfOk result (λ text. string_bytes text ≡ head_words channels cycles) }
{
    format!(in alloc; "guards: {channels} channels, {cycles} cycles")
}

fn slot_text(slot: Slot) -> &'static str
    ensures { result.now ≡ slot_text slot }
{
    match slot {
        Slot::Request => "request",
        Slot::Round1 => "round1",
        Slot::Round2 => "round2",
        Slot::Round3 => "round3",
        Slot::Tasks => "tasks",
        Slot::Vote => "vote",
        Slot::Sweep => "sweep",
        Slot::Final => "final",
        Slot::Switch => "switch",
        Slot::Output => "output",
    }
}

fn stop_words(
    alloc: Global,
    cycle: u32,
    slot: Slot,
    set: ChanSet,
    active: ChanSet,
) -> Result<String, AllocError>
    ensures { IfOk result (λ text. string_bytes text ≡ stop_words cycle slot set active) }
{
    let slot = slot_text(slot);
    let hurt = set.count();
    let all = active.count();
    format!(in alloc; "stopped in cycle {cycle}, slot {slot}: {hurt} of {all} disturbed")
}

#[tactic(auto, unfolding(crate::specs::Picture::end_words))]
fn end_words(alloc: Global, whole: u64, end: &End) -> Result<String, AllocError>
    ensures { IfOk result (λ text. string_bytes text ≡ end_words whole end.now) }
{
    match end {
        End::Done => String::from_str(alloc, "ran to its end"),
        End::Stop {
            cycle,
            slot,
            set,
            active,
        } => stop_words(alloc, *cycle, *slot, *set, *active),
        End::Cut => format!(in alloc; "the report breaks off after {whole} cycles"),
    }
}

fn end_class(end: &End) -> &'static str
    ensures { result.now ≡ end_class end.now }
{
    match end {
        End::Done => "said",
        End::Stop { .. } => "alarm",
        End::Cut => "alarm",
    }
}

/// What is said where the threshold is higher than the highest bar of a count.
fn above_words(is_above: bool) -> &'static str
    ensures { result.now ≡ (if is_above then codes " (above the bars)" else []) }
{
    match is_above {
        true => " (above the bars)",
        false => "",
    }
}

fn limits_words(alloc: Global, limits: Limits, most: u64) -> Result<String, AllocError>
    ensures { IfOk result (λ text. string_bytes text ≡ limits_words limits most) }
{
    let threshold = limits.threshold;
    let above = above_words(most < u64::from(threshold));
    let last = limits.last;
    format!(in alloc; "threshold {threshold}/65536{above}, final frame {last} blocks")
}

/// The limits of the mission, where that is known.
#[tactic(auto, unfolding(crate::specs::Picture::limits_text))]
fn limits_text(alloc: Global, limits: Option<Limits>, most: u64) -> Result<String, AllocError>
    ensures { IfOk result (λ text. string_bytes text ≡ limits_text limits most) }
{
    match limits {
        None => Ok(String::new(alloc)),
        Some(limits) => {
            let words = limits_words(alloc, limits, most)?;
            label(
                alloc,
                "said",
                Corner {
                    x: 60_000,
                    y: 5_400,
                },
                &words,
            )
        }
    }
}

fn style_text(alloc: Global) -> Result<String, AllocError>
    ensures { IfOk result (λ text. string_bytes text ≡ style_text) }
{
    let ground = ground_style();
    let marks = mark_style();
    let dark = dark_style();
    let signs = signs_text();
    format!(in alloc; "{ground}{marks}{dark}{signs}")
}

/// The beginning, the ground and the words above the plot.
fn front_text(
    alloc: Global,
    limits: Option<Limits>,
    sheet: Sheet,
    cycles: u32,
    whole: u64,
    end: &End,
) -> Result<String, AllocError>
    ensures { IfOk result (λ text. string_bytes text ≡ front_text limits sheet cycles whole end.now) }
{
    let axis = axis_y(sheet.channels, sheet.outputs);
    let head = head_words(alloc, sheet.channels, cycles)?;
    let said = end_words(alloc, whole, end)?;
    let words = format!(in alloc; "{head}; {said}")?;
    let all = Side {
        width: 120_000,
        height: axis + 9_200,
    };
    let card = Side {
        width: 119_900,
        height: axis + 9_100,
    };
    let open = open(alloc, all, 1_200, &words)?;
    let style = style_text(alloc)?;
    let card = rect(alloc, "card", Corner { x: 50, y: 50 }, card, &head)?;
    let title = label(alloc, "head", Corner { x: 2_000, y: 3_200 }, &head)?;
    let end = label(alloc, end_class(end), Corner { x: 2_000, y: 5_400 }, &said)?;
    let limits = limits_text(alloc, limits, sheet.most_counted)?;
    format!(in alloc; "{open}{style}{card}{title}{end}{limits}")
}

fn tick_step(cycles: u32) -> u32
    ensures value { result ≡ tick_step cycles }
    ensures some { 0 < result }
    ensures most { result ≤ 100 }
{
    if cycles <= 26 {
        1
    } else if cycles <= 130 {
        5
    } else if cycles <= 520 {
        20
    } else {
        100
    }
}

/// A cycle's number under the axis, and a line from there up.
fn tick_text(alloc: Global, width: u64, axis: u64, cycle: u64) -> Result<String, AllocError>
    requires width { width ≤ 101600 }
    requires axis { axis ≤ 2600000 }
    requires cycle { cycle < 2 ^ 40 }
    ensures { IfOk result (λ text. string_bytes text ≡ tick_text width axis cycle) }
{
    let x = cycle_x(width, cycle);
    let number = format!(in alloc; "{cycle}")?;
    let grid = line(alloc, "grid", Corner { x, y: TOP }, Corner { x, y: axis })?;
    let middle = Corner {
        x: x + width / 2,
        y: axis + 1_500,
    };
    let tick = label(alloc, "tick", middle, &number)?;
    format!(in alloc; "{grid}{tick}")
}

fn ticks_text(alloc: Global, cycles: u32, width: u64, axis: u64) -> Result<String, AllocError>
    requires width { width ≤ 101600 }
    requires axis { axis ≤ 2600000 }
    ensures { IfOk result (λ text. string_bytes text ≡ ticks_text cycles width axis) }
{
    let every = u64::from(tick_step(cycles));
    let count = u64::from(cycles.saturating_sub(1)) / every + 1;
    let mut text = String::new(alloc);
    for number in 0..count {
        text.push_str(&tick_text(alloc, width, axis, number * every)?)?;
    }
    Ok(text)
}

/// The cycles that the report does not tell.
#[tactic(auto, unfolding(crate::specs::Picture::void_text))]
fn void_text(
    alloc: Global,
    cycles: u32,
    whole: u64,
    width: u64,
    axis: u64,
) -> Result<String, AllocError>
    requires { width ≤ 101600 }
    ensures { IfOk result (λ text. string_bytes text ≡ void_text cycles whole width axis) }
{
    let cycles = u64::from(cycles);
    if whole >= cycles {
        return Ok(String::new(alloc));
    }
    let corner = Corner {
        x: cycle_x(width, whole),
        y: TOP,
    };
    let side = Side {
        width: (cycles - whole) * width,
        height: axis.saturating_sub(TOP),
    };
    rect(alloc, "void", corner, side, "not in the report")
}

fn channel_name(alloc: Global, channel: u8) -> Result<String, AllocError>
    ensures { IfOk result (λ text. string_bytes text ≡ channel_name channel) }
{
    let y = channel_y(channel) + 1_150;
    let words = format!(in alloc; "channel {channel}")?;
    label(alloc, "name", Corner { x: 2_000, y }, &words)
}

fn transfer_name(alloc: Global, sheet: Sheet) -> Result<String, AllocError>
    ensures { IfOk result (λ text. string_bytes text ≡ transfer_name sheet) }
{
    let y = transfer_y(sheet.channels);
    let most = sheet.most_left;
    let words = format!(in alloc; "up to {most}")?;
    let upper = Corner {
        x: 2_000,
        y: y + 1_300,
    };
    let lower = Corner {
        x: 2_000,
        y: y + 2_700,
    };
    let name = label(alloc, "name", upper, "blocks left")?;
    let range = label(alloc, "small", lower, &words)?;
    format!(in alloc; "{name}{range}")
}

fn word_text(alloc: Global, word: i64) -> Result<String, AllocError>
    ensures { IfOk result (λ text. string_bytes text ≡ signed_decimal word) }
{
    format!(in alloc; "{word}")
}

fn range_words(alloc: Global, low: i64, high: i64) -> Result<String, AllocError>
    ensures { IfOk result (λ text. string_bytes text ≡ signed_decimal low ++ codes " to " ++ signed_decimal high) }
{
    let low = word_text(alloc, low)?;
    let high = word_text(alloc, high)?;
    format!(in alloc; "{low} to {high}")
}

#[tactic(auto, unfolding(crate::specs::Picture::range_text))]
fn range_text(alloc: Global, scale: Option<Scale>) -> Result<String, AllocError>
    ensures { IfOk result (λ text. string_bytes text ≡ range_text scale) }
{
    match scale {
        None => String::from_str(alloc, "no word"),
        Some(scale) => range_words(alloc, scale.low, scale.high),
    }
}

fn output_name(
    alloc: Global,
    channels: u8,
    scales: &[Option<Scale>],
    place: u8,
) -> Result<String, AllocError>
    ensures { IfOk result (λ text. string_bytes text ≡ output_name channels scales.now place) }
{
    let y = output_y(channels, place);
    let words = format!(in alloc; "output {place}")?;
    let range = range_text(alloc, scale_at(scales, place))?;
    let upper = Corner {
        x: 2_000,
        y: y + 1_300,
    };
    let lower = Corner {
        x: 2_000,
        y: y + 2_700,
    };
    let name = label(alloc, "name", upper, &words)?;
    let range = label(alloc, "small", lower, &range)?;
    format!(in alloc; "{name}{range}")
}

fn channel_names(alloc: Global, channels: u8) -> Result<String, AllocError>
    ensures { IfOk result (λ text. string_bytes text ≡ flat_map channel_name (numbers_below channels)) }
{
    let mut text = String::new(alloc);
    for channel in 0..channels {
        text.push_str(&channel_name(alloc, channel)?)?;
    }
    Ok(text)
}

fn output_names(
    alloc: Global,
    channels: u8,
    outputs: u8,
    scales: &[Option<Scale>],
) -> Result<String, AllocError>
    ensures { IfOk result (λ text. string_bytes text
        ≡ flat_map (output_name channels scales.now) (numbers_below outputs)) }
{
    let mut text = String::new(alloc);
    for place in 0..outputs {
        text.push_str(&output_name(alloc, channels, scales, place)?)?;
    }
    Ok(text)
}

fn names_text(alloc: Global, sheet: Sheet, scales: &[Option<Scale>]) -> Result<String, AllocError>
    ensures { IfOk result (λ text. string_bytes text ≡ names_text sheet scales.now) }
{
    let channels = channel_names(alloc, sheet.channels)?;
    let transfer = transfer_name(alloc, sheet)?;
    let outputs = output_names(alloc, sheet.channels, sheet.outputs, scales)?;
    format!(in alloc; "{channels}{transfer}{outputs}")
}

/// The lines of the plot and the names of its rows.
fn plot_text(
    alloc: Global,
    cycles: u32,
    whole: u64,
    sheet: Sheet,
    scales: &[Option<Scale>],
) -> Result<String, AllocError>
    requires { sheet.width ≤ 101600 }
    ensures { IfOk result (λ text. string_bytes text ≡ plot_text cycles whole sheet scales.now) }
{
    let width = sheet.width;
    let axis = axis_y(sheet.channels, sheet.outputs);
    let from = Corner { x: 12_800, y: axis };
    let to = Corner {
        x: cycle_x(width, u64::from(cycles)),
        y: axis,
    };
    let under = Corner {
        x: 2_000,
        y: axis + 1_500,
    };
    let ticks = ticks_text(alloc, cycles, width, axis)?;
    let void = void_text(alloc, cycles, whole, width, axis)?;
    let axis = line(alloc, "axis", from, to)?;
    let unit = label(alloc, "small", under, "cycle")?;
    let names = names_text(alloc, sheet, scales)?;
    format!(in alloc; "{ticks}{void}{axis}{unit}{names}")
}

/// A channel that was disturbed at the stop, in the cycle that it cut short.
#[tactic(auto, unfolding(crate::specs::Picture::disturbed_text))]
fn disturbed_text(alloc: Global, x: u64, set: ChanSet, channel: Chan) -> Result<String, AllocError>
    requires { x < 2 ^ 60 }
    ensures { IfOk result (λ text. string_bytes text ≡ disturbed_text x set channel) }
{
    if !set.has(channel) {
        return Ok(String::new(alloc));
    }
    let number = channel.index();
    let words = format!(in alloc; "channel {number} is disturbed at the stop")?;
    let corner = Corner {
        x: x + 400,
        y: channel_y(number) + 150,
    };
    let width = 1_200;
    let height = 1_200;
    rect(alloc, "disturbed", corner, Side { width, height }, &words)
}

fn all_disturbed(alloc: Global, channels: u8, x: u64, set: ChanSet) -> Result<String, AllocError>
    requires channels { channels ≤ 7 }
    requires x { x < 2 ^ 60 }
    ensures { IfOk result (λ text. string_bytes text ≡ flat_map (disturbed_text x set) (numbers_below channels)) }
{
    let mut text = String::new(alloc);
    for number in 0..channels {
        let Some(channel) = Chan::new(number) else {
            return Ok(text);
        };
        text.push_str(&disturbed_text(alloc, x, set, channel)?)?;
    }
    Ok(text)
}

/// The stop, where the report ends with one.
#[tactic(auto, unfolding(crate::specs::Picture::stop_mark_text))]
fn stop_text(alloc: Global, sheet: Sheet, end: &End) -> Result<String, AllocError>
    requires width { sheet.width ≤ 101600 }
    requires channels { sheet.channels ≤ 7 }
    ensures { IfOk result (λ text. string_bytes text ≡ stop_mark_text sheet end.now) }
{
    match end {
        End::Stop { cycle, set, .. } => stopped_text(alloc, sheet, *cycle, *set),
        End::Done => Ok(String::new(alloc)),
        End::Cut => Ok(String::new(alloc)),
    }
}

fn stopped_text(alloc: Global, sheet: Sheet, cycle: u32, set: ChanSet) -> Result<String, AllocError>
    requires width { sheet.width ≤ 101600 }
    requires channels { sheet.channels ≤ 7 }
    ensures { IfOk result (λ text. string_bytes text ≡ stopped_text sheet cycle set) }
{
    let x = cycle_x(sheet.width, u64::from(cycle));
    let axis = axis_y(sheet.channels, sheet.outputs);
    let stop = line(alloc, "stop", Corner { x, y: TOP }, Corner { x, y: axis })?;
    let squares = all_disturbed(alloc, sheet.channels, x, set)?;
    format!(in alloc; "{stop}{squares}")
}

/// The legend, below the plot, and the end.
fn foot_text(alloc: Global, axis: u64) -> Result<String, AllocError>
    requires { axis ≤ 2600000 }
    ensures { IfOk result (λ text. string_bytes text ≡ foot_text axis) }
{
    let y = axis + 4_200;
    let states = states_legend();
    let signs = signs_legend();
    let ends = ends_legend();
    let close = close();
    format!(in alloc; "<g transform='translate(0 {y})'>\n{states}{signs}{ends}</g>\n{close}")
}

/// The picture whose marks, sheet and scales are given.
fn sheet_text(
    alloc: Global,
    limits: Option<Limits>,
    cycles: u32,
    whole: u64,
    end: &End,
    marks: &[Mark],
    sheet: Sheet,
    scales: &[Option<Scale>],
) -> Result<String, AllocError>
    requires width { sheet.width ≤ 101600 }
    requires channels { sheet.channels ≤ 7 }
    ensures { IfOk result (λ text. string_bytes text
        ≡ sheet_text limits cycles whole end.now marks.now sheet scales.now) }
{
    let front = front_text(alloc, limits, sheet, cycles, whole, end)?;
    let plot = plot_text(alloc, cycles, whole, sheet, scales)?;
    let marks = marks_text(alloc, sheet, scales, marks)?;
    let stop = stop_text(alloc, sheet, end)?;
    let foot = foot_text(alloc, axis_y(sheet.channels, sheet.outputs))?;
    format!(in alloc; "{front}{plot}{marks}{stop}{foot}")
}

/// The picture of a report with so many channels, outputs and cycles, by what it tells of each cycle and how it ends,
/// and with the limits of its mission where that is known.
#[tactic(auto, unfolding(crate::specs::Picture::svg_of))]
pub fn picture_text(
    alloc: Global,
    limits: Option<Limits>,
    channels: u8,
    outputs: u8,
    cycles: u32,
    told: &[CycleFacts],
    end: &End,
) -> Result<String, AllocError>
    requires channels { channels ≤ 7 }
    requires told { length told.now < 2 ^ 32 }
    ensures { IfOk result (λ text. string_bytes text
        ≡ svg_of limits channels outputs cycles (length told.now) end.now
        (marks_of limits channels outputs told.now)) }
{
    let marks = marks(alloc, limits, channels, outputs, told)?;
    let sheet = sheet_of(channels, outputs, cycles, &marks);
    let scales = scales(alloc, outputs, &marks)?;
    sheet_text(
        alloc,
        limits,
        cycles,
        told.len() as u64,
        end,
        &marks,
        sheet,
        &scales,
    )
}
