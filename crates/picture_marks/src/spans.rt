//! The marks of a picture, lane by lane.
ghost use Rattle.std.specs.Prelude.{◌≡◌, ◌≤◌, ◌<◌, ◌^◌, ◌++◌, ◌+◌, ◌∷◌, [], length, map, flat_map, if◌then◌else◌, IfOk, OnOk};
ghost use Rattle.guards_model.specs.Channels.{numbers_below};
ghost use Rattle.picture_marks.specs.declared.shown.Lane.TheVariants as lane;
ghost use Rattle.picture_marks.specs.Shown.{is_drawn, lane_shown_in};
ghost use Rattle.picture_marks.specs.Marks.{channel_lanes, marks_drawn, first_mark, lanes_of, longer_span, marks_in, marks_of, next_mark, spans_on};

use crate::facts::{CycleFacts, Limits};
use crate::shown::{Lane, Mark, Shown, is_drawn, same, shown_in};
use std::alloc::{AllocError, Global};

/// Appends a mark, unless it shows nothing.
fn push_drawn(marks: &mut Vec<Mark>, mark: Mark) -> Result<(), AllocError>
    ensures { OnOk result (marks.new.items ≡ marks.old.items ++ (if is_drawn mark.shown then mark ∷ [] else [])) }
{
    if is_drawn(mark.shown) {
        marks.push(mark)?;
    }
    Ok(())
}

/// A mark that goes on for a cycle.
fn longer(mark: Mark, past: u32) -> Mark
    requires { past ≡ mark.past + 1 }
    ensures { result ≡ longer_span mark }
{
    Mark {
        lane: mark.lane,
        shown: mark.shown,
        first: mark.first,
        past,
    }
}

/// The mark of the cycle after another mark.
fn next_mark(mark: Mark, shown: Shown, past: u32) -> Mark
    requires { past ≡ mark.past + 1 }
    ensures { result ≡ next_mark mark shown }
{
    Mark {
        lane: mark.lane,
        shown,
        first: mark.past,
        past,
    }
}

fn first_mark(lane: Lane, shown: Shown) -> Mark
    ensures { result ≡ first_mark lane shown }
{
    Mark {
        lane,
        shown,
        first: 0,
        past: 1,
    }
}

/// Appends the spans from a mark on, by what is told of the cycles after it.
fn push_spans(
    marks: &mut Vec<Mark>,
    limits: Option<Limits>,
    lane: Lane,
    first: Mark,
    told: &[CycleFacts],
) -> Result<(), AllocError>
    requires { first.past + length told.now < 2 ^ 32 }
    ensures { OnOk result (marks.new.items
        ≡ marks.old.items ++ marks_drawn (spans_on first (map (lane_shown_in limits lane) told.now))) }
{
    let mut open = first;
    for facts in told {
        let now = shown_in(limits, lane, facts);
        let past = open.past + 1;
        if same(open.shown, now) {
            open = longer(open, past);
        } else {
            push_drawn(marks, open)?;
            open = next_mark(open, now, past);
        }
    }
    let last = open;
    push_drawn(marks, last)
}

/// Appends the marks of a lane.
fn push_lane(
    marks: &mut Vec<Mark>,
    limits: Option<Limits>,
    lane: Lane,
    told: &[CycleFacts],
) -> Result<(), AllocError>
    requires { length told.now < 2 ^ 32 }
    ensures { OnOk result (marks.new.items ≡ marks.old.items ++ marks_in limits lane told.now) }
{
    let Some((first, rest)) = told.split_first() else {
        return Ok(());
    };
    let first = first_mark(lane, shown_in(limits, lane, first));
    push_spans(marks, limits, lane, first, rest)
}

/// Appends the lanes of a channel.
fn push_channel(lanes: &mut Vec<Lane>, channel: u8) -> Result<(), AllocError>
    ensures { OnOk result (lanes.new.items ≡ lanes.old.items ++ channel_lanes channel) }
{
    lanes.push(Lane::State { channel })?;
    lanes.push(Lane::Judged { channel })?;
    lanes.push(Lane::Count { channel })?;
    lanes.push(Lane::Threshold { channel })?;
    lanes.push(Lane::Removed { channel })?;
    lanes.push(Lane::Joined { channel })?;
    lanes.push(Lane::Dropped { channel })?;
    Ok(())
}

/// Appends the lane of an output.
fn push_output(lanes: &mut Vec<Lane>, place: u8) -> Result<(), AllocError>
    ensures { OnOk result (lanes.new.items ≡ lanes.old.items ++ lane.Output place ∷ []) }
{
    lanes.push(Lane::Output { place })?;
    Ok(())
}

/// The lanes of the channels.
fn channel_lanes(alloc: Global, channels: u8) -> Result<Vec<Lane>, AllocError>
    requires { channels ≤ 7 }
    ensures { IfOk result (λ lanes. lanes.items ≡ flat_map channel_lanes (numbers_below channels)) }
{
    let mut lanes = Vec::new(alloc);
    for channel in 0..channels {
        push_channel(&mut lanes, channel)?;
    }
    Ok(lanes)
}

/// The lanes of a picture.
fn lanes(alloc: Global, channels: u8, outputs: u8) -> Result<Vec<Lane>, AllocError>
    requires { channels ≤ 7 }
    ensures { IfOk result (λ lanes. lanes.items ≡ lanes_of channels outputs) }
{
    let mut lanes = channel_lanes(alloc, channels)?;
    lanes.push(Lane::Remaining)?;
    lanes.push(Lane::Final)?;
    for place in 0..outputs {
        push_output(&mut lanes, place)?;
    }
    Ok(lanes)
}

/// The marks of some lanes, one lane after the other.
fn marks_of_lanes(
    alloc: Global,
    limits: Option<Limits>,
    lanes: &[Lane],
    told: &[CycleFacts],
) -> Result<Vec<Mark>, AllocError>
    requires { length told.now < 2 ^ 32 }
    ensures { IfOk result (λ marks. marks.items ≡ flat_map (λ lane. marks_in limits lane told.now) lanes.now) }
{
    let mut marks = Vec::new(alloc);
    for lane in lanes {
        push_lane(&mut marks, limits, *lane, told)?;
    }
    Ok(marks)
}

/// The marks of a picture of so many channels and outputs, by what was told of each cycle, and with the limits of the
/// mission where that is known.
pub fn marks(
    alloc: Global,
    limits: Option<Limits>,
    channels: u8,
    outputs: u8,
    told: &[CycleFacts],
) -> Result<Vec<Mark>, AllocError>
    requires channels { channels ≤ 7 }
    requires told { length told.now < 2 ^ 32 }
    ensures { IfOk result (λ marks. marks.items ≡ marks_of limits channels outputs told.now) }
{
    let lanes = lanes(alloc, channels, outputs)?;
    marks_of_lanes(alloc, limits, &lanes, told)
}
