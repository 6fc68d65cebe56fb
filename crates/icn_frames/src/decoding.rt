//! Reading a frame.

ghost use Rattle.std.specs.Prelude.{◌≡◌, Some, IfOk, IfSome};
ghost use Rattle.std.specs.Int.{w32};
ghost use Rattle.guards_model.specs.Frames.{FrameValue, Spells};
ghost use Rattle.guards_model.specs.Fields.{body_at, request_at, exchange_at, vote_at, sweep_at, final_at, switch_at, optional_at, number_at, frame_at, frame_in};
ghost use Rattle.icn_frames.specs.Bodies.{view_body};
ghost use Rattle.icn_frames.specs.Reads.{GivesRead};

use crate::frame::{Body, Exchange, FinalBody, Frame, SweepBody};
use crate::reading::Reader;
use crate::unread::Unread;
use guards_base::Chan;
use std::alloc::{AllocError, Global};

#[tactic(auto, unfolding(guards_model::specs::Fields::optional_at))]
fn start(input: &mut Reader) -> Result<Option<u32>, Unread>
    ensures { GivesRead (λ start. (start, input.new)) result (optional_at (number_at w32) input.old) }
{
    match input.byte()? {
        0 => Ok(None),
        1 => Ok(Some(input.u32()?)),
        _ => Err(Unread::NoFrame),
    }
}

#[tactic(auto, unfolding(guards_model::specs::Fields::request_at))]
fn request(input: &mut Reader) -> Result<Body, Unread>
    ensures { GivesRead (λ body. (view_body body, input.new)) result (request_at input.old) }
{
    Ok(Body::Request(start(input)?))
}

#[tactic(auto, unfolding(guards_model::specs::Fields::exchange_at))]
fn exchange(alloc: Global, sender: Chan, input: &mut Reader) -> Result<Body, Unread>
    ensures { GivesRead (λ body. (view_body body, input.new)) result (exchange_at sender input.old) }
{
    let round = input.byte()?;
    if round < 1 || round > 3 {
        return Err(Unread::NoFrame);
    }
    let items = input.items(alloc, sender, round)?;
    Ok(Body::Exchange(Exchange { round, items }))
}

#[tactic(auto, unfolding(guards_model::specs::Fields::vote_at))]
fn vote(input: &mut Reader) -> Result<Body, Unread>
    ensures { GivesRead (λ body. (view_body body, input.new)) result (vote_at input.old) }
{
    Ok(Body::Vote(input.ballot()?))
}

#[tactic(auto, unfolding(guards_model::specs::Fields::sweep_at))]
fn sweep(alloc: Global, input: &mut Reader) -> Result<Body, Unread>
    ensures { GivesRead (λ body. (view_body body, input.new)) result (sweep_at input.old) }
{
    let target = input.channel()?;
    let start = input.u32()?;
    let blocks = input.swept_copies(alloc)?;
    Ok(Body::Sweep(SweepBody {
        target,
        start,
        blocks,
    }))
}

#[tactic(auto, unfolding(guards_model::specs::Fields::final_at))]
fn final_body(alloc: Global, version: u8, input: &mut Reader) -> Result<Body, Unread>
    ensures { GivesRead (λ body. (view_body body, input.new)) result (final_at version input.old) }
{
    let target = input.channel()?;
    let start = input.u32()?;
    let blocks = input.final_copies(alloc)?;
    let control = input.control(version)?;
    Ok(Body::Final(FinalBody {
        target,
        start,
        blocks,
        control,
    }))
}

#[tactic(auto, unfolding(guards_model::specs::Fields::switch_at))]
fn switch(input: &mut Reader) -> Result<Body, Unread>
    ensures { GivesRead (λ body. (view_body body, input.new)) result (switch_at input.old) }
{
    Ok(Body::Switch(input.set()?))
}

#[tactic(auto, unfolding(guards_model::specs::Fields::body_at))]
fn body(
    alloc: Global,
    version: u8,
    kind: u8,
    sender: Chan,
    input: &mut Reader,
) -> Result<Body, Unread>
    ensures { GivesRead (λ body. (view_body body, input.new)) result (body_at version kind sender input.old) }
{
    match kind {
        1 => request(input),
        2 => exchange(alloc, sender, input),
        3 => vote(input),
        4 => sweep(alloc, input),
        5 => final_body(alloc, version, input),
        6 => switch(input),
        _ => Err(Unread::NoFrame),
    }
}

#[tactic(auto, unfolding(guards_model::specs::Fields::frame_at))]
fn frame(alloc: Global, input: &mut Reader) -> Result<Frame, Unread>
    ensures { GivesRead (λ frame. (frame, input.new)) result (frame_at input.old) }
{
    if input.byte()? != 0x47 {
        return Err(Unread::NoFrame);
    }
    let version = input.byte()?;
    if version < 1 || version > 2 {
        return Err(Unread::NoFrame);
    }
    let kind = input.byte()?;
    let sender = input.channel()?;
    let cycle = input.u32()?;
    let body = body(alloc, version, kind, sender, input)?;
    Ok(Frame {
        version,
        sender,
        cycle,
        body,
    })
}

/// The frame that takes all of the bytes.
#[tactic(auto, unfolding(guards_model::specs::Fields::frame_in))]
fn whole_frame(alloc: Global, bytes: &[u8]) -> Result<Frame, Unread>
    ensures { GivesRead (λ frame. frame) result (frame_in bytes.now) }
{
    let mut input = Reader::new(bytes);
    let frame = frame(alloc, &mut input)?;
    if !input.is_at_end() {
        return Err(Unread::NoFrame);
    }
    Ok(frame)
}

/// The frame that takes all of the bytes, unless there is none.
fn frame_if_any(alloc: Global, bytes: &[u8]) -> Result<Option<Frame>, AllocError>
    ensures { IfOk result (λ found. found ≡ frame_in bytes.now) }
{
    match whole_frame(alloc, bytes) {
        Ok(frame) => Ok(Some(frame)),
        Err(Unread::NoFrame) => Ok(None),
        Err(Unread::Memory) => Err(AllocError),
    }
}

/// The frame that the bytes spell. It is None exactly where they spell none.
pub fn decode(alloc: Global, bytes: &[u8]) -> Result<Option<Frame>, AllocError>
    // What is read is spelled by just these bytes.
    ensures spelled { IfOk result (λ found. IfSome found (Spells bytes.now)) }
    // What the bytes spell is read, unless memory runs out.
    ensures read { (f : FrameValue) → Spells bytes.now f → IfOk result (λ found. found ≡ Some f) }
    // The answer as the definitions compute it.
    ensures exact { IfOk result (λ found. found ≡ frame_in bytes.now) }
{
    frame_if_any(alloc, bytes)
}
