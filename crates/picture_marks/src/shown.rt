//! What a picture shows: its lanes, and what stands in them.
ghost use Rattle.std.specs.Prelude.{◌≡◌, None, if◌then◌else◌};
ghost use Rattle.guards_model.specs.Channels.{has, place_or};
ghost use Rattle.picture_marks.specs.declared.shown.Shown.TheVariants as shown;
ghost use Rattle.picture_marks.specs.Shown.{amount, blocks_shown, is_drawn, is_dropped, is_target_shown, look, passive_state, same, lane_shown_in, state_shown_in, count_in, vote_in, threshold_in, final_in};

use crate::facts::{CycleFacts, Limits};
use guards_base::{Chan, ChanSet};

/// A lane of the picture: one thing that is shown of a channel, of the transfer, or of an output.
#[derive(Clone, Copy, Debug)]
pub enum Lane {
    State { channel: u8 },
    Judged { channel: u8 },
    Count { channel: u8 },
    Threshold { channel: u8 },
    Removed { channel: u8 },
    Joined { channel: u8 },
    Dropped { channel: u8 },
    Remaining,
    Final,
    Output { place: u8 },
}

/// What stands in a lane in a cycle.
#[derive(Clone, Copy, Debug)]
pub enum Shown {
    Nothing,
    /// The channel is active and has a line.
    Runs,
    /// It is active and has no line.
    Silent,
    /// It is not active, and no target of a transfer.
    Off,
    /// It is judged errant.
    Judged,
    /// It is not active, and a target of the transfer from this cycle on.
    Restored { start: u32 },
    /// It is removed at the end of this cycle.
    Removed { cycle: u32 },
    /// It is declared joined at the end of this cycle.
    Joined { cycle: u32 },
    /// It was a target of a transfer up to this cycle, has not joined, and is none any more.
    Dropped { cycle: u32 },
    /// The errors that are counted against it.
    Count { count: u32 },
    /// The count at which it is removed.
    Threshold { count: u32 },
    /// How many blocks of the transfer remain.
    Blocks { left: u16 },
    /// How many blocks the final frame of a transfer may carry.
    Final { blocks: u8 },
    /// The word that is voted for.
    Vote { word: i64 },
}

/// What a lane shows from a cycle on, up to the cycle before `past`.
#[derive(Clone, Copy, Debug)]
pub struct Mark {
    pub lane: Lane,
    pub shown: Shown,
    pub first: u32,
    pub past: u32,
}

fn look(shown: Shown) -> u8
    ensures { result ≡ look shown }
{
    match shown {
        Shown::Nothing => 0,
        Shown::Runs => 1,
        Shown::Silent => 2,
        Shown::Off => 3,
        Shown::Judged => 4,
        Shown::Restored { .. } => 5,
        Shown::Removed { .. } => 6,
        Shown::Joined { .. } => 7,
        Shown::Dropped { .. } => 8,
        Shown::Count { .. } => 9,
        Shown::Blocks { .. } => 10,
        Shown::Vote { .. } => 11,
        Shown::Threshold { .. } => 12,
        Shown::Final { .. } => 13,
    }
}

fn amount(shown: Shown) -> i64
    ensures { result ≡ amount shown }
{
    match shown {
        Shown::Restored { start } => i64::from(start),
        Shown::Removed { cycle } => i64::from(cycle),
        Shown::Joined { cycle } => i64::from(cycle),
        Shown::Dropped { cycle } => i64::from(cycle),
        Shown::Count { count } => i64::from(count),
        Shown::Blocks { left } => i64::from(left),
        Shown::Threshold { count } => i64::from(count),
        Shown::Final { blocks } => i64::from(blocks),
        Shown::Vote { word } => word,
        _ => 0,
    }
}

/// Whether two lanes' places show the same.
pub(crate) fn same(shown: Shown, other: Shown) -> bool
    ensures { result ≡ same shown other }
{
    look(shown) == look(other) && amount(shown) == amount(other)
}

/// Whether there is anything to draw.
pub(crate) fn is_drawn(shown: Shown) -> bool
    ensures { result ≡ is_drawn shown }
{
    !matches!(shown, Shown::Nothing)
}

/// Whether the set has the channel of this number.
fn has(set: ChanSet, channel: u8) -> bool
    ensures { result ≡ has set channel }
{
    match Chan::new(channel) {
        Some(channel) => set.has(channel),
        None => {
            let _mask = set.mask();
            false
        }
    }
}

fn passive_state(transfer: Option<(ChanSet, u32)>, channel: u8) -> Shown
    ensures { result ≡ passive_state transfer channel }
{
    match transfer {
        Some((targets, start)) => {
            if has(targets, channel) {
                Shown::Restored { start }
            } else {
                Shown::Off
            }
        }
        None => Shown::Off,
    }
}

fn state_in(facts: &CycleFacts, channel: u8) -> Shown
    ensures { result ≡ state_shown_in facts.now channel }
{
    if !has(facts.active, channel) {
        return passive_state(facts.transfer, channel);
    }
    if has(facts.ran, channel) {
        Shown::Runs
    } else {
        Shown::Silent
    }
}

fn count_at(counts: &[u32; 7], channel: u8) -> u32
    ensures { result ≡ place_or counts.now channel 0 }
{
    if channel < 7 {
        counts[usize::from(channel)]
    } else {
        0
    }
}

fn count_in(facts: &CycleFacts, channel: u8) -> Shown
    ensures { result ≡ count_in facts.now channel }
{
    if facts.ran.count() == 0 {
        return Shown::Nothing;
    }
    Shown::Count {
        count: count_at(&facts.counts, channel),
    }
}

fn threshold_in(limits: Option<Limits>, facts: &CycleFacts) -> Shown
    ensures { result ≡ threshold_in limits facts.now }
{
    let Some(limits) = limits else {
        return Shown::Nothing;
    };
    if facts.ran.count() == 0 {
        return Shown::Nothing;
    }
    Shown::Threshold {
        count: limits.threshold,
    }
}

fn final_in(limits: Option<Limits>, remaining: Option<u16>) -> Shown
    ensures { result ≡ final_in limits remaining }
{
    match (limits, remaining) {
        (Some(limits), Some(_)) => Shown::Final {
            blocks: limits.last,
        },
        _ => Shown::Nothing,
    }
}

fn vote_at(votes: &[Option<i64>; 8], place: u8) -> Option<i64>
    ensures { result ≡ place_or votes.now place None }
{
    if place < 8 {
        votes[usize::from(place)]
    } else {
        None
    }
}

fn vote_in(facts: &CycleFacts, place: u8) -> Shown
    ensures { result ≡ vote_in facts.now place }
{
    if facts.ran.count() == 0 {
        return Shown::Nothing;
    }
    match vote_at(&facts.votes, place) {
        Some(word) => Shown::Vote { word },
        None => Shown::Nothing,
    }
}

/// Whether the channel is a target of the transfer that started then.
fn is_target(transfer: Option<(ChanSet, u32)>, since: u32, channel: u8) -> bool
    ensures { result ≡ is_target_shown transfer since channel }
{
    match transfer {
        Some((targets, start)) => start == since && has(targets, channel),
        None => false,
    }
}

/// Whether the channel was a target of a transfer up to this cycle, has not joined, and is none any more.
fn is_dropped(facts: &CycleFacts, channel: u8) -> bool
    ensures { result ≡ is_dropped facts.now channel }
{
    match facts.before {
        Some((targets, start)) => {
            has(targets, channel)
                && !has(facts.arrived, channel)
                && !is_target(facts.transfer, start, channel)
        }
        None => false,
    }
}

fn if_holds(holds: bool, value: Shown) -> Shown
    ensures { result ≡ (if holds then value else shown.Nothing) }
{
    if holds { value } else { Shown::Nothing }
}

fn blocks_in(remaining: Option<u16>) -> Shown
    ensures { result ≡ blocks_shown remaining }
{
    match remaining {
        Some(left) => Shown::Blocks { left },
        None => Shown::Nothing,
    }
}

/// What a lane shows of a cycle, with the limits of its mission where that is known.
pub(crate) fn shown_in(limits: Option<Limits>, lane: Lane, facts: &CycleFacts) -> Shown
    ensures { result ≡ lane_shown_in limits lane facts.now }
{
    let cycle = facts.cycle;
    match lane {
        Lane::State { channel } => state_in(facts, channel),
        Lane::Judged { channel } => if_holds(has(facts.judged, channel), Shown::Judged),
        Lane::Count { channel } => count_in(facts, channel),
        Lane::Threshold { .. } => threshold_in(limits, facts),
        Lane::Removed { channel } => {
            if_holds(has(facts.removed, channel), Shown::Removed { cycle })
        }
        Lane::Joined { channel } => if_holds(has(facts.joined, channel), Shown::Joined { cycle }),
        Lane::Dropped { channel } => if_holds(is_dropped(facts, channel), Shown::Dropped { cycle }),
        Lane::Remaining => blocks_in(facts.remaining),
        Lane::Final => final_in(limits, facts.remaining),
        Lane::Output { place } => vote_in(facts, place),
    }
}
