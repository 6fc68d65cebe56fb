//! The counts of a cycle.
ghost use Rattle.std.specs.Prelude.{◌≡◌, ◌≤◌, ◌<◌, ◌+◌, min, true, ℕ, List, slice_index, take, Some, bytes_eq, if◌then◌else◌};
ghost use Rattle.guards_model.specs.Channels.{by_channel, has, place_or};
ghost use Rattle.guards_model.specs.Frames.{count_cap};
ghost use Rattle.guards_model.specs.Texts.{LineValue};
ghost use Rattle.guards_model.specs.Diagnosis.{count_step, counts_of};
ghost use Rattle.told_cycles.specs.Counts.{after};

use crate::lines::are_same_counts;
use guards_base::{Chan, ChanSet, ChannelLine, Rules, table_by};
use guards_model::Law;
use mission_type::Mission;

/// A count that is raised by one, up to the cap.
fn raised(base: u32) -> u32
    ensures { result ≡ min (base + 65536) count_cap }
{
    if base < 16_711_680 {
        base + 65_536
    } else {
        16_777_216
    }
}

/// A count after a step.
fn stepped(rules: &Rules, errant: bool, base: u32) -> u32
    requires { rules.now.keep ≤ 65536 }
    ensures { result ≡ count_step rules.now.law rules.now.keep rules.now.decrement errant base }
{
    if errant {
        return raised(base);
    }
    match rules.law {
        Law::Multiply => (u64::from(base) * u64::from(rules.keep) / 65_536) as u32,
        Law::Subtract => base.saturating_sub(rules.decrement),
    }
}

/// The count of a channel: 0 where it is passive, and a step from 0 where it is fresh.
fn count_after(rules: &Rules, active: bool, fresh: bool, errant: bool, before: u32) -> u32
    requires { rules.now.keep ≤ 65536 }
    ensures { result ≡ after rules.now.law rules.now.keep rules.now.decrement active fresh errant before }
{
    if !active {
        return 0;
    }
    if fresh {
        return stepped(rules, errant, 0);
    }
    stepped(rules, errant, before)
}

/// The count of each channel.
fn each_count(
    rules: &Rules,
    active: ChanSet,
    fresh: ChanSet,
    judged: ChanSet,
    before: &[u32; 7],
) -> [u32; 7]
    requires { rules.now.keep ≤ 65536 }
    ensures { result ≡ by_channel (λ q.
        after rules.now.law rules.now.keep rules.now.decrement (has active q) (has fresh q) (has judged q)
        (slice_index before.now q)) }
{
    table_by(
        |c: Chan| -> u32
            requires { rules.now.keep ≤ 65536 }
            ensures { result ≡ after rules.entry.now.law rules.entry.now.keep rules.entry.now.decrement
                (has active c) (has fresh c) (has judged c) (slice_index before.entry.now c) }
        {
            count_after(
                rules,
                active.has(c),
                fresh.has(c),
                judged.has(c),
                before[usize::from(c.index())],
            )
        },
    )
}

/// The counts that a judgement gives.
fn counts_after(
    rules: &Rules,
    active: ChanSet,
    fresh: ChanSet,
    judged: ChanSet,
    before: &[u32; 7],
) -> [u32; 7]
    requires { rules.now.keep ≤ 65536 }
    ensures { (base : List ℕ) → ((q : ℕ) → q < 7 → has active q ≡ true →
        (if has fresh q then 0 else slice_index before.now q) ≡ place_or base q 0) →
        result ≡ counts_of rules.now.law rules.now.keep rules.now.decrement active judged base }
{
    each_count(rules, active, fresh, judged, before)
}

/// The counts that a judgement gives by a mission's law.
pub fn counts_by(
    mission: &Mission,
    active: ChanSet,
    fresh: ChanSet,
    judged: ChanSet,
    before: &[u32; 7],
) -> [u32; 7]
    ensures { (base : List ℕ) →
        ((q : ℕ) → q < 7 → has active q ≡ true →
        (if has fresh q then 0 else slice_index before.now q) ≡ place_or base q 0) →
        result ≡ counts_of mission.now.rules.law mission.now.rules.keep mission.now.rules.decrement active judged base }
{
    mission.prove_mission();
    counts_after(mission.rules(), active, fresh, judged, before)
}

/// Whether the counts of a line are these.
pub fn has_counts(line: &ChannelLine, counts: &[u32; 7], channels: u8) -> bool
    requires { channels ≤ 7 }
    ensures { result ≡ bytes_eq (take channels line.now.counts) (take channels counts.now) }
{
    let channels = usize::from(channels);
    are_same_counts(&line.alphas[..channels], &counts[..channels])
}

/// Who is judged by a line.
pub fn judged_of(line: &ChannelLine) -> ChanSet
    ensures { result ≡ line.now.judged }
{
    line.judged
}

/// The counts of so many channels, and 0 past them.
fn counts_in_use(counts: &[u32; 7], channels: u8) -> [u32; 7]
    requires { channels ≤ 7 }
    ensures { (q : ℕ) → q < 7 → slice_index result q ≡ place_or (take channels counts.now) q 0 }
{
    let mut kept = [0; 7];
    let channels = usize::from(channels);
    kept[..channels].copy_from_slice(&counts[..channels]);
    kept
}

/// The counts of a line, and 0 past the channels.
pub fn counts_told(line: &ChannelLine, channels: u8) -> [u32; 7]
    requires { channels ≤ 7 }
    ensures { (q : ℕ) → q < 7 → slice_index result q ≡ place_or (take channels line.now.counts) q 0 }
{
    counts_in_use(&line.alphas, channels)
}

/// The counts of the first line, if there is one.
pub fn counts_of_line(first: &Option<ChannelLine>, channels: u8) -> [u32; 7]
    requires { channels ≤ 7 }
    ensures { (line : LineValue) → first.now ≡ Some line →
        (q : ℕ) → q < 7 → slice_index result q ≡ place_or (take channels line.counts) q 0 }
{
    match first {
        Some(line) => counts_told(line, channels),
        None => [0; 7],
    }
}
