//! The rules of a cycle that are asked of sets and numbers alone.
ghost use Rattle.std.specs.Prelude.{◌≡◌, ◌≤◌, ◌<◌, ◌&&◌, ◌||◌, ◌==◌, not, ℕ, List, length, option_map, nat_le, nat_lt, slice_index};
ghost use Rattle.std.specs.List.{list_all};
ghost use Rattle.guards_model.specs.Channels.{has, place_or, without};
ghost use Rattle.guards_model.specs.Decisions.{has_started, joined_of};
ghost use Rattle.guards_model.specs.Missions.{channels_of};
ghost use Rattle.guards_model.specs.Records.{transfer_of_pair};
ghost use Rattle.guards_model.specs.Texts.{RecordValue};
ghost use Rattle.guards_audit.specs.Tests.{comes_next, same_number, stays_rightly};
ghost use Rattle.guards_audit.specs.Told.{first_line};
ghost use Rattle.told_cycles.specs.Rules.{most_planned};

use crate::sets::{all_below, both, either, is_in};
use guards_base::{Chan, ChanSet};
use mission_type::Mission;

/// Whether a head line has a mission's numbers.
pub fn is_head_of(mission: &Mission, channels: u8, cycles: u32) -> bool
    ensures { result ≡ (channels == mission.now.rules.channels && cycles == mission.now.cycles) }
{
    both(
        channels == channel_count(mission),
        cycles == mission.cycles(),
    )
}

/// Whether all cycles are done, and a last line says how many.
pub fn are_all_done(mission: &Mission, done: u32, cycles: u32) -> bool
    ensures { result ≡ (done == mission.now.cycles && cycles == mission.now.cycles) }
{
    both(done == mission.cycles(), cycles == mission.cycles())
}

fn blocks_of(mission: &Mission) -> u16
    ensures { result ≡ mission.now.rules.blocks }
{
    mission.rules().blocks
}

/// How many blocks a context has.
pub fn block_count(mission: &Mission) -> u16
    ensures value { result ≡ mission.now.rules.blocks }
    ensures some { 1 ≤ result }
    ensures few { result ≤ 256 }
{
    mission.prove_mission();
    blocks_of(mission)
}

/// How many channels there are.
pub fn channel_count(mission: &Mission) -> u8
    ensures value { result ≡ mission.now.rules.channels }
    ensures seven { result ≤ 7 }
{
    mission.prove_sizes();
    mission.rules().channels
}

/// How many channels one transfer restores at most.
pub fn returning_of(mission: &Mission) -> u8
    ensures { result ≡ mission.now.rules.returning }
{
    mission.rules().returning
}

/// The count from which on a channel is removed.
fn threshold_of(mission: &Mission) -> u32
    ensures { result ≡ mission.now.rules.threshold }
{
    mission.rules().threshold
}

/// All channels of a mission.
pub fn everyone(mission: &Mission) -> ChanSet
    ensures { result ≡ channels_of mission.now }
{
    ChanSet::below(channel_count(mission))
}

/// A channel that is active and above those before it.
pub fn comes_next(active: ChanSet, before: ChanSet, chan: Chan) -> bool
    ensures { (chans : List ℕ) → ((q : ℕ) → has before q ≡ has chans q) → result ≡ comes_next active chans chan }
{
    both(active.has(chan), all_below(before, chan.index()))
}

/// Whether a transfer starts in this cycle.
pub fn starts_in(transfer: &Option<(ChanSet, u32)>, cycle: u32) -> bool
    ensures { result ≡ has_started cycle (transfer_of_pair transfer.now) }
{
    match *transfer {
        Some((_, start)) => start == cycle,
        None => false,
    }
}

/// How many blocks a cycle with this transfer plans at most.
pub fn sweep_of(mission: &Mission, transfer: &Option<(ChanSet, u32)>) -> u8
    ensures { result ≡ most_planned mission.now (transfer_of_pair transfer.now) }
{
    match *transfer {
        Some(_) => mission.rules().sweep,
        None => 0,
    }
}

/// How many blocks remain, where a transfer runs.
pub fn remaining_of(transfer: &Option<(ChanSet, u32)>, rest: u16) -> Option<u16>
    ensures { result ≡ option_map (λ t. rest) (transfer_of_pair transfer.now) }
{
    match *transfer {
        Some(_) => Some(rest),
        None => None,
    }
}

/// Whether two numbers, if there are any, are the same.
pub fn is_same_number(a: Option<u16>, b: Option<u16>) -> bool
    ensures { result ≡ same_number a b }
{
    match a {
        None => match b {
            None => true,
            Some(_) => false,
        },
        Some(a) => match b {
            None => false,
            Some(b) => a == b,
        },
    }
}

/// Who joins: the targets, where the remaining blocks fit a final frame.
pub fn joins(mission: &Mission, transfer: &Option<(ChanSet, u32)>, rest: u16) -> ChanSet
    ensures { (blocks : List ℕ) → length blocks ≡ rest →
        result ≡ joined_of mission.now.rules.last (transfer_of_pair transfer.now) blocks }
{
    let Some((targets, _)) = *transfer else {
        return ChanSet::empty();
    };
    if rest <= u16::from(mission.rules().last) {
        targets
    } else {
        ChanSet::empty()
    }
}

/// Whether a channel stays rightly, if it is active: it stays only where its count is below the threshold, or three
/// are left and all removed are below it.
fn stays_rightly(
    threshold: u32,
    counts: &[u32; 7],
    active: ChanSet,
    removed: ChanSet,
    chan: u8,
) -> bool
    requires { chan < 7 }
    ensures { result
        ≡ (not (has active chan) || ((not (nat_le threshold (slice_index counts.now chan)) || has removed chan)
        || (length (without active removed) == 3 && list_all (λ p. nat_lt p chan) removed))) }
{
    let is_passive = !is_in(active, chan);
    let reached = threshold <= counts[usize::from(chan)];
    let left = active.difference(removed).count();
    let last_three = both(left == 3, all_below(removed, chan));
    either(
        is_passive,
        either(either(!reached, is_in(removed, chan)), last_three),
    )
}

/// Whether each active channel stays rightly that is not removed.
pub fn all_stay_rightly(
    mission: &Mission,
    active: ChanSet,
    removed: ChanSet,
    counts: &[u32; 7],
) -> bool
    ensures { (r : RecordValue) → r.active ≡ active →
        ((q : ℕ) → q < 7 → slice_index counts.now q ≡ place_or (first_line r).counts q 0) →
        result ≡ list_all (stays_rightly mission.now r removed) active }
{
    let threshold = threshold_of(mission);
    for chan in 0..7u8 {
        if !stays_rightly(threshold, counts, active, removed, chan) {
            return false;
        }
    }
    let _mask = active.mask();
    true
}
