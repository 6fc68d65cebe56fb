//! What is kept of the cycles of a run for its row.
ghost use Rattle.std.specs.Prelude.{◌≡◌, ◌<◌, ◌≤◌, ◌&&◌, ◌-◌, suc, List, [], ◌∷◌, not, option_map, length, if◌then◌else◌};
ghost use Rattle.guards_model.specs.Channels.{by_channel, channels_where, has, place_or};
ghost use Rattle.guards_model.specs.Records.{transfer_of_pair};
ghost use Rattle.guards_model.specs.Transfers.{start_of};
ghost use Rattle.guards_model.specs.Faults.{FaultValue};
ghost use Rattle.guards_runs.specs.Promises.{is_transfer_to};
ghost use Rattle.campaign_facts.specs.Facts.{ended_length, is_dropped, is_named, unrisen, dropped_targets};
ghost use Rattle.campaign_facts.specs.Tallies.{facts_value, next_tally, tally_of};

use crate::facts::CycleFacts;
use crate::kinds::is_named;
use fault_script::Script;
use guards_base::{Chan, ChanSet, set_by, table_by};
use std::marker::Model;

/// A transfer: its targets and its start.
type Transfer = Option<(ChanSet, u32)>;

/// The numbers of a row that are counted cycle by cycle.
#[derive(Debug, Drop)]
pub struct Tally {
    cycles: u32,
    removals: u32,
    false_removals: u32,
    joins: u32,
    not_whole: u32,
    dropped: u32,
    longest: u32,
    // By channel the first cycle of which an entry may be behind its removal.
    firsts: [u32; 7],
    last: Option<CycleFacts>,
}

impl Model for Tally {
    ghost use Rattle.std.specs.Prelude.{◌≤◌, ◌*◌, option_map};
    ghost use Rattle.campaign_facts.specs.Tallies.{TallyValue, facts_value};

    ghost Value = { TallyValue };

    ghost view = { λ t. record {
      cycles = t.cycles;
      removals = t.removals;
      false_removals = t.false_removals;
      joins = t.joins;
      not_whole = t.not_whole;
      dropped = t.dropped;
      longest = t.longest;
      firsts = t.firsts;
      last = option_map facts_value t.last;
    } };

    ghost invariant = { λ t. (t.cycles ≤ 2000) × (t.removals ≤ 255 * t.cycles) × (t.false_removals ≤ 255 * t.cycles)
        × (t.joins ≤ 255 * t.cycles) × (t.not_whole ≤ 255 * t.cycles) × (t.dropped ≤ 255 * t.cycles) };
}

// ---- sets of one cycle

/// Who is removed, though no entry of the script names it from its first cycle that counts on.
fn falsely_removed(script: &Script, removed: ChanSet, firsts: &[u32; 7], cycle: u32) -> ChanSet
    ensures { result ≡
        channels_where (λ q. has removed q && not (is_named script.now q (place_or firsts.now q 0) cycle)) }
{
    set_by(
        |c: Chan| -> bool
            ensures { result ≡
                (has removed c && not (is_named script.entry.now c (place_or firsts.entry.now c 0) cycle)) }
        { removed.has(c) && !is_named(script, c.index(), first_of(firsts, c), cycle) },
    )
}

/// Who was declared joined in the cycle before, and has no line in this one.
fn unrisen_after(joined: ChanSet, running: ChanSet) -> ChanSet
    ensures { result ≡ channels_where (λ q. has joined q && not (has running q)) }
{
    set_by(
        |c: Chan| -> bool
            ensures { result ≡ (has joined c && not (has running c)) }
        { joined.has(c) && !running.has(c) },
    )
}

/// Who was declared joined in the last cycle, if there is one, and has no line in this one.
fn unrisen_count(last: &Option<CycleFacts>, running: ChanSet) -> u8
    ensures { result ≡ length (unrisen (option_map facts_value last.now) running) }
{
    match last {
        None => 0,
        Some(before) => unrisen_after(before.joined, running).count(),
    }
}

/// Whether a channel is a target of a transfer, and there is one with this start.
fn is_target(transfer: &Transfer, c: Chan, start: u32) -> bool
    ensures { result ≡ is_transfer_to c start (transfer_of_pair transfer.now) }
{
    match transfer {
        None => false,
        Some((targets, first)) => targets.has(c) && *first == start,
    }
}

/// Whether a channel is a target of the transfer before, which is not over, and is dropped.
fn is_dropped(before: &Transfer, joined: ChanSet, now: &Transfer, c: Chan) -> bool
    ensures { result ≡ is_dropped (transfer_of_pair before.now) joined (transfer_of_pair now.now) c }
{
    match before {
        Some((targets, start)) if joined.count() == 0 => {
            targets.has(c) && !is_target(now, c, *start)
        }
        _ => false,
    }
}

/// The targets that a cycle drops.
fn dropped_after(before: &Transfer, joined: ChanSet, now: &Transfer) -> ChanSet
    ensures { result ≡ channels_where (is_dropped (transfer_of_pair before.now) joined (transfer_of_pair now.now)) }
{
    set_by(
        |c: Chan| -> bool
            ensures { result ≡
                is_dropped (transfer_of_pair before.entry.now) joined (transfer_of_pair now.entry.now) c }
        { is_dropped(before, joined, now, c) },
    )
}

/// How many targets of the last cycle, if there is one, this one drops.
fn dropped_count(last: &Option<CycleFacts>, now: &Transfer) -> u8
    ensures { result ≡ length (dropped_targets (option_map facts_value last.now) (transfer_of_pair now.now)) }
{
    match last {
        None => 0,
        Some(before) => dropped_after(&before.transfer, before.joined, now).count(),
    }
}

/// The start of a transfer, or 0 where there is none.
fn start_of(transfer: &Transfer) -> u32
    ensures { result ≡ start_of (transfer_of_pair transfer.now) }
{
    match transfer {
        None => 0,
        Some((_, start)) => *start,
    }
}

/// The cycles of a transfer that ends with this cycle, and 0 where none ends.
fn ended_length(joined: ChanSet, transfer: &Transfer, cycle: u32) -> u32
    requires { cycle < 2000 }
    ensures { result ≡ ended_length joined (transfer_of_pair transfer.now) cycle }
{
    if joined.count() == 0 {
        0
    } else {
        (cycle + 1).saturating_sub(start_of(transfer))
    }
}

/// The first cycle that counts for a channel.
fn first_of(firsts: &[u32; 7], c: Chan) -> u32
    ensures { result ≡ place_or firsts.now c 0 }
{
    firsts[usize::from(c.index())]
}

/// The first cycle that counts for a channel after a cycle: where it was declared joined, the one before the start of
/// its transfer.
fn first_after(joined: ChanSet, transfer: &Transfer, firsts: &[u32; 7], c: Chan) -> u32
    ensures { result ≡
        (if has joined c then start_of (transfer_of_pair transfer.now) - 1 else place_or firsts.now c 0) }
{
    if joined.has(c) {
        start_of(transfer).saturating_sub(1)
    } else {
        first_of(firsts, c)
    }
}

/// The first cycles that count after a cycle.
fn firsts_after(joined: ChanSet, transfer: &Transfer, firsts: &[u32; 7]) -> [u32; 7]
    ensures { result ≡ by_channel
        (λ q. if has joined q then start_of (transfer_of_pair transfer.now) - 1 else place_or firsts.now q 0) }
{
    table_by(
        |c: Chan| -> u32
            ensures { result ≡ (if has joined c then start_of (transfer_of_pair transfer.entry.now) - 1
                else place_or firsts.entry.now c 0) }
        { first_after(joined, transfer, firsts, c) },
    )
}

// ---- the tally

impl Tally {
    /// No cycle ran.
    #[tactic(auto, unfolding(crate::specs::Tallies::tally_of, guards_model::specs::Channels::by_channel))]
    pub fn empty() -> Tally
        ensures { (script : List FaultValue) → result ≡ tally_of script [] }
    {
        Tally {
            cycles: 0,
            removals: 0,
            false_removals: 0,
            joins: 0,
            not_whole: 0,
            dropped: 0,
            longest: 0,
            firsts: [0; 7],
            last: None,
        }
    }

    /// How many cycles finished, at most 2,000.
    pub fn cycles(&self) -> u32
        ensures value { result ≡ self.now.cycles }
        ensures most { result ≤ 2000 }
    {
        self.cycles
    }

    /// How many removals there were.
    pub fn removals(&self) -> u32
        ensures { result ≡ self.now.removals }
    {
        self.removals
    }

    /// How many of them no entry of the script is behind.
    pub fn false_removals(&self) -> u32
        ensures { result ≡ self.now.false_removals }
    {
        self.false_removals
    }

    /// How many channels were declared joined.
    pub fn joins(&self) -> u32
        ensures { result ≡ self.now.joins }
    {
        self.joins
    }

    /// How many of them had no line in the next cycle.
    pub fn not_whole(&self) -> u32
        ensures { result ≡ self.now.not_whole }
    {
        self.not_whole
    }

    /// How many targets were dropped.
    pub fn dropped(&self) -> u32
        ensures { result ≡ self.now.dropped }
    {
        self.dropped
    }

    /// The cycles of the longest transfer that ended by a join, and 0 where none did.
    pub fn longest(&self) -> u32
        ensures { result ≡ self.now.longest }
    {
        self.longest
    }

    /// By channel the first cycle of which an entry may be behind its removal: the one before the start of the transfer
    /// by which it last joined, or 0.
    pub fn firsts(&self) -> [u32; 7]
        ensures { result ≡ self.now.firsts }
    {
        self.firsts
    }

    /// Counts one more cycle of a run with this script.
    #[tactic(auto, unfolding(crate::specs::Tallies::next_tally))]
    pub fn note(&mut self, script: &Script, facts: CycleFacts)
        requires { self.old.cycles < 2000 }
        ensures { self.new ≡ next_tally script.now (facts_value facts) self.old }
    {
        let cycle = self.cycles;
        let falsely = falsely_removed(script, facts.removed, &self.firsts, cycle).count();
        let unrisen = unrisen_count(&self.last, facts.running);
        let dropped = dropped_count(&self.last, &facts.transfer);
        let ended = ended_length(facts.joined, &facts.transfer, cycle);
        self.removals += u32::from(facts.removed.count());
        self.false_removals += u32::from(falsely);
        self.joins += u32::from(facts.joined.count());
        self.not_whole += u32::from(unrisen);
        self.dropped += u32::from(dropped);
        self.longest = self.longest.max(ended);
        self.firsts = firsts_after(facts.joined, &facts.transfer, &self.firsts);
        self.last = Some(facts);
        self.cycles += 1;
    }
}
