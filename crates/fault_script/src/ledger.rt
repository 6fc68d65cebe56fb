//! The ledger of modes and damage marks.
ghost use Rattle.std.specs.Prelude.{◌≡◌, ◌&&◌, ◌||◌, ◌≤◌, not, nat_lt, filter, if◌then◌else◌};
ghost use Rattle.std.specs.List.{list_any};
ghost use Rattle.guards_model.specs.Channels.{by_channel, channels_where, has, place_or};
ghost use Rattle.guards_model.specs.Modes.{up, down, is_up, is_joining, is_restart, is_crash_by, scripted_mode_at_start, scripted_mode_in_slot, mode_at_start, mode_at_end};
ghost use Rattle.guards_model.specs.Damages.{is_damage};
ghost use Rattle.guards_model.specs.Slots.{up_to};
ghost use Rattle.guards_model.specs.Ledgers.{is_down, mode_of, first_ledger, ledger_at_start, ledger_in_slot, ledger_at_end, turned_joining, turned_down, left_up, disturbed_by};
ghost use Rattle.fault_script.specs.Entries.{fault_value, counted_value, plain_mode};

use crate::script::{Fault, Script};
use guards_base::{Chan, ChanSet, Mode, Slot, set_by, table_by};
use std::marker::Model;

/// What a channel does, with the cycles that it still waits.
#[derive(Clone, Copy)]
enum CountedMode {
    Up,
    Down,
    Waiting(u32),
    Joining,
}

/// The mode of a channel, which contracts see without its representation.
#[derive(Clone, Copy)]
struct LedgerMode {
    counted: CountedMode,
}

impl Model for LedgerMode {
    ghost use Rattle.std.proofs.Common.{ap};
    ghost use Rattle.guards_model.specs.Modes.{ModeValue};
    ghost use Rattle.fault_script.specs.Entries.{counted_value, counted_of, counted_back};

    ghost Value = { ModeValue };

    ghost view = { λ m. counted_value m.counted };

    ghost inverse = { λ mode. record { counted = counted_of mode } };

    ghost inverse_ok = { λ m _. ap (λ counted. record { counted = counted }) (counted_back m.counted) };
}

/// A mode for each channel. That of a channel that the mission does not have is down.
type LedgerModes = [LedgerMode; 7];

/// The mode of each channel and its damage mark, kept through a run.
#[derive(Drop)]
pub struct Ledger {
    return_after: u32,
    modes: LedgerModes,
    damaged: ChanSet,
}

impl Model for Ledger {
    ghost use Rattle.guards_model.specs.Ledgers.{LedgerValue};

    ghost Value = { LedgerValue };

    ghost view = { λ l. record { return_after = l.return_after; modes = l.modes; damaged = l.damaged } };
}

// ---- single entries

fn is_restart(entry: &Fault, channel: u8, cycle: u32) -> bool
    ensures { result ≡ is_restart channel cycle (fault_value entry.now) }
{
    match entry {
        Fault::Restart {
            channel: of,
            cycle: at,
        } => *of == channel && *at == cycle,
        _ => false,
    }
}

fn is_damage(entry: &Fault, channel: u8, cycle: u32) -> bool
    ensures { result ≡ is_damage channel cycle (fault_value entry.now) }
{
    match entry {
        Fault::Damage {
            channel: of,
            cycle: at,
            ..
        } => *of == channel && *at == cycle,
        _ => false,
    }
}

fn is_up_to(slot: Slot, last: Slot) -> bool
    ensures { result ≡ up_to slot last }
{
    slot.index() <= last.index()
}

fn is_crash(entry: &Fault, channel: u8, cycle: u32, slot: Slot) -> bool
    ensures { result ≡ is_crash_by channel cycle slot (fault_value entry.now) }
{
    match entry {
        Fault::Crash {
            channel: of,
            cycle: at,
            slot: first,
        } => *of == channel && *at == cycle && is_up_to(*first, slot),
        _ => false,
    }
}

// ---- what a script says of a channel

fn any_restart(entries: &[Fault], channel: u8, cycle: u32) -> bool
    ensures { result ≡ list_any (λ entry. is_restart channel cycle (fault_value entry)) entries.now }
{
    entries
        .iter()
        .any(|entry| is_restart(entry, channel, cycle))
}

fn any_damage(entries: &[Fault], channel: u8, cycle: u32) -> bool
    ensures { result ≡ list_any (λ entry. is_damage channel cycle (fault_value entry)) entries.now }
{
    entries.iter().any(|entry| is_damage(entry, channel, cycle))
}

fn any_crash(entries: &[Fault], channel: u8, cycle: u32, slot: Slot) -> bool
    ensures { result ≡ list_any (λ entry. is_crash_by channel cycle slot (fault_value entry)) entries.now }
{
    entries
        .iter()
        .any(|entry| is_crash(entry, channel, cycle, slot))
}

fn has_restart(script: &Script, channel: u8, cycle: u32) -> bool
    ensures { result ≡ list_any (is_restart channel cycle) script.now }
{
    any_restart(script.others(), channel, cycle)
}

fn has_damage(script: &Script, channel: u8, cycle: u32) -> bool
    ensures { result ≡ list_any (is_damage channel cycle) script.now }
{
    any_damage(script.others(), channel, cycle)
}

fn has_crash(script: &Script, channel: u8, cycle: u32, slot: Slot) -> bool
    ensures { result ≡ list_any (is_crash_by channel cycle slot) script.now }
{
    any_crash(script.others(), channel, cycle, slot)
}

// ---- single modes

impl CountedMode {
    fn mode(self) -> Mode
        ensures { result ≡ plain_mode (counted_value self) }
    {
        match self {
            CountedMode::Up => Mode::Up,
            CountedMode::Down => Mode::Down,
            CountedMode::Waiting(_) => Mode::Waiting,
            CountedMode::Joining => Mode::Joining,
        }
    }

    fn at_start(self, restarted: bool) -> CountedMode
        ensures { counted_value result ≡ mode_at_start restarted (counted_value self) }
    {
        match self {
            CountedMode::Up => CountedMode::Up,
            CountedMode::Down if restarted => CountedMode::Joining,
            CountedMode::Down => CountedMode::Down,
            CountedMode::Waiting(0) => CountedMode::Joining,
            CountedMode::Waiting(cycles) => CountedMode::Waiting(cycles - 1),
            CountedMode::Joining => CountedMode::Joining,
        }
    }

    fn at_end(self, return_after: u32, switched_on: bool, taken: bool) -> CountedMode
        ensures { counted_value result ≡ mode_at_end return_after switched_on taken (counted_value self) }
    {
        match self {
            CountedMode::Up if switched_on => CountedMode::Up,
            CountedMode::Up => CountedMode::Waiting(return_after),
            CountedMode::Down => CountedMode::Down,
            CountedMode::Waiting(cycles) => CountedMode::Waiting(cycles),
            CountedMode::Joining if taken => CountedMode::Up,
            CountedMode::Joining => CountedMode::Joining,
        }
    }
}

impl LedgerMode {
    fn is_up(self) -> bool
        ensures { result ≡ is_up self }
    {
        matches!(self.counted, CountedMode::Up)
    }

    fn is_down(self) -> bool
        ensures { result ≡ is_down self }
    {
        matches!(self.counted, CountedMode::Down)
    }

    fn is_joining(self) -> bool
        ensures { result ≡ is_joining self }
    {
        matches!(self.counted, CountedMode::Joining)
    }

    fn at_start(self, restarted: bool) -> LedgerMode
        ensures { result ≡ mode_at_start restarted self }
    {
        LedgerMode {
            counted: self.counted.at_start(restarted),
        }
    }

    /// After the crashes of a cycle up to a slot.
    fn crashed_if(self, crashed: bool) -> LedgerMode
        ensures { result ≡ (if crashed then down else self) }
    {
        if crashed {
            LedgerMode {
                counted: CountedMode::Down,
            }
        } else {
            self
        }
    }

    fn at_end(self, return_after: u32, switched_on: bool, taken: bool) -> LedgerMode
        ensures { result ≡ mode_at_end return_after switched_on taken self }
    {
        LedgerMode {
            counted: self.counted.at_end(return_after, switched_on, taken),
        }
    }

    /// Up for a channel of the mission, and else down.
    fn first(is_channel: bool) -> LedgerMode
        ensures { result ≡ (if is_channel then up else down) }
    {
        if is_channel {
            LedgerMode {
                counted: CountedMode::Up,
            }
        } else {
            LedgerMode {
                counted: CountedMode::Down,
            }
        }
    }
}

// ---- the modes of all channels

fn mode_at(modes: &LedgerModes, c: Chan) -> LedgerMode
    ensures { result ≡ place_or modes.now c down }
{
    modes[usize::from(c.index())]
}

/// Up for each channel of so many, and down past them.
fn first_modes(channels: u8) -> LedgerModes
    ensures { result ≡ by_channel (λ q. if nat_lt q channels then up else down) }
{
    table_by(
        |c: Chan| -> LedgerMode
            ensures { result ≡ (if nat_lt c channels then up else down) }
        { LedgerMode::first(c.index() < channels) },
    )
}

/// The modes at a cycle's start.
fn started(before: &LedgerModes, script: &Script, cycle: u32) -> LedgerModes
    ensures { result ≡ by_channel (λ q. scripted_mode_at_start script.now q cycle (place_or before.now q down)) }
{
    table_by(
        |c: Chan| -> LedgerMode
            ensures { result ≡ scripted_mode_at_start script.entry.now c cycle (place_or before.entry.now c down) }
        { mode_at(before, c).at_start(has_restart(script, c.index(), cycle)) },
    )
}

/// The modes in a slot.
fn in_slot(before: &LedgerModes, script: &Script, cycle: u32, slot: Slot) -> LedgerModes
    ensures { result ≡ by_channel (λ q. scripted_mode_in_slot script.now q cycle slot (place_or before.now q down)) }
{
    table_by(
        |c: Chan| -> LedgerMode
            ensures { result ≡ scripted_mode_in_slot script.entry.now c cycle slot (place_or before.entry.now c down) }
        { mode_at(before, c).crashed_if(has_crash(script, c.index(), cycle, slot)) },
    )
}

/// The modes at a cycle's end.
fn ended(before: &LedgerModes, return_after: u32, on: ChanSet, taken: ChanSet) -> LedgerModes
    ensures { result ≡
        by_channel (λ q. mode_at_end return_after (has on q) (has taken q) (place_or before.now q down)) }
{
    table_by(
        |c: Chan| -> LedgerMode
            ensures { result ≡ mode_at_end return_after (has on c) (has taken c) (place_or before.entry.now c down) }
        { mode_at(before, c).at_end(return_after, on.has(c), taken.has(c)) },
    )
}

/// The channels that the script damages in a cycle.
fn damages(script: &Script, cycle: u32) -> ChanSet
    ensures { result ≡ channels_where (λ q. list_any (is_damage q cycle) script.now) }
{
    set_by(
        |c: Chan| -> bool
            ensures { result ≡ list_any (is_damage c cycle) script.entry.now }
        { has_damage(script, c.index(), cycle) },
    )
}

/// The marks after a step: those of the channels that are up and had one or get one.
fn marks(after: &LedgerModes, gets: ChanSet, had: ChanSet) -> ChanSet
    ensures { result ≡ channels_where (λ q. is_up (place_or after.now q down) && (has gets q || has had q)) }
{
    set_by(
        |c: Chan| -> bool
            ensures { result ≡ (is_up (place_or after.entry.now c down) && (has gets c || has had c)) }
        { mode_at(after, c).is_up() && (gets.has(c) || had.has(c)) },
    )
}

/// Who is joining after a step and was not before.
fn who_turned_joining(before: &LedgerModes, after: &LedgerModes) -> ChanSet
    ensures { result ≡
        channels_where (λ q. is_joining (place_or after.now q down) && not (is_joining (place_or before.now q down))) }
{
    set_by(
        |c: Chan| -> bool
            ensures { result ≡
                (is_joining (place_or after.entry.now c down) && not (is_joining (place_or before.entry.now c down))) }
        { mode_at(after, c).is_joining() && !mode_at(before, c).is_joining() },
    )
}

/// Who is down after a step and was not before.
fn who_turned_down(before: &LedgerModes, after: &LedgerModes) -> ChanSet
    ensures { result ≡
        channels_where (λ q. is_down (place_or after.now q down) && not (is_down (place_or before.now q down))) }
{
    set_by(
        |c: Chan| -> bool
            ensures { result ≡
                (is_down (place_or after.entry.now c down) && not (is_down (place_or before.entry.now c down))) }
        { mode_at(after, c).is_down() && !mode_at(before, c).is_down() },
    )
}

/// Who was up before a step and is not after it.
fn who_left_up(before: &LedgerModes, after: &LedgerModes) -> ChanSet
    ensures { result ≡
        channels_where (λ q. is_up (place_or before.now q down) && not (is_up (place_or after.now q down))) }
{
    set_by(
        |c: Chan| -> bool
            ensures { result ≡
                (is_up (place_or before.entry.now c down) && not (is_up (place_or after.entry.now c down))) }
        { mode_at(before, c).is_up() && !mode_at(after, c).is_up() },
    )
}

/// Who of some channels is disturbed, by its mode, its mark and its charge.
fn who_is_disturbed(
    active: ChanSet,
    modes: &LedgerModes,
    marked: ChanSet,
    charged: ChanSet,
) -> ChanSet
    ensures { result ≡ filter (λ q. (not (is_up (place_or modes.now q down)) || has marked q) || has charged q) active }
{
    active.filter(
        |c: Chan| -> bool
            ensures { result ≡ ((not (is_up (place_or modes.entry.now c down)) || has marked c) || has charged c) }
        { !mode_at(modes, c).is_up() || marked.has(c) || charged.has(c) },
    )
}

impl Ledger {
    /// All of so many channels (3 to 7) are up, without a mark. A channel that is switched off waits `return_after`
    /// cycles.
    pub fn first(channels: u8, return_after: u32) -> Ledger
        requires least { 3 ≤ channels }
        requires most { channels ≤ 7 }
        ensures { result ≡ first_ledger channels return_after }
    {
        Ledger {
            return_after,
            modes: first_modes(channels),
            damaged: ChanSet::empty(),
        }
    }

    /// The mode of a channel. A channel that the mission does not have is down.
    pub fn mode(&self, c: Chan) -> Mode
        ensures { result ≡ plain_mode (mode_of self.now c) }
    {
        mode_at(&self.modes, c).counted.mode()
    }

    /// The channels with a damage mark. A mark goes when its channel leaves Up.
    pub fn damaged(&self) -> ChanSet
        ensures { result ≡ self.now.damaged }
    {
        self.damaged
    }

    /// The active channels that are not up, have a damage mark, or are charged.
    pub(crate) fn disturbed(&self, active: ChanSet, charged: ChanSet) -> ChanSet
        ensures { result ≡ disturbed_by active charged self.now }
    {
        who_is_disturbed(active, &self.modes, self.damaged, charged)
    }

    /// Does the restarts and the waiting of a cycle's start, and then its damage marks. Answers who became joining.
    pub fn start_cycle(&mut self, script: &Script, cycle: u32) -> ChanSet
        ensures ledger { self.new ≡ ledger_at_start script.now cycle self.old }
        ensures joining { result ≡ turned_joining self.old self.new }
    {
        let before = self.modes;
        self.modes = started(&before, script, cycle);
        self.damaged = marks(&self.modes, damages(script, cycle), self.damaged);
        who_turned_joining(&before, &self.modes)
    }

    /// Does the crashes of a slot. Answers who became down.
    pub fn start_slot(&mut self, script: &Script, cycle: u32, slot: Slot) -> ChanSet
        ensures ledger { self.new ≡ ledger_in_slot script.now cycle slot self.old }
        ensures down { result ≡ turned_down self.old self.new }
    {
        let before = self.modes;
        self.modes = in_slot(&before, script, cycle, slot);
        self.damaged = marks(&self.modes, ChanSet::empty(), self.damaged);
        who_turned_down(&before, &self.modes)
    }

    /// Ends a cycle, where these channels are switched on and these joining ones took a final content. Answers who
    /// was reset, and waits.
    pub fn end_cycle(&mut self, on: ChanSet, taken: ChanSet) -> ChanSet
        ensures ledger { self.new ≡ ledger_at_end on taken self.old }
        ensures reset { result ≡ left_up self.old self.new }
    {
        let before = self.modes;
        self.modes = ended(&before, self.return_after, on, taken);
        self.damaged = marks(&self.modes, ChanSet::empty(), self.damaged);
        who_left_up(&before, &self.modes)
    }
}
