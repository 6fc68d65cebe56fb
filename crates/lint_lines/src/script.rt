//! The lines on the script of faults.
ghost use Rattle.std.specs.Prelude.{◌≡◌, ◌≤◌, ◌+◌, ◌++◌, ◌||◌, ◌&&◌, ◌∷◌, [], not, flat_map, is_some, length, OnOk, if◌then◌else◌};
ghost use Rattle.std.specs.List.{list_any};
ghost use Rattle.guards_model.specs.Channels.{numbers_below, tolerated_faults};
ghost use Rattle.guards_model.specs.Modes.{is_restart};
ghost use Rattle.fault_script.specs.Entries.{fault_value};
ghost use Rattle.lint_lines.specs.declared.line.LintLine.TheVariants as line;
ghost use Rattle.lint_lines.specs.LineLists.{option_list};
ghost use Rattle.lint_lines.specs.ScriptLines.{crowded_line, harms, idle_entry, idle_rule, is_crash_in, is_down_before, is_named, is_rule_for, is_to_address, is_to_channels, may_carry, named_in, script_lines};

use crate::line::{Lines, LintLine, push_line};
use fault_script::{Fault, Script};
use guards_model::Slot;
use icn_bus::Rule;
use mission_type::Mission;
use std::alloc::AllocError;

// ---- single entries

fn harms(entry: &Fault, channel: u8, cycle: u32) -> bool
    ensures { result ≡ harms channel cycle (fault_value entry.now) }
{
    match entry {
        Fault::Crash {
            channel: of,
            cycle: at,
            ..
        } => *of == channel && *at == cycle,
        Fault::Damage {
            channel: of,
            cycle: at,
            ..
        } => *of == channel && *at == cycle,
        _ => false,
    }
}

fn is_crash(entry: &Fault, channel: u8, cycle: u32) -> bool
    ensures { result ≡ is_crash_in channel cycle (fault_value entry.now) }
{
    match entry {
        Fault::Crash {
            channel: of,
            cycle: at,
            ..
        } => *of == channel && *at == cycle,
        _ => false,
    }
}

fn is_restart(entry: &Fault, channel: u8, cycle: u32) -> bool
    ensures { result ≡ is_restart channel cycle (fault_value entry.now) }
{
    match entry {
        Fault::Restart {
            channel: of,
            cycle: at,
        } => *of == channel && *at == cycle,
        _ => false,
    }
}

fn is_rule_for(rule: &Rule, channel: u8, cycle: u32) -> bool
    ensures { result ≡ is_rule_for channel cycle rule.now }
{
    rule.from.index() == channel && rule.cycle == cycle
}

// ---- what a script says of a channel

fn any_harm(entries: &[Fault], channel: u8, cycle: u32) -> bool
    ensures { result ≡ list_any (λ entry. harms channel cycle (fault_value entry)) entries.now }
{
    entries.iter().any(|entry| harms(entry, channel, cycle))
}

fn any_crash(entries: &[Fault], channel: u8, cycle: u32) -> bool
    ensures { result ≡ list_any (λ entry. is_crash_in channel cycle (fault_value entry)) entries.now }
{
    entries.iter().any(|entry| is_crash(entry, channel, cycle))
}

fn any_restart(entries: &[Fault], channel: u8, cycle: u32) -> bool
    ensures { result ≡ list_any (λ entry. is_restart channel cycle (fault_value entry)) entries.now }
{
    entries
        .iter()
        .any(|entry| is_restart(entry, channel, cycle))
}

fn any_rule(rules: &[Rule], channel: u8, cycle: u32) -> bool
    ensures { result ≡ list_any (is_rule_for channel cycle) rules.now }
{
    rules.iter().any(|rule| is_rule_for(rule, channel, cycle))
}

fn has_harm(script: &Script, channel: u8, cycle: u32) -> bool
    ensures { result ≡ list_any (harms channel cycle) script.now }
{
    any_harm(script.others(), channel, cycle)
}

fn has_crash(script: &Script, channel: u8, cycle: u32) -> bool
    ensures { result ≡ list_any (is_crash_in channel cycle) script.now }
{
    any_crash(script.others(), channel, cycle)
}

fn has_restart(script: &Script, channel: u8, cycle: u32) -> bool
    ensures { result ≡ list_any (is_restart channel cycle) script.now }
{
    any_restart(script.others(), channel, cycle)
}

// ---- cycles in which the script names many channels

fn is_named(script: &Script, cycle: u32, channel: u8) -> bool
    ensures { result ≡ is_named script.now cycle channel }
{
    has_harm(script, channel, cycle) || any_rule(script.rules(), channel, cycle)
}

fn one_if(named: bool) -> u8
    ensures { result ≡ (if named then 1 else 0) }
{
    if named { 1 } else { 0 }
}

/// How many channels the script names in a cycle.
fn count_named(script: &Script, channels: u8, cycle: u32) -> u8
    requires { channels ≤ 7 }
    ensures count { result ≡ length (named_in channels script.now cycle) }
    ensures few { result ≤ 7 }
{
    let mut count = 0;
    for channel in 0..channels {
        count += one_if(is_named(script, cycle, channel));
    }
    count
}

/// The line on a cycle, if the script names many channels in it.
fn crowded_line(script: &Script, channels: u8, cycle: u32) -> Option<LintLine>
    requires { channels ≤ 7 }
    ensures { option_list result ≡ crowded_line channels script.now cycle }
{
    let count = count_named(script, channels, cycle);
    if channels <= 3 * count {
        Some(LintLine::CrowdedCycle {
            cycle,
            count,
            channels,
        })
    } else {
        None
    }
}

fn push_crowded(
    script: &Script,
    channels: u8,
    cycles: u32,
    lines: &mut Lines,
) -> Result<(), AllocError>
    requires { channels ≤ 7 }
    ensures { OnOk result (lines.new.items ≡ lines.old.items
        ++ flat_map (crowded_line channels script.now) (numbers_below cycles)) }
{
    for cycle in 0..cycles {
        push_line(crowded_line(script, channels, cycle), lines)?;
    }
    Ok(())
}

// ---- entries without effect

/// Whether the channel is down at the end of a cycle, before which it was down or not.
fn is_down_after(script: &Script, channel: u8, cycle: u32, down: bool) -> bool
    ensures { result ≡ (list_any (is_crash_in channel cycle) script.now
        || (down && not (list_any (is_restart channel cycle) script.now))) }
{
    has_crash(script, channel, cycle) || (down && !has_restart(script, channel, cycle))
}

/// Whether the channel is down at the end of the cycle before.
fn is_down_before(script: &Script, channel: u8, cycle: u32) -> bool
    ensures { result ≡ is_down_before script.now channel cycle }
{
    let mut down = false;
    for before in 0..cycle {
        down = is_down_after(script, channel, before, down);
    }
    down
}

/// Whether the channel is down before a cycle and is not restarted in it.
fn stays_down(script: &Script, channel: u8, cycle: u32) -> bool
    ensures { result ≡ (is_down_before script.now channel cycle
        && not (list_any (is_restart channel cycle) script.now)) }
{
    is_down_before(script, channel, cycle) && !has_restart(script, channel, cycle)
}

/// The line on a crash of a channel that is down.
fn crash_line(script: &Script, channel: u8, cycle: u32) -> Option<LintLine>
    ensures { option_list result
        ≡ (if is_down_before script.now channel cycle && not (list_any (is_restart channel cycle) script.now)
        then line.IdleCrash channel cycle ∷ [] else []) }
{
    if stays_down(script, channel, cycle) {
        Some(LintLine::IdleCrash { channel, cycle })
    } else {
        None
    }
}

/// The line on an entry that is not for the bus, if it has no effect.
fn idle_entry(script: &Script, entry: &Fault) -> Option<LintLine>
    ensures { option_list result ≡ idle_entry script.now (fault_value entry.now) }
{
    match entry {
        Fault::Restart { channel, cycle } => {
            let (channel, cycle) = (*channel, *cycle);
            if is_down_before(script, channel, cycle) {
                None
            } else {
                Some(LintLine::IdleRestart { channel, cycle })
            }
        }
        Fault::Crash { channel, cycle, .. } => crash_line(script, *channel, *cycle),
        Fault::Damage { channel, cycle, .. } => {
            let (channel, cycle) = (*channel, *cycle);
            if is_down_before(script, channel, cycle) {
                Some(LintLine::IdleDamage { channel, cycle })
            } else {
                None
            }
        }
        Fault::Bus(_) => None,
    }
}

fn push_idle_entries(
    script: &Script,
    entries: &[Fault],
    lines: &mut Lines,
) -> Result<(), AllocError>
    ensures { OnOk result (lines.new.items ≡ lines.old.items
        ++ flat_map (λ entry. idle_entry script.now (fault_value entry)) entries.now) }
{
    for entry in entries.iter() {
        push_line(idle_entry(script, entry), lines)?;
    }
    Ok(())
}

fn is_to_channels(channels: u8, to: Option<u8>) -> bool
    ensures { result ≡ is_to_channels channels to }
{
    match to {
        None => true,
        Some(to) => to < channels,
    }
}

fn is_to_address(address: u8, to: Option<u8>) -> bool
    ensures { result ≡ is_to_address address to }
{
    match to {
        None => true,
        Some(to) => to == address,
    }
}

/// Whether frames to the receiver may be carried in the slot.
fn may_carry(channels: u8, rounds: u8, drives: bool, slot: Slot, to: Option<u8>) -> bool
    ensures { result ≡ may_carry channels rounds drives slot to }
{
    match slot {
        Slot::Request | Slot::Vote | Slot::Sweep | Slot::Final => is_to_channels(channels, to),
        Slot::Round1 => 1 <= rounds && is_to_channels(channels, to),
        Slot::Round2 => 2 <= rounds && is_to_channels(channels, to),
        Slot::Round3 => 3 <= rounds && is_to_channels(channels, to),
        Slot::Tasks => false,
        Slot::Switch => is_to_address(7, to),
        Slot::Output => drives && is_to_address(8, to),
    }
}

/// The line on a rule for the bus, if it has no effect.
fn idle_rule(channels: u8, rounds: u8, drives: bool, rule: &Rule) -> Option<LintLine>
    ensures { option_list result ≡ idle_rule channels rounds drives rule.now }
{
    if may_carry(channels, rounds, drives, rule.slot, rule.to) {
        None
    } else {
        Some(LintLine::IdleRule {
            from: rule.from.index(),
            cycle: rule.cycle,
            slot: rule.slot,
        })
    }
}

fn push_idle_rules(
    channels: u8,
    rounds: u8,
    drives: bool,
    rules: &[Rule],
    lines: &mut Lines,
) -> Result<(), AllocError>
    ensures { OnOk result (lines.new.items ≡ lines.old.items ++ flat_map (idle_rule channels rounds drives) rules.now) }
{
    for rule in rules.iter() {
        push_line(idle_rule(channels, rounds, drives, rule), lines)?;
    }
    Ok(())
}

fn has_actuator(mission: &Mission) -> bool
    ensures { result ≡ is_some mission.now.actuator }
{
    mission.actuator().is_some()
}

/// How many rounds a cycle has at most.
fn rounds_of(channels: u8) -> u8
    requires { 1 ≤ channels }
    ensures { result ≡ tolerated_faults (numbers_below channels) + 1 }
{
    (channels - 1) / 3 + 1
}

/// Appends the lines on the script: the cycles in which it names many channels, and the entries without effect.
pub fn push_script_lines(mission: &Mission, lines: &mut Lines) -> Result<(), AllocError>
    ensures { OnOk result (lines.new.items ≡ lines.old.items ++ script_lines mission.now) }
{
    mission.prove_sizes();
    let channels = channels_of(mission);
    let script = mission.script();
    push_crowded(script, channels, mission.cycles(), lines)?;
    push_idle_entries(script, script.others(), lines)?;
    let rounds = rounds_of(channels);
    let drives = has_actuator(mission);
    push_idle_rules(channels, rounds, drives, script.rules(), lines)?;
    Ok(())
}

fn channels_of(mission: &Mission) -> u8
    ensures { result ≡ mission.now.rules.channels }
{
    mission.rules().channels
}
