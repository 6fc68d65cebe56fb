//! The kinds of faults, and what a script says of a channel and of its first cycles.
ghost use Rattle.std.specs.Prelude.{◌≡◌, ◌&&◌, ◌||◌, nat_lt, count_by};
ghost use Rattle.std.specs.List.{list_any};
ghost use Rattle.guards_model.specs.Faults.{bus};
ghost use Rattle.icn_bus.specs.Acts.{act_value};
ghost use Rattle.fault_script.specs.Entries.{fault_value};
ghost use Rattle.campaign_facts.specs.Facts.{fault_cycle, is_act, is_kind, is_named, is_named_by, kind_count, named_channel, names};

use fault_script::{Fault, Script};
use icn_bus::{Act, Rule};

/// A kind of fault.
#[derive(Clone, Copy, Debug, PartialEq, Eq)]
pub enum Kind {
    Crash,
    Restart,
    Damage,
    Loss,
    Forgery,
}

fn is_act(kind: Kind, act: &Act) -> bool
    ensures { result ≡ is_act kind (act_value act.now) }
{
    match act {
        Act::Lose => matches!(kind, Kind::Loss),
        Act::Forge(_) => matches!(kind, Kind::Forgery),
    }
}

fn is_kind(kind: Kind, entry: &Fault) -> bool
    ensures { result ≡ is_kind kind (fault_value entry.now) }
{
    match entry {
        Fault::Crash { .. } => matches!(kind, Kind::Crash),
        Fault::Restart { .. } => matches!(kind, Kind::Restart),
        Fault::Damage { .. } => matches!(kind, Kind::Damage),
        Fault::Bus(rule) => is_act(kind, &rule.act),
    }
}

/// The cycle of an entry.
fn fault_cycle(entry: &Fault) -> u32
    ensures { result ≡ fault_cycle (fault_value entry.now) }
{
    match entry {
        Fault::Crash { cycle, .. } => *cycle,
        Fault::Restart { cycle, .. } => *cycle,
        Fault::Damage { cycle, .. } => *cycle,
        Fault::Bus(rule) => rule.cycle,
    }
}

/// The channel that an entry names as its own or as the sender.
fn named_channel(entry: &Fault) -> u8
    ensures { result ≡ named_channel (fault_value entry.now) }
{
    match entry {
        Fault::Crash { channel, .. } => *channel,
        Fault::Restart { channel, .. } => *channel,
        Fault::Damage { channel, .. } => *channel,
        Fault::Bus(rule) => rule.from.index(),
    }
}

fn names(entry: &Fault, channel: u8, first: u32, last: u32) -> bool
    ensures { result ≡ names channel first last (fault_value entry.now) }
{
    let cycle = fault_cycle(entry);
    named_channel(entry) == channel && (first <= cycle && cycle <= last)
}

fn rule_names(rule: &Rule, channel: u8, first: u32, last: u32) -> bool
    ensures { result ≡ names channel first last (bus rule.now) }
{
    rule.from.index() == channel && (first <= rule.cycle && rule.cycle <= last)
}

fn others_name(entries: &[Fault], channel: u8, first: u32, last: u32) -> bool
    ensures { result ≡ list_any (λ entry. names channel first last (fault_value entry)) entries.now }
{
    entries
        .iter()
        .any(|entry| names(entry, channel, first, last))
}

fn rules_name(rules: &[Rule], channel: u8, first: u32, last: u32) -> bool
    ensures { result ≡ list_any (λ rule. names channel first last (bus rule)) rules.now }
{
    rules
        .iter()
        .any(|rule| rule_names(rule, channel, first, last))
}

fn either(first: bool, second: bool) -> bool
    ensures { result ≡ (first || second) }
{
    first || second
}

/// Whether some entry names the channel, as its own or as a sender, in one of these cycles.
pub fn is_named(script: &Script, channel: u8, first: u32, last: u32) -> bool
    ensures { result ≡ is_named script.now channel first last }
{
    let by_other = others_name(script.others(), channel, first, last);
    let by_rule = rules_name(script.rules(), channel, first, last);
    either(by_other, by_rule)
}

fn others_name_by(kind: Kind, entries: &[Fault], channel: u8, first: u32, last: u32) -> bool
    ensures { result ≡ list_any
        (λ entry. is_kind kind (fault_value entry) && names channel first last (fault_value entry)) entries.now }
{
    entries.iter().any(|entry| is_kind(kind, entry) && names(entry, channel, first, last))
}

fn rules_name_by(kind: Kind, rules: &[Rule], channel: u8, first: u32, last: u32) -> bool
    ensures { result ≡ list_any (λ rule. is_kind kind (bus rule) && names channel first last (bus rule)) rules.now }
{
    rules.iter().any(|rule| is_act(kind, &rule.act) && rule_names(rule, channel, first, last))
}

/// Whether some entry of this kind does.
pub fn is_named_by(kind: Kind, script: &Script, channel: u8, first: u32, last: u32) -> bool
    ensures { result ≡ is_named_by kind script.now channel first last }
{
    let by_other = others_name_by(kind, script.others(), channel, first, last);
    let by_rule = rules_name_by(kind, script.rules(), channel, first, last);
    either(by_other, by_rule)
}

fn others_count(kind: Kind, entries: &[Fault], cycles: u32) -> usize
    ensures { result ≡ count_by
        (λ entry. is_kind kind (fault_value entry) && nat_lt (fault_cycle (fault_value entry)) cycles) entries.now }
{
    entries
        .iter()
        .filter(|entry| is_kind(kind, entry) && fault_cycle(entry) < cycles)
        .count()
}

fn rules_count(kind: Kind, rules: &[Rule], cycles: u32) -> usize
    ensures { result ≡ count_by (λ rule. is_kind kind (bus rule) && nat_lt (fault_cycle (bus rule)) cycles) rules.now }
{
    rules
        .iter()
        .filter(|rule| is_act(kind, &rule.act) && rule.cycle < cycles)
        .count()
}

/// How many entries of a kind the script has in the first cycles.
pub fn kind_count(kind: Kind, script: &Script, cycles: u32) -> u64
    ensures { result ≡ kind_count kind script.now cycles }
{
    let others = others_count(kind, script.others(), cycles);
    let rules = rules_count(kind, script.rules(), cycles);
    others as u64 + rules as u64
}
