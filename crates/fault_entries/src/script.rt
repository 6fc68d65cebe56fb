//! The whole script.
ghost use Rattle.std.specs.Prelude.{◌≡◌, ◌≤◌, true, [], Ok, map, IfOk, IfSome, MatchOption, slice_get, string_bytes};
ghost use Rattle.std.specs.List.{list_all};
ghost use Rattle.toml.specs.View.{view, table_view};
ghost use Rattle.guards_model.specs.ScriptFaults.{script_fault};
ghost use Rattle.fault_script.specs.Entries.{fault_value, is_for_bus};
ghost use Rattle.document_checks.specs.Checks.{Gives, Refuses, field, element};
ghost use Rattle.document_checks.specs.declared.why.Cause.TheVariants.{OutOfRange};
ghost use Rattle.document_checks.specs.declared.why.ReadFault.TheVariants.{Memory};
ghost use Rattle.fault_entries.specs.Entries.{is_entry, broken_rule, FitsSizes};
ghost use Rattle.fault_entries.specs.FaultTexts.{faults_at, channel_key, script_path, kept_script, script_at, script_field};

use crate::entry::FaultReader;
use document_checks::{Cause, ReadFault, array_of, each, element, field, lookup, refusal};
use fault_script::{Fault, Faults, Script, ScriptFault};
use std::alloc::{AllocError, Global};
use toml::{Table, Value};

/// How many channels, cycles and blocks a mission has.
#[derive(Clone, Copy)]
struct Sizes {
    channels: u8,
    cycles: u32,
    blocks: u16,
}

/// Reads the entries.
#[tactic(auto, unfolding(crate::specs::FaultTexts::faults_at))]
fn faults_of(alloc: Global, value: &Value, path: &str) -> Result<Faults, ReadFault>
    ensures exact { Gives (λ faults. map fault_value faults.items) result (faults_at path.now (view value.now)) }
    ensures holds { IfOk result (λ faults. list_all is_entry (map fault_value faults.items) ≡ true) }
{
    let items = array_of(alloc, value, path)?;
    each(alloc, &FaultReader, path, items)
}

fn is_for_bus(entry: &Fault) -> bool
    ensures { result ≡ is_for_bus (fault_value entry.now) }
{
    matches!(entry, Fault::Bus(_))
}

/// Which entries are for the bus, and so have a sender in place of a channel.
fn which_for_bus(alloc: Global, entries: &[Fault]) -> Result<Vec<bool>, AllocError>
    ensures { IfOk result (λ flags. flags.items ≡ map (λ entry. is_for_bus (fault_value entry)) entries.now) }
{
    entries.iter().map(|entry| is_for_bus(entry)).collect(alloc)
}

/// The field of the entry at a place that names its channel.
fn channel_key(for_bus: &[bool], at: u16) -> &'static str
    ensures { result.now ≡ channel_key (slice_get for_bus.now at) }
{
    match for_bus.get(usize::from(at)) {
        Some(true) => "from",
        _ => "channel",
    }
}

/// The path of a field of the entry at a place.
fn entry_path(alloc: Global, path: &str, at: u16, key: &str) -> Result<String, AllocError>
    ensures { IfOk result (λ place. string_bytes place ≡ field (element path.now at) key.now) }
{
    field(alloc, &element(alloc, path, usize::from(at))?, key)
}

/// The path of what a broken rule is about.
fn broken_path(
    alloc: Global,
    fault: ScriptFault,
    for_bus: &[bool],
    path: &str,
) -> Result<String, AllocError>
    ensures { IfOk result (λ place.
        IfSome (broken_rule fault) (λ broken. string_bytes place ≡ script_path path.now for_bus.now broken)) }
{
    match fault {
        ScriptFault::TooMany | ScriptFault::Memory => String::from_str(alloc, path),
        ScriptFault::Cycle { at } => entry_path(alloc, path, at, "cycle"),
        ScriptFault::Channel { at } => entry_path(alloc, path, at, channel_key(for_bus, at)),
        ScriptFault::Block { at } => entry_path(alloc, path, at, "block"),
        ScriptFault::Word { at } => entry_path(alloc, path, at, "word"),
        ScriptFault::To { at } => entry_path(alloc, path, at, "to"),
        ScriptFault::Long { at } => entry_path(alloc, path, at, "bytes"),
    }
}

/// What a fault of the script is answered as.
fn refusal_of(alloc: Global, fault: ScriptFault, for_bus: &[bool], path: &str) -> ReadFault
    ensures { MatchOption (broken_rule fault) (result ≡ Memory)
        (λ broken. Refuses OutOfRange (script_path path.now for_bus.now broken) result) }
{
    if matches!(fault, ScriptFault::Memory) {
        return ReadFault::Memory;
    }
    match broken_path(alloc, fault, for_bus, path) {
        Ok(place) => refusal(alloc, Cause::OutOfRange, &place),
        Err(_) => ReadFault::Memory,
    }
}

/// The script of these entries, or the first rule that it breaks.
fn kept_script(
    alloc: Global,
    entries: Faults,
    sizes: Sizes,
    path: &str,
) -> Result<Script, ReadFault>
    requires least { 3 ≤ sizes.channels }
    requires most { sizes.channels ≤ 7 }
    requires holds { list_all is_entry (map fault_value entries.items) ≡ true }
    ensures exact { Gives (λ script. script) result
        (kept_script path.now (map fault_value entries.items)
        (script_fault sizes.channels sizes.cycles sizes.blocks (map fault_value entries.items))) }
    ensures fits { IfOk result (FitsSizes sizes.channels sizes.cycles sizes.blocks) }
{
    let for_bus = which_for_bus(alloc, entries.as_slice())?;
    match Script::new(alloc, entries, sizes.channels, sizes.cycles, sizes.blocks) {
        Ok(script) => Ok(script),
        Err(fault) => Err(refusal_of(alloc, fault, for_bus.as_slice(), path)),
    }
}

#[tactic(auto, unfolding(crate::specs::FaultTexts::script_at))]
fn script_at(alloc: Global, value: &Value, sizes: Sizes, path: &str) -> Result<Script, ReadFault>
    requires least { 3 ≤ sizes.channels }
    requires most { sizes.channels ≤ 7 }
    ensures fits { IfOk result (FitsSizes sizes.channels sizes.cycles sizes.blocks) }
    ensures exact { Gives (λ script. script) result
        (script_at sizes.channels sizes.cycles sizes.blocks path.now (view value.now)) }
{
    let entries = faults_of(alloc, value, path)?;
    kept_script(alloc, entries, sizes, path)
}

/// The script without entries.
fn empty_script(alloc: Global, sizes: Sizes) -> Result<Script, ReadFault>
    requires least { 3 ≤ sizes.channels }
    requires most { sizes.channels ≤ 7 }
    ensures fits { IfOk result (FitsSizes sizes.channels sizes.cycles sizes.blocks) }
    ensures exact { Gives (λ script. script) result (Ok []) }
{
    kept_script(alloc, Faults::new(alloc), sizes, "fault")
}

/// Reads the key `fault` of a mission's document: the entries of its script in order, up to the first check that fails,
/// and then the script's own rules. Without this key the script is empty.
///
/// The mission has 3 to 7 channels, and so many cycles and blocks.
#[tactic(auto, unfolding(crate::specs::FaultTexts::script_field))]
pub fn script_of(
    alloc: Global,
    fields: &Table,
    channels: u8,
    cycles: u32,
    blocks: u16,
) -> Result<Script, ReadFault>
    requires least { 3 ≤ channels }
    requires most { channels ≤ 7 }
    ensures fits { IfOk result (FitsSizes channels cycles blocks) }
    ensures exact { Gives (λ script. script) result (script_field channels cycles blocks (table_view fields.now)) }
{
    let sizes = Sizes {
        channels,
        cycles,
        blocks,
    };
    match lookup(fields, "fault") {
        Some(value) => script_at(alloc, value, sizes, "fault"),
        None => empty_script(alloc, sizes),
    }
}
