//! The entries of a script as they stand in a mission's document.
#![tactic(auto)]

ghost use Rattle.std.specs.Prelude.{◌≡◌, map, string_bytes, IfOk};
ghost use Rattle.fault_script.specs.Entries.{fault_value};
ghost use Rattle.guards_model.specs.Faults.{bus};
ghost use Rattle.script_text.specs.ScriptTexts.{crash_text, damage_text, entry_text, forge_text, lose_text, receiver_text, restart_text, rule_text, script_text};

use fault_script::Fault;
use guards_base::Slot;
use icn_bus::{Act, Rule};
use std::alloc::{AllocError, Global};

mod slots;

use slots::slot_text;

#[tactic(auto, unfolding(crate::specs::ScriptTexts::crash_text))]
fn crash_text(alloc: Global, channel: u8, cycle: u32, slot: Slot) -> Result<String, AllocError>
    ensures { IfOk result (λ text. string_bytes text ≡ crash_text channel cycle slot) }
{
    let name = slot_text(slot);
    format!(in alloc;
        "[[fault]]\nkind = \"crash\"\ncycle = {cycle}\nslot = \"{name}\"\nchannel = {channel}\n"
    )
}

#[tactic(auto, unfolding(crate::specs::ScriptTexts::restart_text))]
fn restart_text(alloc: Global, channel: u8, cycle: u32) -> Result<String, AllocError>
    ensures { IfOk result (λ text. string_bytes text ≡ restart_text channel cycle) }
{
    format!(in alloc; "[[fault]]\nkind = \"restart\"\ncycle = {cycle}\nchannel = {channel}\n")
}

#[tactic(auto, unfolding(crate::specs::ScriptTexts::damage_text))]
fn damage_text(
    alloc: Global,
    channel: u8,
    cycle: u32,
    block: u8,
    word: u8,
    value: i64,
) -> Result<String, AllocError>
    ensures { IfOk result (λ text. string_bytes text ≡ damage_text channel cycle block word value) }
{
    format!(in alloc;
        "[[fault]]\nkind = \"damage\"\ncycle = {cycle}\nchannel = {channel}\nblock = {block}\nword = {word}\nvalue = {value}\n"
    )
}

/// The line of the receiver, if there is just one.
#[tactic(auto, unfolding(crate::specs::ScriptTexts::receiver_text))]
fn receiver_text(alloc: Global, to: Option<u8>) -> Result<String, AllocError>
    ensures { IfOk result (λ text. string_bytes text ≡ receiver_text to) }
{
    match to {
        None => Ok(String::new(alloc)),
        Some(to) => format!(in alloc; "to = {to}\n"),
    }
}

#[tactic(auto, unfolding(crate::specs::ScriptTexts::lose_text))]
fn lose_text(
    alloc: Global,
    cycle: u32,
    slot: Slot,
    from: u8,
    to: Option<u8>,
) -> Result<String, AllocError>
    ensures { IfOk result (λ text. string_bytes text ≡ lose_text cycle slot from to) }
{
    let name = slot_text(slot);
    let receiver = receiver_text(alloc, to)?;
    format!(in alloc;
        "[[fault]]\nkind = \"lose\"\ncycle = {cycle}\nslot = \"{name}\"\nfrom = {from}\n{receiver}"
    )
}

#[tactic(auto, unfolding(crate::specs::ScriptTexts::forge_text))]
fn forge_text(
    alloc: Global,
    cycle: u32,
    slot: Slot,
    from: u8,
    to: Option<u8>,
    piece: &[u8],
) -> Result<String, AllocError>
    ensures { IfOk result (λ text. string_bytes text ≡ forge_text cycle slot from to piece.now) }
{
    let name = slot_text(slot);
    let receiver = receiver_text(alloc, to)?;
    let digits = hex::encode(alloc, piece)?;
    format!(in alloc;
        "[[fault]]\nkind = \"forge\"\ncycle = {cycle}\nslot = \"{name}\"\nfrom = {from}\n{receiver}bytes = \"{digits}\"\n"
    )
}

fn rule_text(alloc: Global, rule: &Rule) -> Result<String, AllocError>
    ensures { IfOk result (λ text. string_bytes text ≡ rule_text rule.now) }
{
    let from = rule.from.index();
    match &rule.act {
        Act::Lose => lose_text(alloc, rule.cycle, rule.slot, from, rule.to),
        Act::Forge(piece) => {
            forge_text(
                alloc,
                rule.cycle,
                rule.slot,
                from,
                rule.to,
                piece.as_slice(),
            )
        }
    }
}

fn entry_text(alloc: Global, entry: &Fault) -> Result<String, AllocError>
    ensures { IfOk result (λ text. string_bytes text ≡ entry_text (fault_value entry.now)) }
{
    match entry {
        Fault::Crash {
            channel,
            cycle,
            slot,
        } => crash_text(alloc, *channel, *cycle, *slot),
        Fault::Restart { channel, cycle } => restart_text(alloc, *channel, *cycle),
        Fault::Damage {
            channel,
            cycle,
            block,
            word,
            value,
        } => damage_text(alloc, *channel, *cycle, *block, *word, *value),
        Fault::Bus(rule) => rule_text(alloc, rule),
    }
}

/// The entries in order, each a table of the key `fault`.
pub fn script_text(alloc: Global, entries: &[Fault]) -> Result<String, AllocError>
    ensures { IfOk result (λ text. string_bytes text ≡ script_text (map fault_value entries.now)) }
{
    let mut text = String::new(alloc);
    for entry in entries {
        text.push_str(&entry_text(alloc, entry)?)?;
    }
    Ok(text)
}
