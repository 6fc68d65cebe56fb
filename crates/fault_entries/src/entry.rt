//! Entries, by their kind.
ghost use Rattle.std.specs.Prelude.{◌≡◌, true, IfOk};
ghost use Rattle.toml.specs.View.{view, table_view};
ghost use Rattle.fault_script.specs.Entries.{fault_value};
ghost use Rattle.document_checks.specs.Checks.{Gives};
ghost use Rattle.fault_entries.specs.Entries.{is_entry};
ghost use Rattle.fault_entries.specs.FaultTexts.{crash_at, restart_at, damage_at, lose_at, forge_at, fault_of_kind, fault_at};

use crate::fields::{
    byte_field, cycle_field, piece_field, receiver_field, sender_field, value_field,
};
use crate::slots::{CYCLE_SLOTS, PIECE_SLOTS, slot_field};
use document_checks::{
    Cause, ElementReader, ReadFault, field, only, refusal, required, table_of, text_of,
};
use fault_script::Fault;
use icn_bus::{Act, Rule};
use std::alloc::Global;
use toml::{Table, Value};

const CRASH_KEYS: [&str; 4] = ["kind", "cycle", "slot", "channel"];

const RESTART_KEYS: [&str; 3] = ["kind", "cycle", "channel"];

const DAMAGE_KEYS: [&str; 6] = ["kind", "cycle", "channel", "block", "word", "value"];

const LOSE_KEYS: [&str; 5] = ["kind", "cycle", "slot", "from", "to"];

const FORGE_KEYS: [&str; 6] = ["kind", "cycle", "slot", "from", "to", "bytes"];

#[tactic(auto, unfolding(crate::specs::FaultTexts::crash_at))]
fn crash_of(alloc: Global, fields: &Table, path: &str) -> Result<Fault, ReadFault>
    ensures exact { Gives fault_value result (crash_at path.now (table_view fields.now)) }
    ensures holds { IfOk result (λ fault. is_entry (fault_value fault) ≡ true) }
{
    only(alloc, &CRASH_KEYS, path, fields)?;
    let cycle = cycle_field(alloc, fields, path)?;
    let slot = slot_field(alloc, &CYCLE_SLOTS, fields, path)?;
    let channel = byte_field(alloc, fields, path, "channel")?;
    Ok(Fault::Crash {
        channel,
        cycle,
        slot,
    })
}

#[tactic(auto, unfolding(crate::specs::FaultTexts::restart_at))]
fn restart_of(alloc: Global, fields: &Table, path: &str) -> Result<Fault, ReadFault>
    ensures exact { Gives fault_value result (restart_at path.now (table_view fields.now)) }
    ensures holds { IfOk result (λ fault. is_entry (fault_value fault) ≡ true) }
{
    only(alloc, &RESTART_KEYS, path, fields)?;
    let cycle = cycle_field(alloc, fields, path)?;
    let channel = byte_field(alloc, fields, path, "channel")?;
    Ok(Fault::Restart { channel, cycle })
}

#[tactic(auto, unfolding(crate::specs::FaultTexts::damage_at))]
fn damage_of(alloc: Global, fields: &Table, path: &str) -> Result<Fault, ReadFault>
    ensures exact { Gives fault_value result (damage_at path.now (table_view fields.now)) }
    ensures holds { IfOk result (λ fault. is_entry (fault_value fault) ≡ true) }
{
    only(alloc, &DAMAGE_KEYS, path, fields)?;
    let cycle = cycle_field(alloc, fields, path)?;
    let channel = byte_field(alloc, fields, path, "channel")?;
    let block = byte_field(alloc, fields, path, "block")?;
    let word = byte_field(alloc, fields, path, "word")?;
    let value = value_field(alloc, fields, path)?;
    Ok(Fault::Damage {
        channel,
        cycle,
        block,
        word,
        value,
    })
}

#[tactic(auto, unfolding(crate::specs::FaultTexts::lose_at))]
fn lose_of(alloc: Global, fields: &Table, path: &str) -> Result<Fault, ReadFault>
    ensures exact { Gives fault_value result (lose_at path.now (table_view fields.now)) }
    ensures holds { IfOk result (λ fault. is_entry (fault_value fault) ≡ true) }
{
    only(alloc, &LOSE_KEYS, path, fields)?;
    let cycle = cycle_field(alloc, fields, path)?;
    let slot = slot_field(alloc, &PIECE_SLOTS, fields, path)?;
    let from = sender_field(alloc, fields, path)?;
    let to = receiver_field(alloc, fields, path)?;
    Ok(Fault::Bus(Rule {
        cycle,
        slot,
        from,
        to,
        act: Act::Lose,
    }))
}

#[tactic(auto, unfolding(crate::specs::FaultTexts::forge_at))]
fn forge_of(alloc: Global, fields: &Table, path: &str) -> Result<Fault, ReadFault>
    ensures exact { Gives fault_value result (forge_at path.now (table_view fields.now)) }
    ensures holds { IfOk result (λ fault. is_entry (fault_value fault) ≡ true) }
{
    only(alloc, &FORGE_KEYS, path, fields)?;
    let cycle = cycle_field(alloc, fields, path)?;
    let slot = slot_field(alloc, &PIECE_SLOTS, fields, path)?;
    let from = sender_field(alloc, fields, path)?;
    let to = receiver_field(alloc, fields, path)?;
    let piece = piece_field(alloc, fields, path)?;
    Ok(Fault::Bus(Rule {
        cycle,
        slot,
        from,
        to,
        act: Act::Forge(piece),
    }))
}

fn fault_of_kind(alloc: Global, kind: &str, fields: &Table, path: &str) -> Result<Fault, ReadFault>
    ensures exact { Gives fault_value result (fault_of_kind kind.now path.now (table_view fields.now)) }
    ensures holds { IfOk result (λ fault. is_entry (fault_value fault) ≡ true) }
{
    match kind {
        "crash" => crash_of(alloc, fields, path),
        "restart" => restart_of(alloc, fields, path),
        "damage" => damage_of(alloc, fields, path),
        "lose" => lose_of(alloc, fields, path),
        "forge" => forge_of(alloc, fields, path),
        _ => Err(refusal(alloc, Cause::Unknown, &field(alloc, path, "kind")?)),
    }
}

#[tactic(auto, unfolding(crate::specs::FaultTexts::fault_at))]
fn fault_of(alloc: Global, value: &Value, path: &str) -> Result<Fault, ReadFault>
    ensures exact { Gives fault_value result (fault_at path.now (view value.now)) }
    ensures holds { IfOk result (λ fault. is_entry (fault_value fault) ≡ true) }
{
    let fields = table_of(alloc, value, path)?;
    let given = required(alloc, fields, path, "kind")?;
    let kind = text_of(alloc, given, &field(alloc, path, "kind")?)?;
    fault_of_kind(alloc, kind, fields, path)
}

/// Reads the entries of a script.
pub struct FaultReader;

impl ElementReader for FaultReader {
    ghost use Rattle.guards_model.specs.Faults.{FaultValue};
    ghost use Rattle.fault_script.specs.Entries.{fault_value};
    ghost use Rattle.document_checks.specs.Checks.{alone};
    ghost use Rattle.fault_entries.specs.Entries.{is_entry};
    ghost use Rattle.fault_entries.specs.FaultTexts.{fault_at};

    type Element = Fault;

    ghost Meaning = { FaultValue };

    ghost meaning = { λ _ fault. fault_value fault };

    ghost check = { λ _. alone fault_at };

    ghost holds = { λ _ fault. is_entry (fault_value fault) };

    fn read(
        &self,
        alloc: Global,
        _earlier: &[Fault],
        path: &str,
        value: &Value,
    ) -> Result<Fault, ReadFault> {
        fault_of(alloc, value, path)
    }
}
