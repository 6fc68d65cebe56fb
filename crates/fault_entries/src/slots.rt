//! Slots by their names.
ghost use Rattle.std.specs.Prelude.{◌≡◌, Bool, true, IfOk, [], ◌∷◌, ◌++◌, find};
ghost use Rattle.std.specs.List.{list_all};
ghost use Rattle.std.specs.Str.{bytes_eq};
ghost use Rattle.toml.specs.View.{view, table_view};
ghost use Rattle.guards_model.specs.declared.Slot.{Slot};
ghost use Rattle.guards_model.specs.declared.Slot.TheVariants.{Output};
ghost use Rattle.guards_model.specs.Slots.{every_slot, slot_text};
ghost use Rattle.document_checks.specs.Checks.{Gives};
ghost use Rattle.fault_entries.specs.FaultTexts.{slot_at, slot_field, piece_slots};

use document_checks::{Cause, ReadFault, field, refusal, required, text_of};
use guards_base::Slot;
use std::alloc::Global;
use toml::{Table, Value};

/// The slots of a cycle, in which channels crash.
pub const CYCLE_SLOTS: [Slot; 9] = [
    Slot::Request,
    Slot::Round1,
    Slot::Round2,
    Slot::Round3,
    Slot::Tasks,
    Slot::Vote,
    Slot::Sweep,
    Slot::Final,
    Slot::Switch,
];

/// The slots in which pieces are lost or forged.
pub const PIECE_SLOTS: [Slot; 10] = [
    Slot::Request,
    Slot::Round1,
    Slot::Round2,
    Slot::Round3,
    Slot::Tasks,
    Slot::Vote,
    Slot::Sweep,
    Slot::Final,
    Slot::Switch,
    Slot::Output,
];

fn name_of(slot: Slot) -> &'static str
    ensures { result.now ≡ slot_text slot }
{
    match slot {
        Slot::Request => "request",
        Slot::Round1 => "round1",
        Slot::Round2 => "round2",
        Slot::Round3 => "round3",
        Slot::Tasks => "tasks",
        Slot::Vote => "vote",
        Slot::Sweep => "sweep",
        Slot::Final => "final",
        Slot::Switch => "switch",
        Slot::Output => "output",
    }
}

fn slot_named(slots: &[Slot], text: &str) -> Option<Slot>
    ensures { result ≡ find (λ slot. bytes_eq text.now (slot_text slot)) slots.now }
{
    slots.iter().copied().find(|slot| text == name_of(*slot))
}

#[tactic(auto, unfolding(crate::specs::FaultTexts::slot_at))]
fn slot_of(alloc: Global, slots: &[Slot], value: &Value, path: &str) -> Result<Slot, ReadFault>
    ensures exact { Gives (λ slot. slot) result (slot_at slots.now path.now (view value.now)) }
    ensures among { IfOk result (λ slot. (test : Slot → Bool) → list_all test slots.now ≡ true → test slot ≡ true) }
{
    match slot_named(slots, text_of(alloc, value, path)?) {
        Some(slot) => Ok(slot),
        None => Err(refusal(alloc, Cause::Unknown, path)),
    }
}

/// The slot of an entry, one of these.
#[tactic(auto, unfolding(crate::specs::FaultTexts::slot_field))]
pub fn slot_field(
    alloc: Global,
    slots: &[Slot],
    fields: &Table,
    path: &str,
) -> Result<Slot, ReadFault>
    ensures exact { Gives (λ slot. slot) result (slot_field slots.now path.now (table_view fields.now)) }
    ensures among { IfOk result (λ slot. (test : Slot → Bool) → list_all test slots.now ≡ true → test slot ≡ true) }
{
    let value = required(alloc, fields, path, "slot")?;
    slot_of(alloc, slots, value, &field(alloc, path, "slot")?)
}
