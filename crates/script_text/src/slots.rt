//! The names of slots.
ghost use Rattle.std.specs.Prelude.{◌≡◌};
ghost use Rattle.guards_model.specs.Slots.{slot_text};

use guards_base::Slot;

/// The name of a slot.
pub(crate) fn slot_text(slot: Slot) -> &'static str
    ensures { result.now ≡ slot_text slot }
{
    match slot {
        Slot::Request => "request",
        Slot::Round1 => "round1",
        Slot::Round2 => "round2",
        Slot::Round3 => "round3",
        Slot::Tasks => "tasks",
        Slot::Vote => "vote",
        Slot::Sweep => "sweep",
        Slot::Final => "final",
        Slot::Switch => "switch",
        Slot::Output => "output",
    }
}
