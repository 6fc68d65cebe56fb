//! The line of a stop, which no trace has.
ghost use Rattle.std.specs.Prelude.{◌≡◌, true, List, ◌∷◌, IfOk};
ghost use Rattle.std.specs.List.{join_with_byte};
ghost use Rattle.guards_model.specs.declared.Slot.{Slot};
ghost use Rattle.guards_model.specs.Slots.{slot_text};
ghost use Rattle.guards_model.specs.Texts.{TextValue, StopValue, stop_line};
ghost use Rattle.guards_audit.specs.Lines.{is_form, stop_told};
ghost use Rattle.run_audit.specs.Pieces.{lacks};
ghost use Rattle.run_audit.specs.Values.{fields};
ghost use Rattle.report_story.specs.Stops.{ReadsStop, story_stop};

use guards_base::{ChanSet, Slot, Text};
use report_text::write_stop;
use run_audit::pieces::{number, piece, set};
use std::alloc::{AllocError, Global};
use std::str;

/// What the line of a stop says: its cycle and slot, who was disturbed, and who was active.
#[derive(Clone, Copy)]
pub struct StopLine {
    pub cycle: u32,
    pub slot: Slot,
    pub set: ChanSet,
    pub active: ChanSet,
}

/// The field after a label, and what follows it.
fn labelled<'a>(text: &'a str) -> (&'a str, &'a str)
    ensures { (label first : TextValue) (rest : List TextValue) → lacks 32 label ≡ true → lacks 32 first ≡ true →
        text.now ≡ join_with_byte 32 (label ∷ first ∷ rest) →
        (result.0.now ≡ first) × (result.1.now ≡ join_with_byte 32 rest) }
{
    let (_label, rest) = piece(text, ' ');
    piece(rest, ' ')
}

/// The slot of a name.
fn slot(text: &str) -> Slot
    ensures { (slot : Slot) → text.now ≡ slot_text slot → result ≡ slot }
{
    match text {
        "request" => Slot::Request,
        "round1" => Slot::Round1,
        "round2" => Slot::Round2,
        "round3" => Slot::Round3,
        "tasks" => Slot::Tasks,
        "vote" => Slot::Vote,
        "sweep" => Slot::Sweep,
        "final" => Slot::Final,
        "switch" => Slot::Switch,
        _ => Slot::Output,
    }
}

fn stop_in(text: &str) -> StopLine
    ensures read { (s : StopValue) → is_form (stop_told s) ≡ true →
        text.now ≡ join_with_byte 32 (fields (stop_told s)) → story_stop result ≡ s }
    ensures formed { is_form (stop_told (story_stop result)) ≡ true }
{
    let (cycle, rest) = labelled(text);
    let (name, rest) = labelled(rest);
    let (disturbed, rest) = labelled(rest);
    let (active, _rest) = labelled(rest);
    StopLine {
        cycle: number(cycle),
        slot: slot(name),
        set: set(disturbed),
        active: set(active),
    }
}

fn spelled(alloc: Global, stop: &StopLine) -> Result<Text, AllocError>
    ensures { IfOk result (λ text. text ≡ stop_line (story_stop stop.now)) }
{
    let mut text = Text::new(alloc);
    write_stop(
        alloc,
        &mut text,
        stop.cycle,
        stop.slot,
        stop.set,
        stop.active,
    )?;
    Ok(text)
}

/// The stop that a text spells, with its line end.
pub fn read_stop(alloc: Global, bytes: &[u8]) -> Result<Option<StopLine>, AllocError>
    ensures { IfOk result (ReadsStop bytes.now) }
{
    let Ok(text) = str::from_utf8(bytes) else {
        return Ok(None);
    };
    let Some(body) = text.strip_suffix('\n') else {
        return Ok(None);
    };
    let (_word, rest) = piece(body, ' ');
    let stop = stop_in(rest);
    let spelled = spelled(alloc, &stop)?;
    if spelled.as_str() == text {
        return Ok(Some(stop));
    }
    Ok(None)
}
