//! The pieces of a line: numbers, votes, and lists of them.
ghost use Rattle.std.specs.Prelude.{◌≡◌, ◌<◌, ◌++◌, ◌∷◌, ◌==◌, ◌/◌, ◌%◌, ◌^◌, [], List, ℕ, map, if◌then◌else◌, string_bytes, IfOk, OnOk};
ghost use Rattle.std.specs.List.{join_with_byte};
ghost use Rattle.std.specs.Fmt.{decimal, signed_decimal};
ghost use Rattle.guards_model.specs.Channels.{set_of_mask};
ghost use Rattle.guards_model.specs.Texts.{list_text, set_text, vote_text};

use guards_base::{CHANNELS, ChanSet};
use std::alloc::{AllocError, Global};

/// A value that has one spelling.
pub trait Spelled {
    ghost spelling: { Self → List ℕ };

    fn spell(&self, alloc: Global) -> Result<String, AllocError>
        ensures { IfOk result (λ text. string_bytes text ≡ spelling self.now) };
}

impl Spelled for u8 {
    ghost spelling = { decimal };

    fn spell(&self, alloc: Global) -> Result<String, AllocError> {
        let number = *self;
        format!(in alloc; "{number}")
    }
}

impl Spelled for u32 {
    ghost spelling = { decimal };

    fn spell(&self, alloc: Global) -> Result<String, AllocError> {
        let number = *self;
        format!(in alloc; "{number}")
    }
}

impl Spelled for i64 {
    ghost spelling = { signed_decimal };

    fn spell(&self, alloc: Global) -> Result<String, AllocError> {
        let word = *self;
        format!(in alloc; "{word}")
    }
}

/// A vote's word, or `none`.
impl Spelled for Option<i64> {
    ghost spelling = { vote_text };

    fn spell(&self, alloc: Global) -> Result<String, AllocError> {
        match *self {
            None => String::from_str(alloc, "none"),
            Some(word) => word.spell(alloc),
        }
    }
}

// Appends the piece at this place of a list, each but the first after a comma.
fn push_piece(text: &mut String, place: usize, piece: &str) -> Result<(), AllocError>
    ensures { OnOk result (string_bytes text.new
        ≡ string_bytes text.old ++ (if place == 0 then piece.now else 44 ∷ piece.now)) }
{
    if place > 0 {
        text.push(',')?;
    }
    text.push_str(piece)
}

/// The spellings of the items, joined by commas.
pub fn joined<S: Spelled>(alloc: Global, items: &[S]) -> Result<String, AllocError>
    ensures { IfOk result (λ text. string_bytes text ≡ join_with_byte 44 (map S.spelling items.now)) }
{
    let mut text = String::new(alloc);
    for (place, item) in items.iter().enumerate() {
        let piece = item.spell(alloc)?;
        push_piece(&mut text, place, &piece)?;
    }
    Ok(text)
}

fn has_bit(mask: u8, channel: u8) -> bool
    requires { channel < 7 }
    ensures { result ≡ ((mask / 2 ^ channel) % 2 == 1) }
{
    mask / (1 << channel) % 2 == 1
}

// Appends the channel where its bit is set.
fn push_member(list: &mut Vec<u8>, mask: u8, channel: u8) -> Result<(), AllocError>
    requires { channel < 7 }
    ensures { OnOk result (list.new.items
        ≡ list.old.items ++ (if (mask / 2 ^ channel) % 2 == 1 then channel ∷ [] else [])) }
{
    if has_bit(mask, channel) {
        list.push(channel)?;
    }
    Ok(())
}

// The members of a set, in ascending order.
fn members(alloc: Global, set: ChanSet) -> Result<Vec<u8>, AllocError>
    ensures { IfOk result (λ list. list.items ≡ set) }
{
    let mask = set.mask();
    let mut list = Vec::new(alloc);
    for channel in 0..CHANNELS {
        push_member(&mut list, mask, channel)?;
    }
    Ok(list)
}

// The numbers, joined by commas, or `-` where there are none.
fn list_text(alloc: Global, numbers: &[u8]) -> Result<String, AllocError>
    ensures { IfOk result (λ text. string_bytes text ≡ list_text (map decimal numbers.now)) }
{
    if numbers.is_empty() {
        return String::from_str(alloc, "-");
    }
    joined(alloc, numbers)
}

/// The members of a set, joined by commas, or `-` where there are none.
pub fn set_text(alloc: Global, set: ChanSet) -> Result<String, AllocError>
    ensures { IfOk result (λ text. string_bytes text ≡ set_text set) }
{
    let list = members(alloc, set)?;
    list_text(alloc, list.as_slice())
}
