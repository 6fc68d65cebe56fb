//! Single fields of an entry.
ghost use Rattle.std.specs.Prelude.{◌≡◌, true, IfOk};
ghost use Rattle.std.specs.List.{list_all};
ghost use Rattle.toml.specs.View.{view, table_view};
ghost use Rattle.guards_model.specs.Words.{is_word};
ghost use Rattle.document_checks.specs.Checks.{Gives};
ghost use Rattle.fault_entries.specs.FaultTexts.{is_lower_digit, piece_at, cycle_field, byte_field, sender_field, receiver_field, value_field, piece_field};

use document_checks::{
    Cause, ReadFault, field, integer_in, integer_of, lookup, number, refusal, required, text_of,
};
use guards_base::{Bytes, Chan};
use hex::FromHexError;
use std::alloc::Global;
use toml::{Table, Value};

/// The cycle of an entry, or the first of its checks that fails.
#[tactic(auto, unfolding(crate::specs::FaultTexts::cycle_field))]
pub fn cycle_field(alloc: Global, fields: &Table, path: &str) -> Result<u32, ReadFault>
    ensures { Gives (λ cycle. cycle) result (cycle_field path.now (table_view fields.now)) }
{
    number(alloc, fields, path, "cycle", 0, u32::MAX)
}

/// A number below 256 under this key, or the first of its checks that fails.
#[tactic(auto, unfolding(crate::specs::FaultTexts::byte_field))]
pub fn byte_field(alloc: Global, fields: &Table, path: &str, key: &str) -> Result<u8, ReadFault>
    ensures { Gives (λ byte. byte) result (byte_field path.now key.now (table_view fields.now)) }
{
    Ok(number(alloc, fields, path, key, 0, 255)? as u8)
}

/// The sender of a piece.
#[tactic(auto, unfolding(crate::specs::FaultTexts::sender_field))]
pub fn sender_field(alloc: Global, fields: &Table, path: &str) -> Result<Chan, ReadFault>
    ensures { Gives (λ from. from) result (sender_field path.now (table_view fields.now)) }
{
    let from = number(alloc, fields, path, "from", 0, 6)?;
    Ok(Chan::new(from as u8).unwrap())
}

/// The receiver of a piece, or None for every receiver.
#[tactic(auto, unfolding(crate::specs::FaultTexts::receiver_field))]
pub fn receiver_field(alloc: Global, fields: &Table, path: &str) -> Result<Option<u8>, ReadFault>
    ensures { Gives (λ to. to) result (receiver_field path.now (table_view fields.now)) }
{
    match lookup(fields, "to") {
        Some(value) => {
            let to = integer_in(alloc, value, 0, 255, &field(alloc, path, "to")?)?;
            Ok(Some(to as u8))
        }
        None => Ok(None),
    }
}

/// Each i64 is a word.
fn is_a_word(word: i64)
    ensures { is_word word ≡ true }
{}

/// The value that a damaged word takes.
#[tactic(auto, unfolding(crate::specs::FaultTexts::value_field))]
pub fn value_field(alloc: Global, fields: &Table, path: &str) -> Result<i64, ReadFault>
    ensures exact { Gives (λ value. value) result (value_field path.now (table_view fields.now)) }
    ensures word { IfOk result (λ value. is_word value ≡ true) }
{
    let given = required(alloc, fields, path, "value")?;
    let value = integer_of(alloc, given, &field(alloc, path, "value")?)?;
    is_a_word(value);
    Ok(value)
}

fn is_lower_digit(byte: u8) -> bool
    ensures { result ≡ is_lower_digit byte }
{
    matches!(byte, b'0'..=b'9' | b'a'..=b'f')
}

fn has_lower_digits(text: &[u8]) -> bool
    ensures { result ≡ list_all is_lower_digit text.now }
{
    text.iter().all(|byte| is_lower_digit(*byte))
}

/// The bytes of a forged piece.
#[tactic(auto, unfolding(crate::specs::FaultTexts::piece_at))]
fn piece_of(alloc: Global, value: &Value, path: &str) -> Result<Bytes, ReadFault>
    ensures { Gives (λ piece. piece.items) result (piece_at path.now (view value.now)) }
{
    let text = text_of(alloc, value, path)?.as_bytes();
    if !has_lower_digits(text) {
        return Err(refusal(alloc, Cause::OutOfRange, path));
    }
    match hex::decode(alloc, text) {
        Ok(bytes) => Ok(Bytes::from_vec(bytes)),
        Err(FromHexError::OutOfMemory) => Err(ReadFault::Memory),
        Err(_) => Err(refusal(alloc, Cause::OutOfRange, path)),
    }
}

/// The bytes of a forged piece, or the first of its checks that fails.
#[tactic(auto, unfolding(crate::specs::FaultTexts::piece_field))]
pub fn piece_field(alloc: Global, fields: &Table, path: &str) -> Result<Bytes, ReadFault>
    ensures { Gives (λ piece. piece.items) result (piece_field path.now (table_view fields.now)) }
{
    let given = required(alloc, fields, path, "bytes")?;
    piece_of(alloc, given, &field(alloc, path, "bytes")?)
}
