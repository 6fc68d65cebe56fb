//! The document that bytes are.
ghost use Rattle.std.specs.Prelude.{◌≡◌, true, false, MatchOption};
ghost use Rattle.std.specs.Str.{is_utf8};
ghost use Rattle.toml.specs.View.{table_view};
ghost use Rattle.document_checks.specs.Checks.{Gives, document};

use crate::checks::refusal;
use crate::why::{Cause, ReadFault};
use std::alloc::Global;
use toml::Table;

/// The text that the bytes are.
fn text_in(bytes: &[u8]) -> Option<&str>
    ensures { MatchOption result (is_utf8 bytes.now ≡ false)
        (λ text. (is_utf8 bytes.now ≡ true) × (text.now ≡ bytes.now)) }
{
    match std::str::from_utf8(bytes) {
        Ok(text) => Some(text),
        Err(_) => None,
    }
}

/// The top-level table of the TOML document that the bytes are.
pub fn document(alloc: Global, bytes: &[u8]) -> Result<Table, ReadFault>
    ensures { Gives (λ fields. table_view fields) result (document bytes.now) }
{
    let Some(text) = text_in(bytes) else {
        return Err(refusal(alloc, Cause::NotToml, "-"));
    };
    match toml::table_from_str(alloc, text) {
        Ok(fields) => Ok(fields),
        Err(error) if error.is_memory() => Err(ReadFault::Memory),
        Err(_) => Err(refusal(alloc, Cause::NotToml, "-")),
    }
}
