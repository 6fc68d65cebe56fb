//! Checks of single values and fields.
ghost use Rattle.std.specs.Prelude.{◌≡◌, ◌≤◌, ℕ, List, length, string_bytes, IfOk, option_map, map};
ghost use Rattle.std.specs.List.{list_any, list_all};
ghost use Rattle.std.specs.BTreeMap.{keys};
ghost use Rattle.std.specs.Str.{bytes_eq};
ghost use Rattle.toml.specs.Data.{get_member};
ghost use Rattle.toml.specs.View.{view, table_view, items_view};
ghost use Rattle.document_checks.specs.Checks.{Gives, Refuses, RefusesAt, field, element, required, integer_in, integer_of, text_of, table_of, array_of, only, has_only, path_spelled, number, number_or, how_many, sized};

use crate::why::{Cause, ReadFault, Why};
use guards_base::Text;
use std::alloc::{AllocError, Global};
use toml::{Table, Value};

/// The fault of a check that fails at a path.
pub fn refusal(alloc: Global, cause: Cause, path: &str) -> ReadFault
    ensures { Refuses cause path.now result }
{
    match Text::from_str(alloc, path) {
        Ok(path) => ReadFault::Bad(Why {
            cause,
            path,
            at: None,
        }),
        Err(_) => ReadFault::Memory,
    }
}

/// The fault of a text at a path, at a place in it.
pub fn refusal_at(alloc: Global, cause: Cause, path: &str, place: u16) -> ReadFault
    ensures { RefusesAt cause path.now place result }
{
    match Text::from_str(alloc, path) {
        Ok(path) => ReadFault::Bad(Why {
            cause,
            path,
            at: Some(place),
        }),
        Err(_) => ReadFault::Memory,
    }
}

/// The path of a key.
pub fn field(alloc: Global, path: &str, key: &str) -> Result<String, AllocError>
    ensures { IfOk result (λ place. string_bytes place ≡ field path.now key.now) }
{
    if path.is_empty() {
        String::from_str(alloc, key)
    } else {
        format!(in alloc; "{path}.{key}")
    }
}

/// The path of an element.
pub fn element(alloc: Global, path: &str, place: usize) -> Result<String, AllocError>
    ensures { IfOk result (λ text. string_bytes text ≡ element path.now place) }
{
    format!(in alloc; "{path}[{place}]")
}

/// What stands at a key.
pub fn lookup<'a>(fields: &'a Table, key: &str) -> Option<&'a Value>
    ensures { option_map (λ value. view value.now) result ≡ get_member key.now (table_view fields.now) }
{
    fields.get(key)
}

/// A field that has to be there.
pub fn required<'a>(
    alloc: Global,
    fields: &'a Table,
    path: &str,
    key: &str,
) -> Result<&'a Value, ReadFault>
    ensures { Gives (λ value. view value.now) result (required path.now key.now (table_view fields.now)) }
{
    match lookup(fields, key) {
        Some(value) => Ok(value),
        None => Err(refusal(alloc, Cause::Missing, &field(alloc, path, key)?)),
    }
}

/// A number within a range that has to be there.
#[tactic(auto, unfolding(crate::specs::Checks::number))]
pub fn number(
    alloc: Global,
    fields: &Table,
    path: &str,
    key: &str,
    low: u32,
    high: u32,
) -> Result<u32, ReadFault>
    ensures within { IfOk result (λ n. (low ≤ n) × (n ≤ high)) }
    ensures exact { Gives (λ n. n) result (number low high path.now key.now (table_view fields.now)) }
{
    let value = required(alloc, fields, path, key)?;
    integer_in(alloc, value, low, high, &field(alloc, path, key)?)
}

/// A number within a range that has a default.
#[tactic(auto, unfolding(crate::specs::Checks::number_or))]
pub fn number_or(
    alloc: Global,
    fields: &Table,
    path: &str,
    key: &str,
    default: u32,
    low: u32,
    high: u32,
) -> Result<u32, ReadFault>
    requires { (low ≤ default) × (default ≤ high) }
    ensures within { IfOk result (λ n. (low ≤ n) × (n ≤ high)) }
    ensures exact { Gives (λ n. n) result (number_or default low high path.now key.now (table_view fields.now)) }
{
    match lookup(fields, key) {
        Some(value) => integer_in(alloc, value, low, high, &field(alloc, path, key)?),
        None => Ok(default),
    }
}

/// How the path of a table is spelled.
fn spelled(path: &str) -> &str
    ensures { result.now ≡ path_spelled path.now }
{
    if path.is_empty() { "-" } else { path }
}

/// Each key of a table is a known one.
pub fn only(alloc: Global, known: &[&str], path: &str, fields: &Table) -> Result<(), ReadFault>
    ensures { Gives (λ _. tt) result (only (map (λ name. name.now) known.now) path.now (table_view fields.now)) }
{
    if !has_only(known, fields) {
        return Err(refusal(alloc, Cause::Unknown, spelled(path)));
    }
    Ok(())
}

fn has_only(known: &[&str], fields: &Table) -> bool
    ensures { result ≡ has_only (map (λ name. name.now) known.now) (table_view fields.now) }
{
    each_known(known, fields)
}

fn each_known(known: &[&str], fields: &Table) -> bool
    ensures { result ≡ list_all (λ key. list_any (λ name. bytes_eq (string_bytes key) name.now) known.now)
        (keys fields.now) }
{
    fields.keys().all(|key| is_known(known, key.as_str()))
}

fn is_known(known: &[&str], key: &str) -> bool
    ensures { result ≡ list_any (λ name. bytes_eq key.now name.now) known.now }
{
    known.iter().any(|name| key == *name)
}

/// The integer of a value between two bounds, or the check that fails.
pub fn integer_in(
    alloc: Global,
    value: &Value,
    low: u32,
    high: u32,
    path: &str,
) -> Result<u32, ReadFault>
    ensures within { IfOk result (λ n. (low ≤ n) × (n ≤ high)) }
    ensures exact { Gives (λ n. n) result (integer_in low high path.now (view value.now)) }
{
    let Value::Integer(integer) = value else {
        return Err(refusal(alloc, Cause::WrongType, path));
    };
    match u32::try_from(*integer) {
        Ok(number) if low <= number && number <= high => Ok(number),
        _ => Err(refusal(alloc, Cause::OutOfRange, path)),
    }
}

/// The text that a value is, or the check that fails.
pub fn text_of<'a>(alloc: Global, value: &'a Value, path: &str) -> Result<&'a str, ReadFault>
    ensures { Gives (λ text. text.now) result (text_of path.now (view value.now)) }
{
    match value {
        Value::String(text) => Ok(text.as_str()),
        _ => Err(refusal(alloc, Cause::WrongType, path)),
    }
}

/// The table that a value is, or the check that fails.
pub fn table_of<'a>(alloc: Global, value: &'a Value, path: &str) -> Result<&'a Table, ReadFault>
    ensures { Gives (λ fields. table_view fields.now) result (table_of path.now (view value.now)) }
{
    match value {
        Value::Table(fields) => Ok(fields),
        _ => Err(refusal(alloc, Cause::WrongType, path)),
    }
}

/// The items of the array that a value is, or the check that fails.
pub fn array_of<'a>(alloc: Global, value: &'a Value, path: &str) -> Result<&'a [Value], ReadFault>
    ensures { Gives (λ items. items_view items.now) result (array_of path.now (view value.now)) }
{
    match value {
        Value::Array(items) => Ok(items.as_slice()),
        _ => Err(refusal(alloc, Cause::WrongType, path)),
    }
}

/// The integer that a value is, or the check that fails.
pub fn integer_of(alloc: Global, value: &Value, path: &str) -> Result<i64, ReadFault>
    ensures { Gives (λ integer. integer) result (integer_of path.now (view value.now)) }
{
    match value {
        Value::Integer(integer) => Ok(*integer),
        _ => Err(refusal(alloc, Cause::WrongType, path)),
    }
}

/// An array of so many elements.
#[tactic(auto, using(crate::proofs::Counts::counted), unfolding(crate::specs::Checks::sized))]
pub fn sized<'a>(
    alloc: Global,
    value: &'a Value,
    low: usize,
    high: usize,
    path: &str,
) -> Result<&'a [Value], ReadFault>
    ensures exact { Gives (λ items. items_view items.now) result (sized low high path.now (view value.now)) }
    ensures within { IfOk result (λ items. (low ≤ length items.now) × (length items.now ≤ high)) }
{
    let items = array_of(alloc, value, path)?;
    if low <= items.len() && items.len() <= high {
        Ok(items)
    } else {
        Err(refusal(alloc, Cause::OutOfRange, path))
    }
}
