//! The document of the mission of a run.
ghost use Rattle.std.specs.Prelude.{◌≡◌, ◌++◌, string_bytes, IfOk};
ghost use Rattle.guards_io.specs.Writes.{Writes};
ghost use Rattle.campaign_call.specs.Documents.{drawn_text, run_document};

use campaign_draws::{Draws, Rates, drawn_entries, sizes_of};
use guards_io::{Sink, WriteStop, put, write_all};
use mission_type::Mission;
use script_text::script_text;
use std::alloc::{AllocError, Global};

/// The entries that a number draws, on a new line.
#[tactic(auto, unfolding(crate::specs::Documents::drawn_text))]
fn drawn_text(
    alloc: Global,
    mission: &Mission,
    rates: Rates,
    state: u64,
) -> Result<String, AllocError>
    ensures { IfOk result (λ text. string_bytes text ≡ drawn_text mission.now rates state) }
{
    let mut draws = Draws::of(state);
    let entries = drawn_entries(alloc, sizes_of(mission), rates, &mut draws)?;
    let mut text = String::from_str(alloc, "\n")?;
    text.push_str(&script_text(alloc, entries.as_slice())?)?;
    Ok(text)
}

/// Writes bytes. It takes no memory.
fn put_bytes<K: Sink>(out: &mut K, bytes: &[u8]) -> Result<(), WriteStop>
    ensures { Writes (K.seen out.old) (K.seen out.new) bytes.now result }
{
    match write_all(out, bytes) {
        Ok(()) => Ok(()),
        Err(_) => Err(WriteStop::Failed),
    }
}

/// Writes one text behind the other.
fn put_both<K: Sink>(out: &mut K, bytes: &[u8], text: &str) -> Result<(), WriteStop>
    ensures { Writes (K.seen out.old) (K.seen out.new) (bytes.now ++ text.now) result }
{
    put_bytes(out, bytes)?;
    put(out, text)
}

/// Writes the document of the mission of the run that a number draws: the bytes of the mission, which has no faults,
/// and behind them the drawn entries, each a table of the key `fault`.
#[tactic(auto, using(guards_io::proofs::WritesLemmas::nothing_written))]
pub(crate) fn put_document<K: Sink>(
    alloc: Global,
    bytes: &[u8],
    mission: &Mission,
    rates: Rates,
    state: u64,
    out: &mut K,
) -> Result<(), WriteStop>
    ensures { Writes (K.seen out.old) (K.seen out.new) (run_document bytes.now mission.now rates state) result }
{
    let Ok(text) = drawn_text(alloc, mission, rates, state) else {
        return Err(WriteStop::Memory);
    };
    put_both(out, bytes, &text)
}
