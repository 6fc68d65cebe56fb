//! Runs the missions of a campaign, a few at a time side by side, and writes their rows in order.
ghost use Rattle.std.specs.Prelude.{◌≡◌, ◌≤◌, ◌<◌, ◌+◌, ℕ, suc, [], length, Ok, OnOk};
ghost use Rattle.guards_io.specs.Views.{SinkView};
ghost use Rattle.guards_io.specs.Writes.{Puts};
ghost use Rattle.mission_text.specs.Mission.{mission_of};
ghost use Rattle.campaign_draws.specs.Drawing.{sizes_of, state_of};
ghost use Rattle.campaign_text.specs.Summaries.{summary_text, totals_of};
ghost use Rattle.campaign_run.specs.Beside.{HasPut, PutsRow, PutsRows, PutsTo};
ghost use Rattle.campaign_run.specs.Campaigns.{Campaigns, PutsText, bound_of};

use crate::beside::{Made, next_rows, runs_beside};
use crate::missions::bound_of;
use campaign_draws::{Draws, Rates};
use campaign_text::{Totals, head_row};
use ctx_lock::Gate;
use guards_io::{Sink, WriteStop, put, write_all};
use mission_type::Mission;
use native_calls::Calls;
use std::alloc::Global;
use std::sync::Wait;
use std::thread::Threads;

/// Writes a text. It takes no memory.
fn put_text<K: Sink>(out: &mut K, text: &str) -> Result<(), WriteStop>
    ensures { PutsText (K.seen out.old) (K.seen out.new) text.now result }
{
    match write_all(out, text.as_bytes()) {
        Ok(()) => Ok(()),
        Err(_) => Err(WriteStop::Failed),
    }
}

/// Writes a row, and adds what it tells.
#[tactic(auto, unfolding(campaign_text::specs::Summaries::totals_with))]
fn put_row<K: Sink>(row: &Made, totals: &mut Totals, out: &mut K) -> Result<(), WriteStop>
    requires { totals.old.runs < 10000 }
    ensures count { OnOk result (totals.new.runs ≡ suc totals.old.runs) }
    ensures row { PutsRow row.now totals.old totals.new (K.seen out.old) (K.seen out.new) result }
{
    match row {
        Ok(row) => {
            totals.add(&row.tally, &row.stop);
            put_text(out, &row.text)
        }
        Err(_) => Err(WriteStop::Memory),
    }
}

/// Writes these rows one after the other, up to one that memory was wanting for.
fn put_each<K: Sink>(rows: &[Made], totals: &mut Totals, out: &mut K) -> Result<(), WriteStop>
    requires { totals.old.runs + length rows.now ≤ 10000 }
    ensures count { OnOk result (totals.new.runs ≡ totals.old.runs + length rows.now) }
    ensures rows { PutsRows rows.now totals.old totals.new (K.seen out.old) (K.seen out.new) result }
{
    for row in rows {
        put_row(row, totals, out)?;
    }
    Ok(())
}

/// Runs the next runs of a campaign side by side, at most 64, and writes their rows in order.
fn put_next<K: Sink, G: Gate, C: Calls + Sync, R: Threads + Wait + Sync>(
    rt: &R,
    alloc: Global,
    bytes: &[u8],
    mission: &Mission,
    rates: Rates,
    first: u32,
    count: u32,
    draws: &mut Draws,
    totals: &mut Totals,
    out: &mut K,
    gate: &G,
    natives: &C,
) -> Result<(), WriteStop>
    requires read { mission_of bytes.now ≡ Ok mission.now }
    requires few { first + count ≤ 10000 }
    requires beside { count ≤ 64 }
    requires runs { totals.old.runs ≡ first }
    ensures count { OnOk result (totals.new.runs ≡ first + count) }
    ensures number { OnOk result (draws.new ≡ state_of (sizes_of mission.now) rates draws.old count) }
    ensures rows { (x all : ℕ) (begun : SinkView) → first + count ≤ all →
        draws.old ≡ state_of (sizes_of mission.now) rates x first →
        HasPut mission.now rates x begun first totals.old (K.seen out.old) →
        PutsTo mission.now rates x begun all (first + count) totals.new (K.seen out.new) result }
{
    let Ok(rows) = next_rows(
        rt, alloc, bytes, mission, rates, first, count, draws, gate, natives,
    ) else {
        return Err(WriteStop::Memory);
    };
    put_each(rows.as_slice(), totals, out)
}

/// Writes the line of the columns and the rows of so many runs, as many at a time as go side by side.
fn put_rows<K: Sink, G: Gate, C: Calls + Sync, R: Threads + Wait + Sync>(
    rt: &R,
    alloc: Global,
    bytes: &[u8],
    mission: &Mission,
    rates: Rates,
    state: u64,
    runs: u32,
    totals: &mut Totals,
    out: &mut K,
    gate: &G,
    natives: &C,
) -> Result<(), WriteStop>
    requires read { mission_of bytes.now ≡ Ok mission.now }
    requires few { runs ≤ 10000 }
    requires none { totals.old ≡ totals_of [] }
    ensures { PutsTo mission.now rates state (K.seen out.old) runs runs totals.new (K.seen out.new) result }
{
    let beside = runs_beside(rt);
    let mut draws = Draws::of(state);
    put_text(out, head_row())?;
    let mut first = 0;
    while first < runs {
        let count = beside.min(runs - first);
        put_next(
            rt, alloc, bytes, mission, rates, first, count, &mut draws, totals, out, gate, natives,
        )?;
        first += count;
    }
    Ok(())
}

/// Writes the lines of the summary as one part.
fn put_summary<K: Sink>(
    alloc: Global,
    bound: Option<u32>,
    totals: &Totals,
    out: &mut K,
) -> Result<(), WriteStop>
    ensures { Puts (K.seen out.old) (K.seen out.new) (summary_text bound totals.now) result }
{
    let Ok(text) = totals.summary_text(alloc, bound) else {
        return Err(WriteStop::Memory);
    };
    put(out, &text)
}

/// Runs a campaign of a mission that these bytes are: so many runs, 1 to 10,000, of which the first is drawn from this
/// number. It writes the line of the columns, a row for each run and the lines of their summary.
pub fn run_campaign<K: Sink, G: Gate, C: Calls + Sync, R: Threads + Wait + Sync>(
    rt: &R,
    alloc: Global,
    bytes: &[u8],
    mission: &Mission,
    rates: Rates,
    state: u64,
    runs: u32,
    out: &mut K,
    gate: &G,
    natives: &C,
) -> Result<(), WriteStop>
    requires read { mission_of bytes.now ≡ Ok mission.now }
    requires few { runs ≤ 10000 }
    ensures { Campaigns mission.now rates state runs (K.seen out.old) (K.seen out.new) result }
{
    let bound = bound_of(mission);
    let mut totals = Totals::none();
    put_rows(
        rt,
        alloc,
        bytes,
        mission,
        rates,
        state,
        runs,
        &mut totals,
        out,
        gate,
        natives,
    )?;
    put_summary(alloc, bound, &totals, out)
}
