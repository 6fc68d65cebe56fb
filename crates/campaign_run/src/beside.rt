//! The next runs of a campaign, side by side, and their rows in order.
ghost use Rattle.std.specs.Prelude.{◌≡◌, ◌≤◌, ◌<◌, ◌+◌, ℕ, length, Ok, IfOk, OnOk, slice_index_or};
ghost use Rattle.std.specs.Thread.{IsSync};
ghost use Rattle.guards_model.specs.Missions.{MissionValue};
ghost use Rattle.mission_text.specs.Mission.{mission_of};
ghost use Rattle.campaign_draws.specs.Drawing.{after_run, sizes_of, state_of};
ghost use Rattle.campaign_run.specs.Beside.{HasRows, TellsFrom};

use crate::missions::bound_of;
use crate::row::{Row, run_row};
use campaign_draws::{Draws, Rates, Sizes, drawn_entries, drawn_mission, sizes_of};
use ctx_lock::Gate;
use mission_text::read;
use mission_type::Mission;
use native_calls::Calls;
use std::alloc::{AllocError, Global};
use std::sync::Wait;
use std::thread::{self, Threads};

/// The most runs that go side by side.
const MOST: usize = 64;

/// A row, or that memory was wanting for it.
pub(crate) type Made = Result<Row, AllocError>;

/// How many runs go side by side: as many as there are processors, at most 64, and one where nothing tells that.
pub(crate) fn runs_beside(rt: &impl Threads) -> u32
    ensures some { 1 ≤ result }
    ensures most { result ≤ 64 }
{
    match thread::available_parallelism(rt) {
        Ok(count) => count.get().min(MOST) as u32,
        Err(_) => 1,
    }
}

/// Goes on to the number after the draws of a run.
fn pass_run(alloc: Global, sizes: Sizes, rates: Rates, draws: &mut Draws) -> Result<(), AllocError>
    ensures { OnOk result (draws.new ≡ after_run sizes rates draws.old) }
{
    let _entries = drawn_entries(alloc, sizes, rates, draws)?;
    Ok(())
}

/// The numbers from which the next runs are drawn: each but the first after the draws of the one before.
fn next_states(
    alloc: Global,
    sizes: Sizes,
    rates: Rates,
    count: u32,
    draws: &mut Draws,
) -> Result<Vec<u64>, AllocError>
    ensures count { IfOk result (λ states. length states.items ≡ count) }
    ensures states { IfOk result (λ states. (place : ℕ) → place < count →
        slice_index_or states.items place 0 ≡ state_of sizes rates draws.old place) }
    ensures number { OnOk result (draws.new ≡ state_of sizes rates draws.old count) }
{
    let mut states = Vec::new(alloc);
    for _place in 0..count {
        states.push(draws.number())?;
        pass_run(alloc, sizes, rates, draws)?;
    }
    Ok(states)
}

/// Draws the script of a run from its number, runs the mission with it, and tells the run by its row.
fn row_from<G: Gate, C: Calls + Sync, R: Threads + Wait + Sync>(
    rt: &R,
    alloc: Global,
    bytes: &[u8],
    rates: Rates,
    run: u32,
    state: u64,
    gate: &G,
    natives: &C,
) -> Made
    ensures { (M : MissionValue) → mission_of bytes.now ≡ Ok M → IfOk result (TellsFrom M rates run state) }
{
    let Ok(mission) = read(alloc, bytes) else {
        return Err(AllocError);
    };
    let bound = bound_of(&mission);
    let mut draws = Draws::of(state);
    let drawn = drawn_mission(alloc, mission, rates, &mut draws)?;
    run_row(rt, alloc, run, state, bound, drawn, gate, natives)
}

/// The rows of the runs that are drawn from these numbers, in their order. Each run has a thread of its own, where one
/// can be made, and goes where it is asked for otherwise. At an error none of the rows is left.
fn rows_beside<G: Gate, C: Calls + Sync, R: Threads + Wait + Sync>(
    rt: &R,
    alloc: Global,
    bytes: &[u8],
    rates: Rates,
    first: u32,
    states: &[u64],
    gate: &G,
    natives: &C,
) -> Result<Vec<Made>, AllocError>
    requires few { first + length states.now ≤ 10000 }
    ensures count { IfOk result (λ rows. length rows.items ≡ length states.now) }
    ensures rows { (M : MissionValue) → mission_of bytes.now ≡ Ok M → IfOk result (λ rows. (place : ℕ) (d : _) →
        place < length states.now → IfOk (slice_index_or rows.items place d)
        (TellsFrom M rates (first + place) (slice_index_or states.now place 0))) }
{
    thread::map_indices(
        rt,
        alloc,
        states.len(),
        &|place: usize| -> Made
            requires sync { IsSync R.row × IsSync C.row }
            requires few { first + length states.now ≤ 10000 }
            requires inside { place < length states.now }
            ensures { (M : MissionValue) → mission_of bytes.entry.now ≡ Ok M → IfOk result
                (TellsFrom M rates (first + place) (slice_index_or states.entry.now place 0)) }
        {
            row_from(
                rt,
                alloc,
                bytes,
                rates,
                first + place as u32,
                states[place],
                gate,
                natives,
            )
        },
    )
}

/// Draws the numbers of the next runs of a campaign one after the other, and runs these side by side: so many rows,
/// that of the run with the number `first` before the others.
pub(crate) fn next_rows<G: Gate, C: Calls + Sync, R: Threads + Wait + Sync>(
    rt: &R,
    alloc: Global,
    bytes: &[u8],
    mission: &Mission,
    rates: Rates,
    first: u32,
    count: u32,
    draws: &mut Draws,
    gate: &G,
    natives: &C,
) -> Result<Vec<Made>, AllocError>
    requires read { mission_of bytes.now ≡ Ok mission.now }
    requires few { first + count ≤ 10000 }
    ensures count { IfOk result (λ rows. length rows.items ≡ count) }
    ensures number { OnOk result (draws.new ≡ state_of (sizes_of mission.now) rates draws.old count) }
    ensures rows { (x : ℕ) → draws.old ≡ state_of (sizes_of mission.now) rates x first →
        IfOk result (λ rows. HasRows mission.now rates x first rows.items) }
{
    let states = next_states(alloc, sizes_of(mission), rates, count, draws)?;
    rows_beside(
        rt,
        alloc,
        bytes,
        rates,
        first,
        states.as_slice(),
        gate,
        natives,
    )
}
