//! The row of a run.
ghost use Rattle.std.specs.Prelude.{◌≡◌, ◌≤◌, string_bytes, IfOk};
ghost use Rattle.guards_model.specs.CheckTexts.{bound_text};
ghost use Rattle.guards_model.specs.Slots.{slot_text};
ghost use Rattle.campaign_text.specs.Rows.{begun, disturbed_set, end_text, fault_columns, head_row, length_text, outcome_columns, row_text, run_columns, stop_columns, stop_slot_text, transfer_columns};

use crate::causes::{disturbed_text, why_text};
use campaign_facts::{Kind, Tally, kind_count};
use fault_script::Script;
use guards_base::{ChanSet, Slot};
use std::alloc::{AllocError, Global};
use std::marker::Model;

/// How a run stopped: its cycle and slot, who was disturbed, and who was active.
#[derive(Clone, Copy, Debug, PartialEq, Eq)]
pub struct Stop {
    pub cycle: u32,
    pub slot: Slot,
    pub set: ChanSet,
    pub active: ChanSet,
}

impl Model for Stop {
    ghost use Rattle.guards_model.specs.Texts.{StopValue};

    ghost Value = { StopValue };

    ghost view = { λ s. record { cycle = s.cycle; slot = s.slot; set = s.set; active = s.active } };

    ghost inverse = { λ s. record { cycle = s.cycle; slot = s.slot; set = s.set; active = s.active } };
}

fn slot_text(slot: Slot) -> &'static str
    ensures { result.now ≡ slot_text slot }
{
    match slot {
        Slot::Request => "request",
        Slot::Round1 => "round1",
        Slot::Round2 => "round2",
        Slot::Round3 => "round3",
        Slot::Tasks => "tasks",
        Slot::Vote => "vote",
        Slot::Sweep => "sweep",
        Slot::Final => "final",
        Slot::Switch => "switch",
        Slot::Output => "output",
    }
}

fn end_text(stop: &Option<Stop>) -> &'static str
    ensures { result.now ≡ end_text stop.now }
{
    match stop {
        None => "done",
        Some(_) => "stop",
    }
}

fn stop_slot_text(stop: &Option<Stop>) -> &'static str
    ensures { result.now ≡ stop_slot_text stop.now }
{
    match stop {
        None => "",
        Some(stop) => slot_text(stop.slot),
    }
}

fn disturbed_set(stop: &Option<Stop>) -> ChanSet
    ensures { result ≡ disturbed_set stop.now }
{
    match stop {
        None => ChanSet::empty(),
        Some(stop) => stop.set,
    }
}

fn begun(cycles: u32, stop: &Option<Stop>) -> u32
    requires { cycles ≤ 2000 }
    ensures { result ≡ begun cycles stop.now }
{
    match stop {
        None => cycles,
        Some(_) => cycles + 1,
    }
}

fn length_text(alloc: Global, length: u32) -> Result<String, AllocError>
    ensures { IfOk result (λ text. string_bytes text ≡ length_text length) }
{
    if length == 0 {
        return Ok(String::new(alloc));
    }
    format!(in alloc; "{length}")
}

pub(crate) fn bound_text(alloc: Global, bound: Option<u32>) -> Result<String, AllocError>
    ensures { IfOk result (λ text. string_bytes text ≡ bound_text bound) }
{
    let Some(cycles) = bound else {
        return String::from_str(alloc, "-");
    };
    format!(in alloc; "{cycles}")
}

/// Which run it is, and how it ended.
#[tactic(auto, unfolding(crate::specs::Rows::run_columns))]
fn run_columns(
    alloc: Global,
    run: u32,
    state: u64,
    cycles: u32,
    stop: &Option<Stop>,
) -> Result<String, AllocError>
    ensures { IfOk result (λ text. string_bytes text ≡ run_columns run state cycles stop.now) }
{
    let end = end_text(stop);
    format!(in alloc; "{run},{state},{end},{cycles},")
}

/// Where it stopped, and why.
#[tactic(auto, unfolding(crate::specs::Rows::stop_columns))]
fn stop_columns(
    alloc: Global,
    script: &Script,
    tally: &Tally,
    stop: &Option<Stop>,
) -> Result<String, AllocError>
    ensures { IfOk result (λ text. string_bytes text ≡ stop_columns script.now tally.now stop.now) }
{
    let slot = stop_slot_text(stop);
    let disturbed = disturbed_set(stop);
    let set = disturbed_text(alloc, disturbed)?;
    let firsts = tally.firsts();
    let why = why_text(alloc, script, &firsts, tally.cycles(), disturbed)?;
    format!(in alloc; "{slot},{set},{why},")
}

/// The faults of the cycles that began.
#[tactic(auto, unfolding(crate::specs::Rows::fault_columns))]
fn fault_columns(alloc: Global, script: &Script, cycles: u32) -> Result<String, AllocError>
    ensures { IfOk result (λ text. string_bytes text ≡ fault_columns script.now cycles) }
{
    let crashes = kind_count(Kind::Crash, script, cycles);
    let restarts = kind_count(Kind::Restart, script, cycles);
    let damages = kind_count(Kind::Damage, script, cycles);
    let losses = kind_count(Kind::Loss, script, cycles);
    let forgeries = kind_count(Kind::Forgery, script, cycles);
    format!(in alloc; "{crashes},{restarts},{damages},{losses},{forgeries},")
}

/// What came of a run.
#[tactic(auto, unfolding(crate::specs::Rows::outcome_columns))]
fn outcome_columns(alloc: Global, tally: &Tally) -> Result<String, AllocError>
    ensures { IfOk result (λ text. string_bytes text ≡ outcome_columns tally.now) }
{
    let (removals, falsely) = (tally.removals(), tally.false_removals());
    let (joins, not_whole) = (tally.joins(), tally.not_whole());
    let dropped = tally.dropped();
    format!(in alloc; "{removals},{falsely},{joins},{not_whole},{dropped},")
}

/// Its longest transfer.
#[tactic(auto, unfolding(crate::specs::Rows::transfer_columns))]
fn transfer_columns(alloc: Global, longest: u32, bound: Option<u32>) -> Result<String, AllocError>
    ensures { IfOk result (λ text. string_bytes text ≡ transfer_columns longest bound) }
{
    let longest = length_text(alloc, longest)?;
    let bound = bound_text(alloc, bound)?;
    format!(in alloc; "{longest},{bound}\n")
}

/// The row of a run: its number, the number that it was drawn from, its script, what was counted of its cycles, its
/// stop, if there was one, and the most cycles that a transfer of the mission takes, if there is such a bound.
#[tactic(auto, unfolding(crate::specs::Rows::row_text))]
pub fn row_text(
    alloc: Global,
    run: u32,
    state: u64,
    script: &Script,
    tally: &Tally,
    stop: &Option<Stop>,
    bound: Option<u32>,
) -> Result<String, AllocError>
    ensures { IfOk result (λ text. string_bytes text ≡ row_text run state script.now tally.now stop.now bound) }
{
    let cycles = tally.cycles();
    let mut text = run_columns(alloc, run, state, cycles, stop)?;
    text.push_str(&stop_columns(alloc, script, tally, stop)?)?;
    text.push_str(&fault_columns(alloc, script, begun(cycles, stop))?)?;
    text.push_str(&outcome_columns(alloc, tally)?)?;
    text.push_str(&transfer_columns(alloc, tally.longest(), bound)?)?;
    Ok(text)
}

/// The line of the columns.
#[tactic(auto, unfolding(crate::specs::Rows::head_row))]
pub fn head_row() -> &'static str
    ensures { result.now ≡ head_row }
{
    "run,state,end,cycles,slot,disturbed,why,crashes,restarts,damages,losses,forgeries,removals,\
     false_removals,joins,not_whole,dropped,longest_transfer,bound\n"
}
