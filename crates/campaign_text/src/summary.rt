//! What the runs of a campaign add up to.
ghost use Rattle.std.specs.Prelude.{◌≡◌, ◌<◌, [], string_bytes, IfOk};
ghost use Rattle.guards_model.specs.CheckTexts.{bound_text};
ghost use Rattle.campaign_text.specs.Summaries.{drops_line, joins_line, removals_line, runs_line, stops, summary_text, totals_of, totals_with, transfers_line};

use crate::rows::{Stop, bound_text};
use campaign_facts::Tally;
use std::alloc::{AllocError, Global};
use std::marker::Model;

/// The numbers of the rows, added up. Contracts see the numbers.
#[derive(Debug, Drop)]
pub struct Totals {
    runs: u32,
    stopped: u32,
    removals: u64,
    false_removals: u64,
    joins: u64,
    not_whole: u64,
    dropped: u64,
    longest: u32,
}

impl Model for Totals {
    ghost use Rattle.std.specs.Prelude.{◌≤◌, ◌*◌};
    ghost use Rattle.campaign_text.specs.Summaries.{TotalsValue};

    ghost Value = { TotalsValue };

    ghost view = { λ t. record {
      runs = t.runs;
      stopped = t.stopped;
      removals = t.removals;
      false_removals = t.false_removals;
      joins = t.joins;
      not_whole = t.not_whole;
      dropped = t.dropped;
      longest = t.longest;
    } };

    ghost invariant = { λ t. (t.runs ≤ 10000) × (t.stopped ≤ t.runs) × (t.removals ≤ 4294967295 * t.runs)
        × (t.false_removals ≤ 4294967295 * t.runs) × (t.joins ≤ 4294967295 * t.runs)
        × (t.not_whole ≤ 4294967295 * t.runs) × (t.dropped ≤ 4294967295 * t.runs) };
}

/// How many stops this is.
fn stops(stop: &Option<Stop>) -> u32
    ensures value { result ≡ stops stop.now }
    ensures most { result < 2 }
{
    match stop {
        None => 0,
        Some(_) => 1,
    }
}

#[tactic(auto, unfolding(crate::specs::Summaries::runs_line))]
fn runs_line(alloc: Global, runs: u32, stopped: u32) -> Result<String, AllocError>
    ensures { IfOk result (λ text. string_bytes text ≡ runs_line runs stopped) }
{
    format!(in alloc; "# runs {runs} stopped {stopped}\n")
}

#[tactic(auto, unfolding(crate::specs::Summaries::removals_line))]
fn removals_line(alloc: Global, removals: u64, falsely: u64) -> Result<String, AllocError>
    ensures { IfOk result (λ text. string_bytes text ≡ removals_line removals falsely) }
{
    format!(in alloc; "# removals {removals} false {falsely}\n")
}

#[tactic(auto, unfolding(crate::specs::Summaries::joins_line))]
fn joins_line(alloc: Global, joins: u64, not_whole: u64) -> Result<String, AllocError>
    ensures { IfOk result (λ text. string_bytes text ≡ joins_line joins not_whole) }
{
    format!(in alloc; "# joins {joins} not whole {not_whole}\n")
}

#[tactic(auto, unfolding(crate::specs::Summaries::drops_line))]
fn drops_line(alloc: Global, dropped: u64) -> Result<String, AllocError>
    ensures { IfOk result (λ text. string_bytes text ≡ drops_line dropped) }
{
    format!(in alloc; "# dropped {dropped}\n")
}

#[tactic(auto, unfolding(crate::specs::Summaries::transfers_line))]
fn transfers_line(alloc: Global, longest: u32, bound: Option<u32>) -> Result<String, AllocError>
    ensures { IfOk result (λ text. string_bytes text ≡ transfers_line longest bound) }
{
    let bound = bound_text(alloc, bound)?;
    format!(in alloc; "# longest transfer {longest} bound {bound}\n")
}

impl Totals {
    /// No run is told.
    #[tactic(auto, unfolding(crate::specs::Summaries::totals_of))]
    pub fn none() -> Totals
        ensures { result ≡ totals_of [] }
    {
        Totals {
            runs: 0,
            stopped: 0,
            removals: 0,
            false_removals: 0,
            joins: 0,
            not_whole: 0,
            dropped: 0,
            longest: 0,
        }
    }

    /// Adds one more run, of at most 10,000: what was counted of it, and how it stopped, if it did.
    #[tactic(auto, unfolding(crate::specs::Summaries::totals_with))]
    pub fn add(&mut self, tally: &Tally, stop: &Option<Stop>)
        requires { self.old.runs < 10000 }
        ensures { self.new ≡ totals_with tally.now stop.now self.old }
    {
        self.runs += 1;
        self.stopped += stops(stop);
        self.removals += u64::from(tally.removals());
        self.false_removals += u64::from(tally.false_removals());
        self.joins += u64::from(tally.joins());
        self.not_whole += u64::from(tally.not_whole());
        self.dropped += u64::from(tally.dropped());
        self.longest = self.longest.max(tally.longest());
    }

    /// The lines of the summary, with the most cycles that a transfer of the mission takes, if there is such a bound.
    #[tactic(auto, unfolding(crate::specs::Summaries::summary_text))]
    pub fn summary_text(&self, alloc: Global, bound: Option<u32>) -> Result<String, AllocError>
        ensures { IfOk result (λ text. string_bytes text ≡ summary_text bound self.now) }
    {
        let mut text = runs_line(alloc, self.runs, self.stopped)?;
        text.push_str(&removals_line(alloc, self.removals, self.false_removals)?)?;
        text.push_str(&joins_line(alloc, self.joins, self.not_whole)?)?;
        text.push_str(&drops_line(alloc, self.dropped)?)?;
        text.push_str(&transfers_line(alloc, self.longest, bound)?)?;
        Ok(text)
    }
}
