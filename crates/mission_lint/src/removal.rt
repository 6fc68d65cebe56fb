//! How seldom a channel may be judged errant so that it is not removed for it.
ghost use Rattle.std.specs.Prelude.{◌≡◌, ◌≤◌, ◌+◌};
ghost use Rattle.guards_model.specs.Diagnosis.{decayed};
ghost use Rattle.guards_model.specs.Missions.{MissionValue};
ghost use Rattle.recovery_laws.specs.CountHistories.{decayed_for, next_peak, peak_of};
ghost use Rattle.recovery_laws.specs.LeastPeriods.{is_below, least_period};
ghost use Rattle.recovery_laws.specs.Lengths.{most_cycles};
ghost use Rattle.mission_lint.specs.RuleLines.{if_at_most};

use guards_base::{Law, Rules};

/// What is left of a count that is not raised.
fn decayed(rules: &Rules, count: u32) -> u32
    requires keep { rules.now.keep ≤ 65536 }
    requires count { count ≤ 7000000 }
    ensures value { result ≡ decayed rules.now.law rules.now.keep rules.now.decrement count }
    ensures lower { result ≤ count }
{
    match rules.law {
        Law::Multiply => (u64::from(count) * u64::from(rules.keep) / 65536) as u32,
        Law::Subtract => count.saturating_sub(rules.decrement),
    }
}

/// What is left of a count after so many cycles without a judgement.
fn decayed_for(rules: &Rules, cycles: u32, count: u32) -> u32
    requires keep { rules.now.keep ≤ 65536 }
    requires count { count ≤ 7000000 }
    ensures value { result ≡ decayed_for rules.now.law rules.now.keep rules.now.decrement cycles count }
    ensures lower { result ≤ count }
{
    let mut left = count;
    for cycle in 0..cycles {
        let _number = cycle;
        left = decayed(rules, left);
    }
    left
}

/// The count after the next judgement, where one comes in so many cycles.
fn next_peak(rules: &Rules, period: u32, count: u32) -> u32
    requires some { 1 ≤ period }
    requires keep { rules.now.keep ≤ 65536 }
    requires count { count ≤ 7000000 }
    ensures value { result ≡ next_peak rules.now.law rules.now.keep rules.now.decrement period count }
    ensures most { result ≤ count + 65536 }
{
    decayed_for(rules, period - 1, count) + 65536
}

/// Whether a channel that is judged at most once in so many cycles in a row stays below the threshold.
fn stays_below(rules: &Rules, threshold: u32, period: u32) -> bool
    requires some { 1 ≤ period }
    requires keep { rules.now.keep ≤ 65536 }
    requires threshold { threshold ≡ rules.now.threshold }
    requires few { threshold ≤ 6553600 }
    ensures { result ≡ is_below rules.now.threshold
        (peak_of rules.now.law rules.now.keep rules.now.decrement rules.now.threshold period) }
{
    let mut count = 65536;
    for step in 0..threshold {
        let _number = step;
        if threshold <= count {
            return false;
        }
        let next = next_peak(rules, period, count);
        if next <= count {
            return true;
        }
        count = next;
    }
    false
}

/// The least such number of cycles, if it is one that a run may have.
pub(crate) fn least_period(rules: &Rules) -> Option<u32>
    requires keep { rules.now.keep ≤ 65536 }
    requires threshold { rules.now.threshold ≤ 6553600 }
    ensures { (M : MissionValue) → M.rules ≡ rules.now → result ≡ if_at_most most_cycles (least_period M) }
{
    let threshold = rules.threshold;
    for before in 0..2000u32 {
        if stays_below(rules, threshold, before + 1) {
            return Some(before + 1);
        }
    }
    None
}
