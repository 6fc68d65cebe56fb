//! The lines on the rules of a mission.
ghost use Rattle.std.specs.Prelude.{◌≡◌, ◌++◌, ◌∷◌, [], ℕ, is_none, OnOk, if◌then◌else◌};
ghost use Rattle.guards_model.specs.JoinBound.{join_bound};
ghost use Rattle.lint_lines.specs.declared.line.LintLine.TheVariants as line;
ghost use Rattle.lint_lines.specs.LineLists.{option_list};
ghost use Rattle.mission_lint.specs.RuleLines.{join_lines, keep_lines, period_line, rule_lines};

use crate::known::{last_of, rows_of, rules_of, sweep_of, writes_of};
use crate::removal::least_period;
use crate::transfer::push_transfers;
use lint_lines::{Lines, LintLine, push_line};
use mission_type::Mission;
use std::alloc::AllocError;

/// The line where no bound of a join is promised, whatever number of blocks a context has.
fn unbounded_line(writes: u16, sweep: u8, last: u8) -> Option<LintLine>
    ensures { (blocks : ℕ) → option_list result ≡ (if is_none (join_bound blocks sweep last writes)
        then line.JoinUnbounded writes sweep last ∷ [] else []) }
{
    if writes < u16::from(sweep) && writes <= u16::from(last) {
        None
    } else {
        Some(LintLine::JoinUnbounded {
            writes,
            sweep,
            last,
        })
    }
}

fn join_line(mission: &Mission) -> Option<LintLine>
    ensures { option_list result ≡ join_lines mission.now }
{
    unbounded_line(writes_of(mission), sweep_of(mission), last_of(mission))
}

fn period_line(period: Option<u32>) -> Option<LintLine>
    ensures { option_list result ≡ period_line period }
{
    match period {
        Some(period) => Some(LintLine::StaysJudged { period }),
        None => None,
    }
}

fn keep_line(mission: &Mission) -> Option<LintLine>
    ensures { option_list result ≡ keep_lines mission.now }
{
    period_line(least_period(rules_of(mission)))
}

/// Appends the lines on the rules: the bound of a join, removal, and the length of a transfer from each row.
pub(crate) fn push_rule_lines(mission: &Mission, lines: &mut Lines) -> Result<(), AllocError>
    ensures { OnOk result (lines.new.items ≡ lines.old.items ++ rule_lines mission.now) }
{
    push_line(join_line(mission), lines)?;
    push_line(keep_line(mission), lines)?;
    push_transfers(mission, rows_of(mission), lines)?;
    Ok(())
}
