//! The lines of refusals.
ghost use Rattle.std.specs.Prelude.{◌≡◌, string_bytes, IfOk};
ghost use Rattle.picture_run.specs.Lines.{bad_line, long_report_line, picture_usage};

use std::alloc::{AllocError, Global};

/// The line of wrong words.
#[tactic(auto, unfolding(crate::specs::Lines::picture_usage))]
pub(crate) fn usage_line() -> &'static str
    ensures { result.now ≡ picture_usage }
{
    "usage: guards_picture < REPORT\n"
}

/// The line of too many bytes.
#[tactic(auto, unfolding(crate::specs::Lines::long_report_line))]
pub(crate) fn long_report_line() -> &'static str
    ensures { result.now ≡ long_report_line }
{
    "report: too long\n"
}

/// The line of a line that may not come where it stands.
#[tactic(auto, unfolding(crate::specs::Lines::bad_line))]
pub(crate) fn bad_line(alloc: Global, line: u32) -> Result<String, AllocError>
    ensures { IfOk result (λ text. string_bytes text ≡ bad_line line) }
{
    format!(in alloc; "report: line {line}\n")
}
