//! The lines of wrong words and of a verdict.
ghost use Rattle.std.specs.Prelude.{◌≡◌, string_bytes, IfOk};
ghost use Rattle.mission_run.specs.Lines.{no_line, usage_line, yes_line};

use std::alloc::{AllocError, Global};

/// The line of wrong words.
#[tactic(auto, unfolding(crate::specs::Lines::usage_line))]
pub fn usage_line() -> &'static str
    ensures { result.now ≡ usage_line }
{
    "usage: guards run [--trace] [--last K] | check | demo N | audit\n"
}

/// The line of a trace that is consistent.
#[tactic(auto, unfolding(crate::specs::Lines::yes_line))]
pub fn yes_line() -> &'static str
    ensures { result.now ≡ yes_line }
{
    "audit yes\n"
}

/// The line of a trace that is not, with the first line that is not good.
#[tactic(auto, unfolding(crate::specs::Lines::no_line))]
pub fn no_line(alloc: Global, line: u32) -> Result<String, AllocError>
    ensures { IfOk result (λ text. string_bytes text ≡ no_line line) }
{
    format!(in alloc; "audit: no at line {line}\n")
}
