//! The lines of refusals of a mission.
ghost use Rattle.std.specs.Prelude.{◌≡◌, string_bytes, IfOk};
ghost use Rattle.mission_check.specs.Lines.{cause_name, long_line, mission_line, place_text, read_line};

use document_checks::{Cause, Why};
use std::alloc::{AllocError, Global};

fn cause_name(cause: Cause) -> &'static str
    ensures { result.now ≡ cause_name cause }
{
    match cause {
        Cause::NotToml => "not-toml",
        Cause::Missing => "missing",
        Cause::WrongType => "wrong-type",
        Cause::OutOfRange => "out-of-range",
        Cause::Unknown => "unknown",
        Cause::Duplicate => "duplicate",
        Cause::BadExpr => "bad-expr",
    }
}

/// The place in an expression's text, where there is one.
fn place_text(alloc: Global, at: Option<u16>) -> Result<String, AllocError>
    ensures { IfOk result (λ text. string_bytes text ≡ place_text at) }
{
    match at {
        None => Ok(String::new(alloc)),
        Some(at) => format!(in alloc; " at {at}"),
    }
}

/// The line of bytes that are no mission.
#[tactic(auto, unfolding(crate::specs::Lines::mission_line))]
pub fn mission_line(alloc: Global, why: &Why) -> Result<String, AllocError>
    ensures { IfOk result (λ line. string_bytes line ≡ mission_line why.now) }
{
    let cause = cause_name(why.cause);
    let path = why.path.as_str();
    let place = place_text(alloc, why.at)?;
    format!(in alloc; "mission: {cause} {path}{place}\n")
}

/// The line of a source that failed.
#[tactic(auto, unfolding(crate::specs::Lines::read_line))]
pub fn read_line() -> &'static str
    ensures { result.now ≡ read_line }
{
    "read fault\n"
}

/// The line of too many bytes.
#[tactic(auto, unfolding(crate::specs::Lines::long_line))]
pub fn long_line() -> &'static str
    ensures { result.now ≡ long_line }
{
    "mission: too long\n"
}
