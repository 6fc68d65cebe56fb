//! The lines of reports and traces, read back, and when a text is a trace that a mission may have: each line is judged
//! by the lines before it alone, and no frame, tag or node is asked. The definitions stand in `specs/`; each law is the
//! contract of a function without a body.
#![tactic(auto)]

mod lines;

ghost use Rattle.std.specs.Prelude.{◌≡◌, ◌↔◌, ℕ, None, Some};
ghost use Rattle.guards_model.specs.Missions.{MissionValue};
ghost use Rattle.guards_model.specs.Texts.{TextValue};
ghost use Rattle.guards_audit.specs.Consistency.{IsConsistent, IsFirstBad};
ghost use Rattle.guards_audit.specs.Verdicts.{first_bad};

pub use lines::{lines_are_read, reports_are_read, texts_are_read};

/// Each text is either consistent with a mission, or has one line that is the first that is not good; and that is what
/// is computed line by line.
pub fn verdicts_are_computed()
    ensures consistent { (M : MissionValue) (trace : TextValue) → (first_bad M trace ≡ None) ↔ IsConsistent M trace }
    ensures first { (M : MissionValue) (trace : TextValue) (number : ℕ) →
        (first_bad M trace ≡ Some number) ↔ IsFirstBad M trace number }
{}
