//! The marks of a picture of a run: for each thing that is shown of a channel or an output, the longest spans of cycles
//! in which it is the same. The definitions stand in `specs/`.
#![tactic(auto)]

ghost use Rattle.std.specs.Prelude.{◌≡◌, ℕ, List, Option};
ghost use Rattle.picture_marks.specs.declared.facts.CycleFacts.{CycleFacts};
ghost use Rattle.picture_marks.specs.declared.facts.Limits.{Limits};
ghost use Rattle.picture_marks.specs.declared.shown.Lane.{Lane};
ghost use Rattle.picture_marks.specs.Marks.{marks_of, spans_in};
ghost use Rattle.picture_marks.specs.ReadBack.{AreMaximal, shown_at, told_at};

mod facts;
mod shown;
mod spans;

pub use facts::{CycleFacts, End, Limits};
pub use shown::{Lane, Mark, Shown};
pub use spans::marks;

/// The marks tell what the report told: of each lane of the picture in each cycle they show what the facts of that
/// cycle say, with the limits of the mission where that is known, and of nothing else anything.
pub fn pictures_tell_reports()
    ensures { (limits : Option Limits) (channels outputs : ℕ) (told : List CycleFacts) (lane : Lane) (c : ℕ) →
        shown_at (marks_of limits channels outputs told) lane c ≡ told_at limits channels outputs told lane c }
{}

/// The spans of a lane follow on one another from its first cycle on, and no two neighbours show the same.
pub fn spans_are_maximal()
    ensures { (limits : Option Limits) (told : List CycleFacts) (lane : Lane) →
        AreMaximal 0 (spans_in limits lane told) }
{}
