//! Laws of missions and of the documents that they are read from: each is the contract of a function without a body.
#![tactic(auto)]

ghost use Rattle.std.specs.Prelude.{◌≡◌, ℕ, List, Some, Ok, true};
ghost use Rattle.toml.specs.Data.{Members};
ghost use Rattle.toml.specs.Parse.{parse_document};
ghost use Rattle.guards_model.specs.Missions.{MissionValue, IsMission};
ghost use Rattle.mission_text.specs.Mission.{mission_of};
ghost use Rattle.mission_laws.specs.Integers.{members_hold_words};

/// Each integer of a document is a word of 64 bits.
pub fn documents_hold_words()
    ensures { (text : List ℕ) (fields : Members) → parse_document text ≡ Some fields →
        members_hold_words fields ≡ true }
{}

/// Whatever bytes stand for a mission, it is a mission: its sizes are in range and its parts fit them.
pub fn missions_that_are_read()
    ensures { (bytes : List ℕ) (M : MissionValue) → mission_of bytes ≡ Ok M → IsMission M }
{}
