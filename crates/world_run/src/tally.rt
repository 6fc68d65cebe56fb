//! What is kept of the cycles of a run for its summary.
ghost use Rattle.std.specs.Prelude.{◌≡◌, ◌≤◌, ◌+◌, length, None};
ghost use Rattle.world_run.specs.Tallying.{first_votes};

use guards_base::{CycleRecord, Lines};

/// How many channels joined and were removed, and the votes of the lowest channel that ran at the end of the last
/// cycle.
#[derive(Clone, Copy, Debug)]
pub struct Tally {
    pub joins: u32,
    pub removals: u32,
    pub last: Option<[Option<i64>; 8]>,
}

/// The votes of the first line.
fn first_votes(lines: &Lines) -> Option<[Option<i64>; 8]>
    ensures { result ≡ first_votes lines.now.items }
{
    match lines.as_slice() {
        [] => None,
        [line, ..] => Some(line.votes),
    }
}

impl Tally {
    /// No cycle ran.
    pub fn empty() -> Tally
        ensures joins { result.joins ≡ 0 }
        ensures removals { result.removals ≡ 0 }
        ensures last { result.last ≡ None }
    {
        Tally {
            joins: 0,
            removals: 0,
            last: None,
        }
    }

    /// Adds what a cycle's record tells.
    pub fn note(&mut self, part: &CycleRecord)
        requires joins { self.old.joins ≤ 600000 }
        requires removals { self.old.removals ≤ 600000 }
        ensures joins { self.new.joins ≡ self.old.joins + length part.now.joined }
        ensures removals { self.new.removals ≡ self.old.removals + length part.now.removed }
        ensures last { self.new.last ≡ first_votes part.now.lines }
        ensures few_joins { self.new.joins ≤ self.old.joins + 255 }
        ensures few_removals { self.new.removals ≤ self.old.removals + 255 }
    {
        self.joins += u32::from(part.joined.count());
        self.removals += u32::from(part.removed.count());
        self.last = first_votes(&part.lines);
    }
}
