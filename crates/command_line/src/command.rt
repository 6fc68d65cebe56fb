//! The commands.
ghost use Rattle.std.specs.Prelude.{◌≡◌, ◌≤◌};
ghost use Rattle.command_line.specs.Commands.{count_within};

use std::marker::Model;

/// How many cycles are told, 1 to 2,000. Contracts see the number.
#[derive(Clone, Copy, Debug, PartialEq, Eq)]
pub struct Count(u16);

impl Model for Count {
    ghost use Rattle.std.specs.Prelude.{ℕ, ◌≤◌};

    ghost Value = { ℕ };

    ghost view = { λ count. count.0 };

    ghost invariant = { λ count. (1 ≤ count.0) × (count.0 ≤ 2000) };

    ghost inverse = { λ number. record { 0 = number } };
}

impl Count {
    /// The greatest count: a mission has no more cycles.
    pub const MOST: u64 = 2_000;

    /// The count of this number, unless it is 0 or above the greatest.
    pub fn of(number: u64) -> Option<Count>
        ensures { result ≡ count_within number }
    {
        if number > 0 && number <= Count::MOST {
            Some(Count(number as u16))
        } else {
            None
        }
    }

    /// The number.
    pub fn number(self) -> u16
        ensures value { result ≡ self }
        ensures within { (1 ≤ result) × (result ≤ 2000) }
    {
        self.0
    }
}

/// What the program is told to do.
#[derive(Clone, Copy, Debug, PartialEq, Eq)]
pub enum Command {
    /// Runs the mission that the source gives, with or without the lines of each channel's steps. With `last` only the
    /// parts of so many last cycles are told, when the run has ended.
    Run { trace: bool, last: Option<Count> },
    /// Tells what the mission is that the source gives.
    Check,
    /// Runs the demo mission of a number.
    Demo(u64),
    /// Judges the trace of a run by its mission, which the source gives both.
    Audit,
}
