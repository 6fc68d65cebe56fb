//! The alpha-count: how errant a channel has been of late.
//!
//! Each cycle judges a channel. An errant judgement raises its count by one, any other lets it decay, and a channel
//! whose count reaches a threshold is taken for faulty rather than hit by a transient.
//!
//! Source: A. Bondavalli, S. Chiaradonna, F. Di Giandomenico and F. Grandoni, "Threshold-based mechanisms to
//! discriminate transient from intermittent faults", IEEE Transactions on Computers, 2000. Decay by subtraction is
//! this project's own.
#![tactic(auto)]

ghost use Rattle.std.specs.Prelude.{◌≡◌, ◌≤◌, ◌↔◌, IsTrue, IsSome, IfSome};
ghost use Rattle.alpha_count.specs.Decays.{keep_of, stepped};

use std::marker::Model;

/// What becomes of a count whose channel is not judged errant.
#[derive(Clone, Copy, Debug, PartialEq, Eq)]
pub enum Decay {
    /// It is multiplied by `keep / 65536` and rounded down. `keep` is at most 65,536.
    Multiply { keep: u32 },
    /// It falls by `decrement`, to 0 where that is above it.
    Subtract { decrement: u32 },
}

/// A count in units of 1/65536, at most 16,777,216 units, which is 256. Contracts see the number of units.
#[derive(Clone, Copy, Debug, PartialEq, Eq)]
pub struct Alpha(u32);

impl Model for Alpha {
    ghost use Rattle.std.specs.Prelude.{ℕ, ◌≤◌};

    ghost Value = { ℕ };

    ghost view = { λ alpha. alpha.0 };

    ghost invariant = { λ alpha. alpha.0 ≤ 16777216 };

    ghost inverse = { λ units. record { 0 = units } };
}

impl Alpha {
    /// The most units that a count has.
    pub const CAP: u32 = 16_777_216;

    /// The units of one errant judgement.
    pub const ONE: u32 = 65_536;

    /// The count of a channel that nothing is held against.
    pub fn zero() -> Alpha
        ensures { result ≡ 0 }
    {
        Alpha(0)
    }

    /// The count with this many units, unless they are above the cap.
    pub fn of(units: u32) -> Option<Alpha>
        ensures there { IsSome result ↔ (units ≤ Alpha.CAP) }
        ensures value { IfSome result (λ alpha. alpha ≡ units) }
    {
        if units <= Alpha::CAP {
            Some(Alpha(units))
        } else {
            None
        }
    }

    /// The count in units of 1/65536, at most 16,777,216.
    pub fn units(self) -> u32
        ensures value { result ≡ self }
        ensures cap { result ≤ Alpha.CAP }
    {
        self.0
    }

    /// The count after a judgement.
    pub fn step(self, errant: bool, decay: Decay) -> Alpha
        requires { keep_of decay ≤ Alpha.ONE }
        ensures { result ≡ stepped decay errant self }
    {
        if errant {
            return Alpha((self.0 + Alpha::ONE).min(Alpha::CAP));
        }
        match decay {
            Decay::Multiply { keep } => Alpha(
                (u64::from(self.0) * u64::from(keep) / 65_536) as u32,
            ),
            Decay::Subtract { decrement } => Alpha(self.0.saturating_sub(decrement)),
        }
    }

    /// Whether the count has reached a threshold.
    pub fn reached(self, threshold: u32) -> bool
        ensures { IsTrue result ↔ (threshold ≤ self) }
    {
        self.0 >= threshold
    }
}
