//! Draws of numbers.
ghost use Rattle.std.specs.Prelude.{◌≡◌, ◌<◌};
ghost use Rattle.demo_mission.specs.Demo.{next_number, drawn};
ghost use Rattle.campaign_draws.specs.Drawing.{happens};

use std::marker::Model;

/// A number from which further ones are drawn. Contracts see the number.
#[derive(Clone, Copy, Debug, PartialEq, Eq)]
pub struct Draws {
    number: u64,
}

impl Model for Draws {
    ghost use Rattle.std.specs.Prelude.{ℕ};

    ghost Value = { ℕ };

    ghost view = { λ draws. draws.number };

    ghost inverse = { λ number. record { number = number } };
}

impl Draws {
    /// Draws follow this number.
    pub fn of(number: u64) -> Draws
        ensures { result ≡ number }
    {
        Draws { number }
    }

    /// The number that the next draw follows.
    pub fn number(&self) -> u64
        ensures { result ≡ self.now }
    {
        self.number
    }

    /// A draw below k.
    #[tactic(auto, unfolding(demo_mission::specs::Demo::next_number, demo_mission::specs::Demo::drawn))]
    pub fn below(&mut self, k: u64) -> u64
        requires { 0 < k }
        ensures number { self.new ≡ next_number self.old }
        ensures drawn { result ≡ drawn k (next_number self.old) }
        ensures below { result < k }
    {
        self.number = self
            .number
            .wrapping_mul(6_364_136_223_846_793_005)
            .wrapping_add(1_442_695_040_888_963_407);
        self.number / 8_589_934_592 % k
    }

    /// Whether a fault of this rate happens.
    #[tactic(auto, unfolding(crate::specs::Drawing::happens))]
    pub fn happens(&mut self, rate: u32) -> bool
        ensures number { self.new ≡ next_number self.old }
        ensures happens { result ≡ happens rate self.old }
    {
        self.below(1_000_000) < u64::from(rate)
    }
}
