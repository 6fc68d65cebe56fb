//! Draws of numbers.
ghost use Rattle.std.specs.Prelude.{◌≡◌, ◌<◌};
ghost use Rattle.demo_mission.specs.Demo.{next_number, drawn};

/// A number from which further ones are drawn.
#[derive(Clone, Copy)]
pub struct Draws {
    number: u64,
}

impl Draws {
    /// The draws that begin with this number.
    pub fn of(number: u64) -> Draws
        ensures { result.number ≡ number }
    {
        Draws { number }
    }

    /// A draw below k.
    #[tactic(auto, unfolding(crate::specs::Demo::next_number, crate::specs::Demo::drawn))]
    pub fn below(&mut self, k: u64) -> u64
        requires { 0 < k }
        ensures number { self.new.number ≡ next_number self.old.number }
        ensures drawn { result ≡ drawn k (next_number self.old.number) }
        ensures below { result < k }
    {
        self.number = self
            .number
            .wrapping_mul(6_364_136_223_846_793_005)
            .wrapping_add(1_442_695_040_888_963_407);
        self.number / 8_589_934_592 % k
    }
}
