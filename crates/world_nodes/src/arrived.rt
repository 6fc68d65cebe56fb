//! What arrived in a slot.
ghost use Rattle.std.specs.Prelude.{◌≡◌, option_map};
ghost use Rattle.std.specs.Option.{option_copied};
ghost use Rattle.icn_frames.specs.Bodies.{view_body};

use guards_base::Chan;
use icn_frames::Body;

/// What arrived in a slot, by sender and receiver.
pub trait Arrived {
    ghost use Rattle.std.specs.Prelude.{ℕ, Option};
    ghost use Rattle.guards_model.specs.Frames.{BodyValue};

    ghost got: { Self → ℕ → ℕ → Option BodyValue };

    /// Lends the body that counts.
    fn body(&self, from: Chan, to: u8) -> Option<&Body>
        ensures { option_map view_body (option_copied result) ≡ got self.now from to };
}
