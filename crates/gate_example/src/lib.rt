//! A worked use of the gate: a limiter of a closure, and a word that moves by it.
#![tactic(auto)]

ghost use Rattle.std.specs.Prelude.{◌≡◌, ◌≤ℤ◌, [], ◌∷◌, pos};
ghost use Rattle.guards_base.specs.Padding.{padded};
ghost use Rattle.guards_model.specs.Actuators.{limited, words_moved};

use guards_base::Ballot;
use native_calls::ramp;
use output_gate::{Limit, Limiter, Moves, OutputGate};

/// Keeps the closure, and moves a gate at 3 by 3 with these ballots.
fn moved<F: Moves + Sync>(f: F, frames: &[Option<Ballot>; 7]) -> [i64; 8]
    requires { F.limits f }
    ensures { result ≡ padded 8 (words_moved (pos 3 ∷ []) (pos 3 ∷ []) frames.now) }
{
    let limiter = Limiter::new(f);
    let mut gate = OutputGate::new(1, [3, 0, 0, 0, 0, 0, 0, 0], [3, 0, 0, 0, 0, 0, 0, 0]);
    gate.apply(frames, &limiter);
    gate.words()
}

/// The words of a gate at 3 that is moved once by the ramp, with the step 3.
pub fn by_ramp(frames: &[Option<Ballot>; 7]) -> [i64; 8]
    ensures { result ≡ padded 8 (words_moved (pos 3 ∷ []) (pos 3 ∷ []) frames.now) }
{
    moved(
        |last: i64, wanted: i64, step: i64| -> i64
            requires { pos 0 ≤ℤ step }
            ensures { result ≡ limited last wanted step }
        { ramp(last, wanted, step) },
        frames,
    )
}
