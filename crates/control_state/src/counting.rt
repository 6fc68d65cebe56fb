//! The judgement, the alpha-counts and removal.
ghost use Rattle.std.specs.Prelude.{◌≡◌, ◌≤◌, ◌&&◌, ◌||◌, not, nat_le, is_none, None, if◌then◌else◌, Bool, ℕ};
ghost use Rattle.guards_model.specs.Channels.{has, place_or};
ghost use Rattle.guards_model.specs.Diagnosis.{judged_of, count_step, counts_of, counts_carried, candidates_of, removed_of, asks as is_asking};
ghost use Rattle.alpha_count.specs.Decays.{keep_of, stepped};
ghost use Rattle.control_state.specs.Telling.{is_accused};

use crate::sets::lowest;
use crate::telling::{enough_accuse, enough_heard, is_missing};
use alpha_count::{Alpha, Decay};
use guards_base::{Chan, ChanSet, Law, Rules, SourceWord, table_by};

/// The active channels that are judged errant.
#[tactic(auto, unfolding(crate::specs::Telling::is_accused))]
pub fn judge(active: ChanSet, agreed: &[Option<SourceWord>; 7]) -> ChanSet
    ensures { result ≡ judged_of active agreed.now }
{
    active.filter(
        |c: Chan| -> bool
            ensures { result ≡ (is_none (place_or agreed.entry.now c None) || is_accused active agreed.entry.now c) }
        { is_missing(agreed, c) || enough_accuse(active, agreed, c) },
    )
}

/// How a count decays by the rules.
fn decay(rules: &Rules) -> Decay
    requires { rules.now.keep ≤ 65536 }
    ensures bound { keep_of result ≤ 65536 }
    ensures law { (errant : Bool) (count : ℕ) → stepped result errant count ≡
        count_step rules.now.law rules.now.keep rules.now.decrement errant count }
{
    match rules.law {
        Law::Multiply => Decay::Multiply { keep: rules.keep },
        Law::Subtract => Decay::Subtract {
            decrement: rules.decrement,
        },
    }
}

/// The counts after the judgement; 0 for a passive channel.
pub fn count(alphas: &[Alpha; 7], rules: &Rules, active: ChanSet, judged: ChanSet) -> [Alpha; 7]
    requires { rules.now.keep ≤ 65536 }
    ensures { result ≡ counts_of rules.now.law rules.now.keep rules.now.decrement active judged alphas.now }
{
    table_by(
        |c: Chan| -> Alpha
            requires keep { rules.now.keep ≤ 65536 }
            ensures { result ≡ (if has active c
                then count_step rules.entry.now.law rules.entry.now.keep rules.entry.now.decrement (has judged c)
                (place_or alphas.entry.now c 0)
                else 0) }
        {
            if active.has(c) {
                alphas[usize::from(c.index())].step(judged.has(c), decay(rules))
            } else {
                Alpha::zero()
            }
        },
    )
}

/// The counts that the next cycle begins with: 0 for a passive or fresh channel.
pub fn carry(alphas: &[Alpha; 7], active: ChanSet, fresh: ChanSet) -> [Alpha; 7]
    ensures { result ≡ counts_carried active fresh alphas.now }
{
    table_by(
        |c: Chan| -> Alpha
            ensures { result ≡ (if has active c && not (has fresh c) then place_or alphas.entry.now c 0 else 0) }
        {
            if active.has(c) && !fresh.has(c) {
                alphas[usize::from(c.index())]
            } else {
                Alpha::zero()
            }
        },
    )
}

/// Whether a request of a channel stands: many heard one, and it did not join in the cycle before.
pub fn asks(active: ChanSet, fresh: ChanSet, agreed: &[Option<SourceWord>; 7], c: Chan) -> bool
    ensures { result ≡ is_asking active fresh agreed.now c }
{
    enough_heard(active, agreed, 1, c) && !fresh.has(c)
}

// The count of a channel.
fn count_at(alphas: &[Alpha; 7], c: Chan) -> u32
    ensures { result ≡ place_or alphas.now c 0 }
{
    alphas[usize::from(c.index())].units()
}

// The active channels whose count has reached the threshold or whose request stands.
fn candidates(
    active: ChanSet,
    fresh: ChanSet,
    agreed: &[Option<SourceWord>; 7],
    alphas: &[Alpha; 7],
    threshold: u32,
) -> ChanSet
    ensures { result ≡ candidates_of threshold active fresh agreed.now alphas.now }
{
    active.filter(
        |c: Chan| -> bool
            ensures { result ≡
                (nat_le threshold (place_or alphas.entry.now c 0) || is_asking active fresh agreed.entry.now c) }
        { threshold <= count_at(alphas, c) || asks(active, fresh, agreed, c) },
    )
}

/// The lowest candidates, as many as leave three channels active.
pub fn remove(
    active: ChanSet,
    fresh: ChanSet,
    agreed: &[Option<SourceWord>; 7],
    alphas: &[Alpha; 7],
    threshold: u32,
) -> ChanSet
    ensures { result ≡ removed_of threshold active fresh agreed.now alphas.now }
{
    let leaving = candidates(active, fresh, agreed, alphas, threshold);
    lowest(leaving, active.count().saturating_sub(3))
}
