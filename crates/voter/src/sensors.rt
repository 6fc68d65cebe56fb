//! The consolidation of sensor words.
ghost use Rattle.std.specs.Prelude.{◌≡◌, ◌≤◌, ◌<◌, ◌-◌, ◌++◌, ◌≤ℤ◌, ℕ, ℤ, pos, false, None, map, replicate};
ghost use Rattle.guards_model.specs.Channels.{Channel, ChannelSet, channels_where, has, place_or};
ghost use Rattle.guards_model.specs.Contexts.{word_of};
ghost use Rattle.guards_model.specs.Voting.{inputs_of, lower_median, present};
ghost use Rattle.voter.specs.Sensors.{words_in, OthersAreThere, IsOthersWord};

use crate::counting::{median, word_at};
use arrayvec::ArrayVec;
use guards_base::{ChanSet, SourceWord};

// The sensor words at one place of the active channels' words that are there.
fn words_at(words: &[Option<SourceWord>; 7], active: ChanSet, place: usize) -> ArrayVec<i64, 7>
    ensures { result.items ≡ map (λ w. word_of w.words place) (present (words_in active words.now)) }
{
    let members = active.flags();
    let mut gathered = ArrayVec::new();
    for j in 0..7usize {
        if members[j] {
            if let Some(word) = &words[j] {
                gathered.push(word_at(word.in_use(), place));
            }
        }
    }
    gathered
}

// The consolidated word at one place.
fn input_at(words: &[Option<SourceWord>; 7], active: ChanSet, place: usize) -> i64
    ensures { result ≡ lower_median (map (λ w. word_of w.words place) (present (words_in active words.now))) }
{
    let gathered = words_at(words, active, place);
    median(gathered.as_slice())
}

// A set is that of the channels that it has.
fn prove_members(set: ChanSet)
    ensures { set ≡ channels_where (has set) }
{
    let _ = set.flags();
}

/// Per sensor place the lower median of the active channels' words that are there: of k words the one at place
/// (k - 1) / 2 of their ascending order, rounded down, and 0 where k is 0. Places past the width are 0.
///
/// Where fewer than a third of the active set is called disturbed and the others' words are all there, it lies per
/// place between the least and the greatest word of the others, whatever the words of the disturbed channels are.
pub fn consolidate(words: &[Option<SourceWord>; 7], active: ChanSet, width: u8) -> [i64; 4]
    requires { width ≤ 4 }
    ensures median { result ≡ inputs_of width (words_in active words.now) ++ replicate (4 - width) (pos 0) }

    // the words of passive channels do not count; where there are none, all words are those of the definition
    ensures inputs { ((q : Channel) → q < 7 → has active q ≡ false → place_or words.now q None ≡ None) →
        result ≡ inputs_of width words.now ++ replicate (4 - width) (pos 0) }

    ensures least { (disturbed : ChannelSet) → OthersAreThere active disturbed words.now → (k : ℕ) → k < width →
        (w : ℤ) × IsOthersWord active disturbed words.now k w × (w ≤ℤ word_of result k) }
    ensures greatest { (disturbed : ChannelSet) → OthersAreThere active disturbed words.now → (k : ℕ) → k < width →
        (w : ℤ) × IsOthersWord active disturbed words.now k w × (word_of result k ≤ℤ w) }
{
    prove_members(active);
    let mut inputs = [0; 4];
    for place in 0..usize::from(width) {
        inputs[place] = input_at(words, active, place);
    }
    inputs
}
