//! The vote and the accusations.
ghost use Rattle.std.specs.Prelude.{◌≡◌, ◌≤◌, ◌-◌, ◌++◌, ◌∷◌, [], ℕ, ℤ, List, Option, None, map, length, replicate};
ghost use Rattle.std.specs.Ordering.{int_eq};
ghost use Rattle.guards_model.specs.Channels.{place_or};
ghost use Rattle.guards_model.specs.Contexts.{word_of};
ghost use Rattle.guards_model.specs.Majority.{majority_of};
ghost use Rattle.guards_model.specs.Voting.{cast_of, vote_of, contradicts as is_contradiction, is_wrong as is_wrong_by, accused_of};

use crate::counting::{majority, word_at};
use arrayvec::ArrayVec;
use guards_base::{Ballot, Chan, ChanSet};

// The words at one place of the ballots of the active channels that are there.
fn votes_at(ballots: &[Option<Ballot>; 7], active: ChanSet, place: usize) -> ArrayVec<i64, 7>
    ensures { result.items ≡ map (λ words. word_of words place) (cast_of active ballots.now) }
{
    let members = active.flags();
    let mut votes = ArrayVec::new();
    for j in 0..7usize {
        if members[j] {
            if let Some(ballot) = &ballots[j] {
                votes.push(word_at(ballot.in_use(), place));
            }
        }
    }
    votes
}

// The vote at one place.
fn vote_at(ballots: &[Option<Ballot>; 7], active: ChanSet, place: usize) -> Option<i64>
    ensures { result ≡ majority_of int_eq (length active)
        (map (λ words. word_of words place) (cast_of active ballots.now)) }
{
    let votes = votes_at(ballots, active, place);
    majority(votes.as_slice(), active.count())
}

/// Per output place the word that strictly more than half of the active set hold, or None where there is no such word.
/// A ballot that is not there holds no word, and its channel counts all the same. Places past `outputs` are None.
pub fn vote(ballots: &[Option<Ballot>; 7], active: ChanSet, outputs: u8) -> [Option<i64>; 8]
    requires { outputs ≤ 8 }
    ensures { result ≡ vote_of active outputs ballots.now ++ replicate (8 - outputs) None }
{
    let mut voted = [None; 8];
    for place in 0..usize::from(outputs) {
        voted[place] = vote_at(ballots, active, place);
    }
    voted
}

// Whether a word differs from a vote that there is.
fn differs(word: i64, vote: Option<i64>) -> bool
    ensures { result ≡ is_contradiction (word ∷ []) (vote ∷ []) }
{
    match vote {
        None => false,
        Some(vote) => word != vote,
    }
}

// Whether some word differs from a vote that there is.
fn contradicts(words: &[i64], voted: &[Option<i64>]) -> bool
    ensures { result ≡ is_contradiction words.now voted.now }
{
    match words {
        [] => false,
        [word, words @ ..] => match voted {
            [] => false,
            [vote, voted @ ..] => differs(*word, *vote) || contradicts(words, voted),
        },
    }
}

// Whether a ballot is not there or contradicts the vote.
fn is_wrong(ballot: &Option<Ballot>, voted: &[Option<i64>]) -> bool
    ensures { result ≡ is_wrong_by voted.now ballot.now }
{
    match ballot {
        None => true,
        Some(ballot) => contradicts(ballot.in_use(), voted),
    }
}

// The active channels whose ballot is wrong by a vote.
fn accused(ballots: &[Option<Ballot>; 7], active: ChanSet, voted: &[Option<i64>]) -> ChanSet
    ensures { result ≡ accused_of active ballots.now voted.now }
{
    active.filter(
        |c: Chan| -> bool
            ensures { result ≡ is_wrong_by voted.entry.now (place_or ballots.entry.now c None) }
        { is_wrong(&ballots[usize::from(c.index())], voted) },
    )
}

/// The active channels whose ballot is not there or differs in some word from a vote that there is. The own channel's
/// ballot is judged in the same way.
pub fn accusations(
    ballots: &[Option<Ballot>; 7],
    active: ChanSet,
    voted: &[Option<i64>; 8],
) -> ChanSet
    ensures votes { result ≡ accused_of active ballots.now voted.now }
    ensures padded { (votes : List (Option ℤ)) (places : ℕ) → voted.now ≡ votes ++ replicate places None →
        result ≡ accused_of active ballots.now votes }
{
    accused(ballots, active, voted)
}
