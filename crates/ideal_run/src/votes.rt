//! The votes of channels that all have the same output words.
ghost use Rattle.std.specs.Prelude.{◌≡◌, ◌≤◌, length, map, take, Some, slice_get};

use guards_base::Ballot;

/// The number of words.
pub fn count_of(ballot: &Ballot) -> u8
    ensures count { result ≡ length ballot.now }
    ensures few { result ≤ 8 }
{
    ballot.count
}

fn vote_at(words: &[i64], place: usize) -> Option<i64>
    ensures { result ≡ slice_get words.now place }
{
    words.get(place).copied()
}

/// Each word is voted. Places past the words are None.
pub fn votes_of(ballot: &Ballot) -> [Option<i64>; 8]
    ensures { take (length ballot.now) result ≡ map Some ballot.now }
{
    let words = ballot.in_use();
    let mut votes = [None; 8];
    for place in 0..usize::from(count_of(ballot)) {
        votes[place] = vote_at(words, place);
    }
    votes
}
