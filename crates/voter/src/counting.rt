//! Words that are counted: a majority and the lower median.
ghost use Rattle.std.specs.Prelude.{◌≡◌, ◌≤◌, length, count_by, int_lt, int_le, find};
ghost use Rattle.std.specs.Ordering.{int_eq};
ghost use Rattle.guards_model.specs.Contexts.{word_of};
ghost use Rattle.guards_model.specs.Majority.{majority_of};
ghost use Rattle.guards_model.specs.Voting.{lower_median};
ghost use Rattle.voter.specs.Middle.{stands_in_middle};

/// The word at a place, or 0 past the end.
pub fn word_at(words: &[i64], place: usize) -> i64
    ensures { result ≡ word_of words.now place }
{
    words.get(place).copied().unwrap_or(0)
}

// How many of the words are this one.
fn count_equal(words: &[i64], word: &i64) -> usize
    ensures value { result ≡ count_by (int_eq word.now) words.now }
    ensures most { result ≤ length words.now }
{
    words.iter().filter(|w| *word == **w).count()
}

// How many of the words are less than this one.
fn count_less(words: &[i64], word: &i64) -> usize
    ensures { result ≡ count_by (λ v. int_lt v word.now) words.now }
{
    words.iter().filter(|w| **w < *word).count()
}

// How many of the words are at most this one.
fn count_at_most(words: &[i64], word: &i64) -> usize
    ensures { result ≡ count_by (λ v. int_le v word.now) words.now }
{
    words.iter().filter(|w| **w <= *word).count()
}

/// The word that strictly more than half of so many voters hold, if there is one.
pub fn majority(words: &[i64], voters: u8) -> Option<i64>
    requires { length words.now ≤ 7 }
    ensures { result ≡ majority_of int_eq voters words.now }
{
    words
        .iter()
        .copied()
        .find(|w| usize::from(voters) < 2 * count_equal(words, w))
}

// Whether a word stands at place (k - 1) / 2 of the ascending order of these k words.
fn is_middle(words: &[i64], word: &i64) -> bool
    ensures { result ≡ stands_in_middle words.now word.now }
{
    let middle = words.len().saturating_sub(1) / 2;
    count_less(words, word) <= middle && middle < count_at_most(words, word)
}

// The first word that stands in the middle.
fn middle_of(words: &[i64]) -> Option<i64>
    ensures { result ≡ find (stands_in_middle words.now) words.now }
{
    words.iter().copied().find(|w| is_middle(words, w))
}

/// Of k words, the one at place (k - 1) / 2 of their ascending order, rounded down; 0 where there is none.
#[tactic(auto, unfolding(crate::specs::Middle::stands_in_middle))]
pub fn median(words: &[i64]) -> i64
    ensures { result ≡ lower_median words.now }
{
    match middle_of(words) {
        Some(word) => word,
        None => 0,
    }
}
