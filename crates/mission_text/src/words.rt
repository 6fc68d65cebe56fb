//! Integers are words.
ghost use Rattle.std.specs.Prelude.{◌≡◌, true};
ghost use Rattle.std.specs.List.{list_all};
ghost use Rattle.guards_model.specs.Words.{is_word};

/// Each i64 is a word.
pub(crate) fn is_a_word(word: i64)
    ensures { is_word word ≡ true }
{}

/// Each i64 of a slice is a word.
pub(crate) fn are_words(words: &[i64])
    ensures { list_all is_word words.now ≡ true }
{
    match words {
        [] => {}
        [word, rest @ ..] => {
            is_a_word(*word);
            are_words(rest);
        }
    }
}
