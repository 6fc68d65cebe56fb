//! Source words of the type are within the ranges of frames.
ghost use Rattle.std.specs.Prelude.{◌≡◌, true, nat_le, length};
ghost use Rattle.std.specs.List.{list_all};
ghost use Rattle.guards_model.specs.Words.{is_word};
ghost use Rattle.guards_model.specs.Frames.{is_set, absent_or, codes_in_range, source_word_in_range, words_in_range};

use guards_base::{ChanSet, SourceWord};

/// Each i64 is a word.
fn is_a_word(word: i64)
    ensures { is_word word ≡ true }
{}

fn words_are_words(words: &[i64])
    ensures { list_all is_word words.now ≡ true }
{
    match words {
        [] => {}
        [word, rest @ ..] => {
            is_a_word(*word);
            words_are_words(rest);
        }
    }
}

/// Each set of the type is a set.
#[tactic(auto, using(guards_model::proofs::Numbers::is_set_of_mask))]
fn is_a_set(set: &ChanSet)
    ensures { is_set set.now ≡ true }
{
    let _mask = set.mask();
}

fn has_words(word: &SourceWord)
    ensures { words_in_range 1 4 word.now.words ≡ true }
{
    let _width = word.width;
    words_are_words(word.in_use());
}

/// Whether each code is 0, 1 or 2.
fn are_codes(heard: &[u8; 7]) -> bool
    ensures codes { result ≡ list_all (λ code. nat_le code 2) heard.now }
    ensures seven { length heard.now ≡ 7 }
{
    let [a, b, c, d, e, f, g] = *heard;
    a <= 2 && b <= 2 && c <= 2 && d <= 2 && e <= 2 && f <= 2 && g <= 2
}

fn has_codes(word: &SourceWord)
    ensures { codes_in_range word.now.heard ≡ true }
{
    let _codes = are_codes(&word.heard);
}

fn value_fits(word: &Option<SourceWord>)
    ensures { absent_or source_word_in_range word.now ≡ true }
{
    match word {
        None => {}
        Some(word) => {
            has_words(word);
            is_a_set(&word.accuse);
            has_codes(word);
        }
    }
}

/// Each value of the type is missing or within the ranges.
pub fn values_fit(values: &[Option<SourceWord>])
    ensures { list_all (absent_or source_word_in_range) values.now ≡ true }
{
    match values {
        [] => {}
        [value, rest @ ..] => {
            value_fits(value);
            values_fit(rest);
        }
    }
}
