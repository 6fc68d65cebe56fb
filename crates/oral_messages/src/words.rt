//! Paths, and equal words.
ghost use Rattle.std.specs.Prelude.{◌≡◌, bytes_eq};
ghost use Rattle.std.specs.Cmp.Lexicographic.{pointwise};
ghost use Rattle.std.specs.Ordering.{int_eq};
ghost use Rattle.std.specs.Option.{option_eq};
ghost use Rattle.guards_model.specs.OralMessages.{same_source_word};

use guards_base::{ChanSet, SourceWord};

/// A path of one to three labels, the source first; unused places are 0.
#[derive(Clone, Copy, Debug, PartialEq, Eq)]
pub struct Path {
    pub count: u8,
    pub at: [u8; 3],
}

/// Whether two sets are equal.
fn same_set(a: &ChanSet, b: &ChanSet) -> bool
    ensures { result ≡ bytes_eq a.now b.now }
{
    a.mask() == b.mask()
}

/// Whether two lists of words are equal.
fn same_list(v: &[i64], w: &[i64]) -> bool
    ensures { result ≡ pointwise int_eq v.now w.now }
{
    match (v, w) {
        ([], []) => true,
        ([x, xs @ ..], [y, ys @ ..]) => *x == *y && same_list(xs, ys),
        _ => false,
    }
}

/// Whether two lists of codes are equal: four at a time.
fn same_codes(v: &[u8], w: &[u8]) -> bool
    ensures { result ≡ bytes_eq v.now w.now }
{
    match (v, w) {
        ([v0, v1, v2, v3, xs @ ..], [w0, w1, w2, w3, ys @ ..]) => {
            *v0 == *w0 && *v1 == *w1 && *v2 == *w2 && *v3 == *w3 && same_codes(xs, ys)
        }
        ([x, xs @ ..], [y, ys @ ..]) => *x == *y && same_codes(xs, ys),
        ([], []) => true,
        _ => false,
    }
}

/// Whether the words in use are equal.
fn same_words(v: &SourceWord, w: &SourceWord) -> bool
    ensures { result ≡ pointwise int_eq v.now.words w.now.words }
{
    same_list(v.in_use(), w.in_use())
}

/// Whether two words are equal.
fn same_word(v: &SourceWord, w: &SourceWord) -> bool
    ensures { result ≡ same_source_word v.now w.now }
{
    same_words(v, w) && same_set(&v.accuse, &w.accuse) && same_codes(&v.heard, &w.heard)
}

/// Whether two values are equal; missing is a value too.
pub fn same(a: &Option<SourceWord>, b: &Option<SourceWord>) -> bool
    ensures { result ≡ option_eq same_source_word a.now b.now }
{
    match (a, b) {
        (None, None) => true,
        (Some(v), Some(w)) => same_word(v, w),
        _ => false,
    }
}
