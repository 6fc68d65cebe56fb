//! The value that more than half of some values are.
ghost use Rattle.std.specs.Prelude.{◌≡◌, ◌≤◌, ◌<◌, MatchBool, count_by};
ghost use Rattle.std.specs.Option.{option_eq};
ghost use Rattle.guards_model.specs.OralMessages.{same_source_word, majority_value};

use crate::words::same;
use guards_base::SourceWord;

/// Whether more than so many of the values are equal to one. It looks at no more of them than decide that.
fn more_equal(values: &[Option<SourceWord>], value: &Option<SourceWord>, bar: usize) -> bool
    ensures { MatchBool result (bar < count_by (option_eq same_source_word value.now) values.now)
        (count_by (option_eq same_source_word value.now) values.now ≤ bar) }
{
    match values {
        [] => false,
        [other, rest @ ..] => {
            if same(value, other) {
                bar == 0 || more_equal(rest, value, bar - 1)
            } else {
                more_equal(rest, value, bar)
            }
        }
    }
}

/// The value that more than half of them are; missing where there is none, and missing counts as a value.
pub fn settle(values: &[Option<SourceWord>]) -> Option<SourceWord>
    ensures { result ≡ majority_value values.now }
{
    for value in values {
        if more_equal(values, value, values.len() / 2) {
            return *value;
        }
    }
    None
}
