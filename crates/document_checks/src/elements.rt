//! The elements of an array.
ghost use Rattle.std.specs.Prelude.{◌≡◌, ℕ, ℤ, Bool, true, IsTrue, List, [], length, map, IfOk};
ghost use Rattle.std.specs.List.{list_all};
ghost use Rattle.toml.specs.Data.{Data};
ghost use Rattle.toml.specs.View.{view, items_view};
ghost use Rattle.document_checks.specs.Checks.{Checked, Gives, element, each, integers};

use crate::checks::{element, integer_of, sized};
use crate::why::ReadFault;
use guards_base::Sequence;
use std::alloc::Global;
use toml::Value;

/// What reads the elements of an array. It holds what their checks are told, as the sizes of the mission.
pub trait ElementReader {
    type Element: Drop;

    /// What an element means.
    ghost Meaning: { Type 0 };

    ghost meaning: { Self → Self.Element → Self.Meaning };

    /// The checks that an element passes, beside the elements before it.
    ghost check: { Self → List Self.Meaning → List ℕ → Data → Checked Self.Meaning };

    /// What is known of each element that passes.
    ghost holds: { Self → Self.Element → Bool } = { λ _ _. true };

    fn read(
        &self,
        alloc: Global,
        earlier: &[Self::Element],
        path: &str,
        value: &Value,
    ) -> Result<Self::Element, ReadFault>
        ensures holds { IfOk result (λ x. IsTrue (Self.holds self.now x)) }
        ensures exact { Gives (Self.meaning self.now) result
            (Self.check self.now (map (Self.meaning self.now) earlier.now) path.now (view value.now)) };
}

/// Reads each element of an array, up to the first that fails.
pub fn each<R: ElementReader>(
    alloc: Global,
    reader: &R,
    path: &str,
    items: &[Value],
) -> Result<Sequence<R::Element>, ReadFault>
    ensures exact { Gives (λ list. map (R.meaning reader.now) list.items) result
        (each (R.check reader.now) path.now [] (items_view items.now)) }
    ensures holds { IfOk result (λ list. IsTrue (list_all (R.holds reader.now) list.items)) }
    ensures count { IfOk result (λ list. length list.items ≡ length items.now) }
{
    let mut list = Sequence::new(alloc);
    for value in items {
        list.push(next(alloc, reader, path, list.as_slice(), value)?)?;
    }
    Ok(list)
}

/// Reads the element after those that were read.
fn next<R: ElementReader>(
    alloc: Global,
    reader: &R,
    path: &str,
    earlier: &[R::Element],
    value: &Value,
) -> Result<R::Element, ReadFault>
    ensures holds { IfOk result (λ x. IsTrue (R.holds reader.now x)) }
    ensures exact { Gives (R.meaning reader.now) result
        (R.check reader.now (map (R.meaning reader.now) earlier.now) (element path.now (length earlier.now))
        (view value.now)) }
{
    let place = element(alloc, path, earlier.len())?;
    reader.read(alloc, earlier, &place, value)
}

/// Reads integers of any value.
struct IntegerReader;

impl ElementReader for IntegerReader {
    ghost use Rattle.std.specs.Prelude.{ℤ};
    ghost use Rattle.document_checks.specs.Checks.{alone, integer_of};

    type Element = i64;

    ghost Meaning = { ℤ };

    ghost meaning = { λ _ integer. integer };

    ghost check = { λ _. alone integer_of };

    fn read(
        &self,
        alloc: Global,
        _earlier: &[i64],
        path: &str,
        value: &Value,
    ) -> Result<i64, ReadFault> {
        integer_of(alloc, value, path)
    }
}

/// An array of so many integers.
#[tactic(auto, unfolding(crate::specs::Checks::integers))]
pub fn integers(
    alloc: Global,
    count: usize,
    path: &str,
    value: &Value,
) -> Result<Sequence<i64>, ReadFault>
    ensures exact { Gives (λ list. list.items) result (integers count path.now (view value.now)) }
    ensures count { IfOk result (λ list. length list.items ≡ count) }
{
    let items = sized(alloc, value, count, count, path)?;
    each(alloc, &IntegerReader, path, items)
}
