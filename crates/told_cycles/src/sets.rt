//! Sets of channels.
ghost use Rattle.std.specs.Prelude.{◌≡◌, ◌<◌, ◌^◌, ◌&&◌, ◌||◌, nat_lt, bytes_eq};
ghost use Rattle.std.specs.List.{list_all};
ghost use Rattle.guards_model.specs.Channels.{has};

use guards_base::{Chan, ChanSet};

/// Both tests, each of which is done.
pub fn both(one: bool, other: bool) -> bool
    ensures { result ≡ (one && other) }
{
    one && other
}

/// Either test, each of which is done.
pub fn either(one: bool, other: bool) -> bool
    ensures { result ≡ (one || other) }
{
    one || other
}

/// Whether all members of the first set are in the second.
pub fn within(a: ChanSet, b: ChanSet) -> bool
    ensures { result ≡ list_all (has b) a }
{
    a.difference(b).count() == 0
}

fn power(exponent: u8) -> u8
    requires { exponent < 7 }
    ensures { result ≡ 2 ^ exponent }
{
    1 << exponent
}

/// Whether all members are below a channel.
pub fn all_below(set: ChanSet, bound: u8) -> bool
    requires { bound < 7 }
    ensures { result ≡ list_all (λ q. nat_lt q bound) set }
{
    set.mask() < power(bound)
}

/// Whether two sets are the same.
pub fn are_same(a: ChanSet, b: ChanSet) -> bool
    ensures { result ≡ bytes_eq a b }
{
    a.mask() == b.mask()
}

/// Whether a channel is in a set.
pub fn is_in(set: ChanSet, number: u8) -> bool
    requires { number < 7 }
    ensures { result ≡ has set number }
{
    set.has(Chan::of(number))
}
