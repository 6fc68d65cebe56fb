//! The front of a set.
ghost use Rattle.std.specs.Prelude.{◌≡◌, ◌≤◌, filter, take, nat_lt};
ghost use Rattle.control_state.specs.Fronts.{rank_in};

use guards_base::{Chan, ChanSet};

// How many members are lower than a channel.
fn rank(set: ChanSet, c: Chan) -> u8
    ensures { result ≡ rank_in set c }
{
    set.filter(
        |p: Chan| -> bool
            ensures { result ≡ nat_lt p c }
        { p.index() < c.index() },
    )
    .count()
}

// The members with fewer than so many lower ones.
fn front(set: ChanSet, most: u8) -> ChanSet
    ensures { result ≡ filter (λ q. nat_lt (rank_in set q) most) set }
{
    set.filter(
        |c: Chan| -> bool
            ensures { result ≡ nat_lt (rank_in set c) most }
        { rank(set, c) < most },
    )
}

/// The lowest members of a set, so many at most.
pub fn lowest(set: ChanSet, most: u8) -> ChanSet
    requires { most ≤ 7 }
    ensures { result ≡ take most set }
{
    let _mask = set.mask();
    front(set, most)
}
