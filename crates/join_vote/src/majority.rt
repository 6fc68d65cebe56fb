//! Strictly more than half.
ghost use Rattle.std.specs.Prelude.{◌≡◌, ◌*◌, nat_lt};

/// Whether so many votes are strictly more than half of the voters.
pub fn is_most(votes: usize, voters: usize) -> bool
    ensures { result ≡ nat_lt voters (2 * votes) }
{
    votes > voters / 2
}
