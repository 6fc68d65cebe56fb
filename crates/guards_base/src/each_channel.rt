//! A value for each channel, by one closure.
ghost use Rattle.std.specs.Prelude.{◌≡◌, ◌<◌, ◌&&◌, ℕ, Bool, filter};
ghost use Rattle.guards_model.specs.Channels.{by_channel, channels_where, has, union, without};
ghost use Rattle.guards_base.specs.Tables.{IsTableOf};

use crate::{Chan, ChanSet};

/// The table that has at each channel's place what the closure answers.
pub fn table_by<T, F: Fn(Chan) -> T>(value: F) -> [T; 7]
    requires { (q : ℕ) → q < 7 → F.pre value q }
    ensures table { (f : ℕ → T) → ((q : ℕ) (x : T) → q < 7 → F.post value q x → x ≡ f q) → result ≡ by_channel f }
    ensures each { IsTableOf (F.post value) result }
{
    [
        value(Chan::of(0)),
        value(Chan::of(1)),
        value(Chan::of(2)),
        value(Chan::of(3)),
        value(Chan::of(4)),
        value(Chan::of(5)),
        value(Chan::of(6)),
    ]
}

/// For each channel whether it passes the test.
pub fn flags_by<F: Fn(Chan) -> bool>(test: F) -> [bool; 7]
    requires { (q : ℕ) → q < 7 → F.pre test q }
    ensures { (p : ℕ → Bool) → ((q : ℕ) (b : Bool) → q < 7 → F.post test q b → b ≡ p q) → result ≡ by_channel p }
{
    table_by(test)
}

/// The set of the channels that pass the test.
pub fn set_by<F: Fn(Chan) -> bool>(test: F) -> ChanSet
    requires { (q : ℕ) → q < 7 → F.pre test q }
    ensures { (p : ℕ → Bool) → ((q : ℕ) (b : Bool) → q < 7 → F.post test q b → b ≡ p q) → result ≡ channels_where p }
{
    ChanSet::of_flags(&flags_by(test))
}

impl ChanSet {
    /// The members that pass the test.
    pub fn filter<F: Fn(Chan) -> bool>(self, test: F) -> ChanSet
        requires { (q : ℕ) → q < 7 → F.pre test q }
        ensures { (p : ℕ → Bool) → ((q : ℕ) (b : Bool) → q < 7 → F.post test q b → b ≡ p q) → result ≡ filter p self }
    {
        let _flags = self.flags();
        self.intersection(set_by(test))
    }

    /// The members of both sets.
    pub fn intersection(self, other: ChanSet) -> ChanSet
        ensures { result ≡ channels_where (λ q. has self q && has other q) }
    {
        set_by(|c: Chan| self.has(c) && other.has(c))
    }

    /// The members of either set.
    pub fn union(self, other: ChanSet) -> ChanSet
        ensures { result ≡ union self other }
    {
        set_by(|c: Chan| self.has(c) || other.has(c))
    }

    /// The members of this set that the other doesn't have.
    pub fn difference(self, other: ChanSet) -> ChanSet
        ensures { result ≡ without self other }
    {
        self.filter(|c: Chan| !other.has(c))
    }
}
