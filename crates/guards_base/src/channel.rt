//! Channels and sets of channels.
ghost use Rattle.std.specs.Prelude.{◌≡◌, ◌≤◌, ◌<◌, ◌/◌, ◌%◌, ◌^◌, ◌==◌, [], ◌∷◌, length, MatchOption};
ghost use Rattle.guards_model.specs.Channels.{has, mask, numbers_below, set_of_mask, union, without};
ghost use Rattle.guards_base.specs.Masks.{mask_below, mask_with, mask_without};

use std::marker::Model;

/// The greatest number of channels.
pub const CHANNELS: u8 = 7;

/// A channel, numbered from 0 to 6.
#[derive(Clone, Copy, Debug, PartialEq, Eq)]
pub struct Chan {
    number: u8,
}

impl Model for Chan {
    ghost use Rattle.std.specs.Prelude.{ℕ, ◌<◌};

    ghost Value = { ℕ };

    ghost view = { λ chan. chan.number };

    ghost invariant = { λ chan. chan.number < 7 };

    ghost inverse = { λ number. record { number = number } };
}

impl Chan {
    /// The channel with this number, which is at most 6.
    pub fn new(n: u8) -> Option<Chan>
        ensures { MatchOption result (7 ≤ n) (λ chan. chan ≡ n) }
    {
        if n < CHANNELS {
            Some(Chan { number: n })
        } else {
            None
        }
    }

    /// The channel with this number.
    pub fn of(number: u8) -> Chan
        requires { number < 7 }
        ensures { result ≡ number }
    {
        Chan { number }
    }

    /// The channel's number.
    pub fn index(&self) -> u8
        ensures number { result ≡ self.now }
        ensures below { result < 7 }
    {
        self.number
    }
}

/// A set of channels, which contracts see as the ascending list of its members.
#[derive(Clone, Copy, Debug, PartialEq, Eq)]
pub struct ChanSet {
    bits: u8,
}

impl Model for ChanSet {
    ghost use Rattle.std.specs.Prelude.{◌<◌};
    ghost use Rattle.std.proofs.Common.{ap};
    ghost use Rattle.guards_model.specs.Channels.{ChannelSet, mask, set_of_mask};
    ghost use Rattle.guards_model.proofs.Masks.{mask_back};

    ghost Value = { ChannelSet };

    ghost view = { λ set. set_of_mask set.bits };

    ghost invariant = { λ set. set.bits < 128 };

    ghost inverse = { λ set. record { bits = mask set } };

    ghost inverse_ok = { λ set below. ap (λ bits. record { bits = bits }) (mask_back set.bits below) };
}

// The mask of one channel.
fn one_bit(number: u8) -> u8
    requires { number < 7 }
    ensures { result ≡ 2 ^ number }
{
    1 << number
}

// Whether the bit of a channel is set.
pub(crate) fn has_bit(bits: u8, number: u8) -> bool
    requires { number < 7 }
    ensures { result ≡ ((bits / 2 ^ number) % 2 == 1) }
{
    bits / one_bit(number) % 2 == 1
}

fn with_bit(bits: u8, number: u8) -> u8
    requires below { bits < 128 }
    requires channel { number < 7 }
    ensures { result ≡ mask_with bits number }
{
    if has_bit(bits, number) {
        bits
    } else {
        bits + one_bit(number)
    }
}

fn without_bit(bits: u8, number: u8) -> u8
    requires { number < 7 }
    ensures { result ≡ mask_without bits number }
{
    let bit = if has_bit(bits, number) {
        one_bit(number)
    } else {
        0
    };
    bits.saturating_sub(bit)
}

fn bits_below(count: u8) -> u8
    requires { count ≤ 7 }
    ensures { result ≡ mask_below count }
{
    if count < CHANNELS {
        one_bit(count) - 1
    } else {
        127
    }
}

impl ChanSet {
    /// The set without a member.
    pub fn empty() -> ChanSet
        ensures { result ≡ [] }
    {
        ChanSet { bits: 0 }
    }

    /// The channels whose numbers are below this one.
    pub fn below(count: u8) -> ChanSet
        requires { count ≤ 7 }
        ensures { result ≡ numbers_below count }
    {
        ChanSet {
            bits: bits_below(count),
        }
    }

    /// Whether a channel is a member.
    pub fn has(&self, c: Chan) -> bool
        ensures { result ≡ has self.now c }
    {
        has_bit(self.bits, c.number)
    }

    /// The members and this channel.
    pub fn with(self, c: Chan) -> ChanSet
        ensures { result ≡ union self (c ∷ []) }
    {
        ChanSet {
            bits: with_bit(self.bits, c.number),
        }
    }

    /// The members but this channel.
    pub fn without(self, c: Chan) -> ChanSet
        ensures { result ≡ without self (c ∷ []) }
    {
        ChanSet {
            bits: without_bit(self.bits, c.number),
        }
    }

    /// The number of members.
    pub fn count(&self) -> u8
        ensures value { result ≡ length self.now }
        ensures most { result ≤ 7 }
    {
        let bits = self.bits;
        bits % 2
            + bits / 2 % 2
            + bits / 4 % 2
            + bits / 8 % 2
            + bits / 16 % 2
            + bits / 32 % 2
            + bits / 64 % 2
    }

    /// The number whose bit q stands for channel q.
    #[tactic(auto, using(guards_model::proofs::Masks::mask_back))]
    pub fn mask(&self) -> u8
        ensures value { result ≡ mask self.now }
        ensures below { result < 128 }
        ensures members { self.now ≡ set_of_mask result }
    {
        self.bits
    }

    /// The set with this mask, unless bit 7 is set.
    pub fn from_mask(bits: u8) -> Option<ChanSet>
        ensures { MatchOption result (128 ≤ bits) (λ set. (bits < 128) × (set ≡ set_of_mask bits)) }
    {
        if bits < 128 {
            Some(ChanSet { bits })
        } else {
            None
        }
    }
}
