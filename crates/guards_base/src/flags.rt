//! Sets of channels as tables with a truth value for each channel.
ghost use Rattle.std.specs.Prelude.{◌≡◌, ◌≤◌, ◌<◌, false, slice_index_or, if◌then◌else◌};
ghost use Rattle.guards_model.specs.Channels.{by_channel, channels_where, has};
ghost use Rattle.guards_base.specs.Flags.{mask_where};

use crate::{Chan, ChanSet, flags_by};

// What a channel adds to a mask.
fn weight_if(flag: bool, weight: u8) -> u8
    ensures value { result ≡ (if flag then weight else 0) }
    ensures most { result ≤ weight }
{
    if flag { weight } else { 0 }
}

// The mask of the channels whose flag is set.
fn mask_of(flags: &[bool; 7]) -> u8
    ensures value { result ≡ mask_where (λ q. slice_index_or flags.now q false) }
    ensures below { result < 128 }
{
    weight_if(flags[0], 1)
        + weight_if(flags[1], 2)
        + weight_if(flags[2], 4)
        + weight_if(flags[3], 8)
        + weight_if(flags[4], 16)
        + weight_if(flags[5], 32)
        + weight_if(flags[6], 64)
}

impl ChanSet {
    /// For each channel whether it is a member.
    pub fn flags(&self) -> [bool; 7]
        ensures value { result ≡ by_channel (has self.now) }
        ensures members { self.now ≡ channels_where (has self.now) }
    {
        let _mask = self.mask();
        flags_by(|c: Chan| self.has(c))
    }

    /// The set of the channels whose flag is set.
    pub fn of_flags(flags: &[bool; 7]) -> ChanSet
        ensures { result ≡ channels_where (λ q. slice_index_or flags.now q false) }
    {
        match ChanSet::from_mask(mask_of(flags)) {
            Some(set) => set,
            None => ChanSet::empty(),
        }
    }
}
