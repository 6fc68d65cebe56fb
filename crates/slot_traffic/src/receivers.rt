//! To whom a frame goes.
ghost use Rattle.std.specs.Prelude.{◌≡◌, [], ◌∷◌, IfOk};
ghost use Rattle.guards_model.specs.Channels.{without};
ghost use Rattle.slot_traffic.specs.Receiving.{receiver_numbers};

use guards_base::{Chan, ChanSet};
use std::alloc::{AllocError, Global};

/// The receivers of a frame, of which its sender is never one.
#[derive(Clone, Copy, Debug, PartialEq, Eq)]
pub enum Receivers {
    Channels(ChanSet),
    /// Its number is 7.
    Switchboard,
}

/// The members of a set, ascending.
fn members(alloc: Global, set: ChanSet) -> Result<Vec<u8>, AllocError>
    ensures { IfOk result (λ numbers. numbers.items ≡ set) }
{
    let flags = set.flags();
    let mut numbers = Vec::new(alloc);
    for number in 0..7u8 {
        if flags[number as usize] {
            numbers.push(number)?;
        }
    }
    Ok(numbers)
}

impl Receivers {
    /// Their numbers but the sender's, ascending.
    pub(crate) fn but(self, alloc: Global, sender: Chan) -> Result<Vec<u8>, AllocError>
        ensures { IfOk result (λ numbers. numbers.items ≡ without (receiver_numbers self) (sender ∷ [])) }
    {
        match self {
            Receivers::Channels(set) => members(alloc, set.without(sender)),
            Receivers::Switchboard => Ok(vec![in alloc; 7]?),
        }
    }
}
