//! The end of a pipe from which copies are taken.
ghost use Rattle.std.specs.Prelude.{◌≡◌, ◌+◌, ◌<◌, ◌≤◌, List, [], ◌∷◌, ◌++◌, length, MatchBool};
ghost use Rattle.rtrb.specs.Ring.{received};
ghost use mathlib.Core.List.{IsPrefix};

use crate::feed::{Feed, PlanLong};
use icn_frames::{BlockCopy, Copies};
use rtrb::Consumer;
use std::alloc::Global;

/// Takes the copies out of the ring into a list. It can move to another thread.
#[derive(Drop)]
pub struct Framer {
    pub(crate) consumer: Consumer<BlockCopy, Global, PlanLong>,
    pub(crate) copies: Copies,
    ghost all: { copies.items ≡ received consumer },
    ghost room: { 64 ≤ length copies.items + copies.spare },
}

impl Framer {
    ghost use Rattle.guards_model.specs.Frames.{CopyValue};
    ghost use Rattle.frame_pipe.specs.Pipes.{feed_name, framer_name, sent, copies_taken, known};

    /// Moves the next copy from the ring to the list. It answers false only where it knows of no copy in the ring, and
    /// then nothing changes. It never waits and takes no memory.
    pub fn take(&mut self) -> bool
        ensures moved { MatchBool result
            ((copy : CopyValue) × (copies_taken self.new ≡ copies_taken self.old ++ copy ∷ [])
            × IsPrefix (known self.old) (copy ∷ known self.new))
            ((copies_taken self.new ≡ copies_taken self.old) × (known self.old ≡ []) × (known self.new ≡ [])) }
        ensures name { framer_name self.new ≡ framer_name self.old }
    {
        let Ok(copy) = self.consumer.pop() else {
            return false;
        };
        self.copies.push_reserved(copy);
        true
    }

    // Looks into the ring beside the feed, and says how many copies are left in it.
    pub(crate) fn look(&mut self, feed: &mut Feed) -> usize
        requires { feed_name feed.old ≡ framer_name self.old }
        ensures left { result ≡ length (known self.new) }
        ensures all { copies_taken self.new ++ known self.new ≡ sent feed.old }
    {
        self.consumer.slots_beside(&mut feed.producer)
    }

    // The copies that were taken.
    pub(crate) fn into_copies(self) -> Copies
        ensures { result.items ≡ copies_taken self }
    {
        let Framer {
            consumer: _,
            copies,
        } = self;
        copies
    }

    // Moves a copy that is known to be in the ring.
    pub(crate) fn take_known(&mut self)
        requires { 0 < length (known self.old) }
        ensures { (copy : CopyValue) × (copies_taken self.new ≡ copies_taken self.old ++ copy ∷ [])
            × (known self.old ≡ copy ∷ known self.new) }
    {
        let next = self.consumer.pop_known();
        self.copies.push_reserved(next);
    }
}
