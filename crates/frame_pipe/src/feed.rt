//! The end of a pipe into which copies are put.
ghost use Rattle.std.specs.Prelude.{◌≡◌, ◌+◌, ◌<◌, ◌≤◌, List, [], ◌∷◌, ◌++◌, length};
ghost use Rattle.rtrb.specs.Ring.{known_free, producer_capacity};

use icn_frames::BlockCopy;
use rtrb::{Producer, Protocol};
use std::alloc::Global;

/// The most copies that a pipe takes: a plan is no longer.
pub const MOST_COPIES: u16 = 64;

/// What the feed promises the framer: that it puts no more than the longest plan has.
pub struct PlanLong;

impl Protocol<BlockCopy> for PlanLong {
    ghost allows = { λ before _. length before < 64 };
}

/// The name of a pipe, which its two ends have. Contracts alone name it, and no call makes one.
pub struct PipeName {
    pub words: *mut u64,
    pub slots: *mut BlockCopy,
    pub names: (u64, (u64, u64)),
    pub heap: Global,
}

/// Takes copies. It can move to another thread.
#[derive(Drop)]
pub struct Feed {
    pub(crate) producer: Producer<BlockCopy, Global, PlanLong>,
    ghost room: { producer_capacity producer ≤ known_free producer + length producer.end.past },
    ghost few: { producer_capacity producer ≤ 64 },
}

impl Feed {
    ghost use Rattle.frame_pipe.specs.Pipes.{feed_name, sent, capacity};

    /// Puts a copy into the pipe. It takes no memory, and is never refused.
    pub fn put(&mut self, copy: BlockCopy)
        requires { length (sent self.old) < capacity self.old }
        ensures sent { sent self.new ≡ sent self.old ++ copy ∷ [] }
        ensures capacity { capacity self.new ≡ capacity self.old }
        ensures name { feed_name self.new ≡ feed_name self.old }
    {
        self.producer.push_reserved(copy);
    }
}
