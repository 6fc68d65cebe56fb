//! A pipe as a whole.
ghost use Rattle.std.specs.Prelude.{◌≡◌, ◌≤◌, [], IfOk};
ghost use Rattle.frame_pipe.specs.Pipes.{feed_name, framer_name, sent, capacity, copies_taken, known};

use crate::feed::{Feed, MOST_COPIES, PlanLong};
use crate::framer::Framer;
use icn_frames::Copies;
use rtrb::RingBuffer;
use std::alloc::{AllocError, Global};

/// A pipe for so many copies, with all the memory that it needs.
pub fn pipe(alloc: Global, room: u16) -> Result<(Feed, Framer), AllocError>
    requires some { 1 ≤ room }
    requires few { room ≤ 64 }
    ensures pair { IfOk result (λ r. feed_name r.0 ≡ framer_name r.1) }
    ensures feed { IfOk result (λ r. (sent r.0 ≡ []) × (capacity r.0 ≡ room)) }
    ensures framer { IfOk result (λ r. (copies_taken r.1 ≡ []) × (known r.1 ≡ [])) }
{
    let (producer, consumer) = RingBuffer::with_protocol::<Global, PlanLong>(
        alloc,
        usize::from(room),
    )?;
    let mut copies = Copies::new(alloc);
    copies.reserve(usize::from(MOST_COPIES))?;
    Ok((Feed { producer }, Framer { consumer, copies }))
}

/// All copies that were put, once both ends are back. It takes no memory.
pub fn gather(feed: Feed, framer: Framer) -> Copies
    requires { feed_name feed ≡ framer_name framer }
    ensures { result.items ≡ sent feed }
{
    let mut feed = feed;
    let mut framer = framer;
    let left = framer.look(&mut feed);
    for _ in 0..left {
        framer.take_known();
    }
    framer.into_copies()
}
