//! A round that is refused.
ghost use Rattle.std.specs.Prelude.{◌≡◌};

use crate::alone::work;
use crate::cycle::exchange;
use crate::small::{first, word};
use crate::told::Told;
use channel_node::Node;
use mission_type::Mission;
use std::alloc::{AllocError, Global};
use std::sync::Wait;
use std::thread::Threads;

// Whether the node worked a round; where it was refused for want of memory the context is as before, and so is the
// history.
fn works_or_stays<R: Threads + Wait + Sync>(
    rt: &R,
    alloc: Global,
    node: &mut Node,
    mission: &Mission,
) -> Result<bool, AllocError>
    requires { mission.now.rules ≡ node.old.rules }
{
    let exchanged = exchange(alloc, node, mission, 0, &Told::plain(4, 6))?;
    if exchanged.is_none() {
        return Ok(false);
    }
    match work(rt, alloc, node, mission, 0) {
        Ok(()) => Ok(word(node, 0) == Some(6) && node.history().is_some()),
        Err(_refused) => Ok(word(node, 0) == Some(0) && node.history().is_none()),
    }
}

/// In the gate the round is worked. `rt try --test --fail-alloc 1..` has each allocation fail in turn.
pub fn a_refused_round_leaves_the_context<R: Threads + Wait + Sync>(
    rt: &R,
    alloc: Global,
    mission: &Mission,
) -> Result<bool, AllocError> {
    match first(alloc, mission, 1)? {
        Some(mut node) => works_or_stays(rt, alloc, &mut node, mission),
        None => Ok(false),
    }
}
