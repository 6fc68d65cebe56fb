//! A channel's round of work in a cycle: the writes of the cycle's row and the copies of the plan, in whatever order
//! two workers make them under the context lock. What they did is the replay of one history.
#![tactic(auto)]

mod ending;
mod start;
mod trail;
mod turns;
mod work;
mod workers;

pub use ending::end_round;
pub use start::RoundStart;
pub use trail::{Finished, Trail};
pub use turns::Round;
pub use work::{WorkedRound, work_round};
pub use workers::{Crew, work_beside, work_ended};
