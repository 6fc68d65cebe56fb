//! What a round starts from.
use context_blocks::Context;
use dirty_tags::Plan;
use frame_pipe::PipeName;
use task_table::Table;

/// What a round starts from, which its steps leave as it was. Contracts alone name it, and no call makes one.
pub struct RoundStart {
    pub context: Context,
    pub table: Table,
    pub cycle: u32,
    pub inputs: [i64; 4],
    pub plan: Plan,
    /// The pipe into which the copies are put.
    pub pipe: PipeName,
}
