//! How a run ends before its last line.
use icn_world::Halt;

/// Why a run was not told to its last line.
#[derive(Clone, Copy, Debug, PartialEq, Eq)]
pub enum RunStop {
    /// A cycle did not finish, or memory ran out beside it.
    Halted(Halt),
    /// The sink failed.
    WriteFault,
}
