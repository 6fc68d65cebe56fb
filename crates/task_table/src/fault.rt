//! Why tasks and rows make no table.

use thiserror::Error;

/// Why tasks and rows are no table.
#[derive(Clone, Copy, Debug, PartialEq, Eq, Error)]
pub enum TableFault {
    /// There are not 1 to 64 tasks.
    #[error("Tasks")]
    Tasks,
    /// The task has not 1 to 16 writes.
    #[error("Writes")]
    Writes { task: u16 },
    /// The block of the write is not there.
    #[error("Block")]
    Block { task: u16, write: u16 },
    /// The write has no expression.
    #[error("Set")]
    Set { task: u16, write: u16 },
    /// There are not 1 to 16 rows.
    #[error("Rows")]
    Rows,
    /// The row has more than 16 tasks.
    #[error("Row")]
    Row { row: u16 },
    /// Never answered: a table takes no memory.
    #[error("Memory")]
    Memory,
}
