//! Why bytes are no mission.
ghost use Rattle.std.specs.Prelude.{◌≡◌};
ghost use Rattle.document_checks.specs.declared.why.ReadFault.TheVariants.{Memory};

use guards_base::Text;
use std::alloc::{AllocError, AllocFailed};

/// What is wrong at a place of the mission.
#[derive(Clone, Copy, Debug, PartialEq, Eq)]
pub enum Cause {
    NotToml,
    Missing,
    WrongType,
    OutOfRange,
    Unknown,
    Duplicate,
    BadExpr,
}

/// The first check that fails, and where.
#[derive(Debug, Drop)]
pub struct Why {
    pub cause: Cause,
    pub path: Text,
    pub at: Option<u16>,
}

/// Why a document was not read.
#[derive(Debug, Drop)]
pub enum ReadFault {
    Bad(Why),
    Memory,
}

impl From<AllocError> for ReadFault {
    ghost from_gives = { λ _ fault. fault ≡ Memory };

    fn from(_error: AllocError) -> ReadFault {
        ReadFault::Memory
    }
}

impl<T: Drop> From<AllocFailed<T>> for ReadFault {
    ghost from_gives = { λ _ fault. fault ≡ Memory };

    fn from(_error: AllocFailed<T>) -> ReadFault {
        ReadFault::Memory
    }
}
