//! What came of a command.
ghost use Rattle.std.specs.Prelude.{◌≡◌};
ghost use Rattle.mission_check.specs.Statuses.{status_code};

use document_checks::Why;
use guards_base::ChanSet;
use guards_model::Slot;

/// What came of a command.
#[derive(Debug, Drop)]
pub enum Status {
    Done,
    Usage,
    BadMission(Why),
    TooLong,
    ReadFault,
    WriteFault,
    /// The run stopped at the end of this slot: a third of the active channels or more were disturbed.
    TooManyDisturbed {
        cycle: u32,
        slot: Slot,
        set: ChanSet,
        active: ChanSet,
    },
    NoMemory,
    /// The trace is not consistent with its mission: this line is the first that is not good, or one more than there
    /// are.
    NotARun(u32),
}

impl Status {
    /// The exit status of the program.
    pub fn code(&self) -> u8
        ensures { result ≡ status_code self.now }
    {
        match self {
            Status::Done => 0,
            Status::Usage => 2,
            Status::BadMission(_) => 3,
            Status::TooLong => 4,
            Status::ReadFault => 5,
            Status::WriteFault => 6,
            Status::TooManyDisturbed { .. } => 7,
            Status::NoMemory => 8,
            Status::NotARun(_) => 9,
        }
    }
}
