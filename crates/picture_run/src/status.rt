//! What came of drawing a report.
ghost use Rattle.std.specs.Prelude.{◌≡◌};
ghost use Rattle.picture_run.specs.Drawing.{picture_code};

use mission_check::Status;

/// The most bytes that are read: of a mission and its report together.
pub const MAX_INPUT_BYTES: usize = 16_777_216;

/// What came of drawing a report.
#[derive(Debug, Drop)]
pub enum PictureStatus {
    /// This line, from 1, may not come where it stands, or does not fit the mission; or the report has none.
    BadReport(u32),
    /// As `guards` ends: the picture was written, or there are words, the bytes before the report are no mission, there
    /// are too many bytes, the source or the sink failed, or memory ran out.
    Ended(Status),
}

impl PictureStatus {
    /// The exit status of the program.
    pub fn code(&self) -> u8
        ensures { result ≡ picture_code self.now }
    {
        match self {
            PictureStatus::BadReport(_) => 3,
            PictureStatus::Ended(status) => status.code(),
        }
    }
}
