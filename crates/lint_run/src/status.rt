//! What came of a call.
ghost use Rattle.std.specs.Prelude.{◌≡◌};
ghost use Rattle.lint_run.specs.Outcomes.{lint_code};

use mission_check::Status;

/// What came of a call.
#[derive(Debug, Drop)]
pub enum LintStatus {
    /// All lines were written, and none of them warns.
    Clean,
    /// All lines were written, and some of them warn.
    Warned,
    /// As `guards` stops: wrong words, bytes that are no mission, a fault of the source or the sink, or want of
    /// memory.
    Stopped(Status),
}

impl LintStatus {
    /// The exit status of the program.
    pub fn code(&self) -> u8
        ensures { result ≡ lint_code self.now }
    {
        match self {
            LintStatus::Clean => 0,
            LintStatus::Warned => 1,
            LintStatus::Stopped(status) => status.code(),
        }
    }
}
