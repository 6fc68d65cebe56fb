//! What came of a call.
ghost use Rattle.std.specs.Prelude.{◌≡◌};
ghost use Rattle.campaign_call.specs.Outcomes.{campaign_code};

use mission_check::Status;

/// What came of a call.
#[derive(Debug, Drop)]
pub enum CampaignStatus {
    /// The mission has faults of its own.
    HasFaults,
    /// As `guards` ends: all was written, or wrong words, bytes that are no mission, a fault of the source or the sink,
    /// or want of memory.
    Ended(Status),
}

impl CampaignStatus {
    /// The exit status of the program.
    pub fn code(&self) -> u8
        ensures { result ≡ campaign_code self.now }
    {
        match self {
            CampaignStatus::HasFaults => 3,
            CampaignStatus::Ended(status) => status.code(),
        }
    }
}
