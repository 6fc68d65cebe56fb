//! The lines with which a campaign is refused.
ghost use Rattle.std.specs.Prelude.{◌≡◌};
ghost use Rattle.campaign_call.specs.Lines.{campaign_usage, faults_line};

/// The line of wrong words.
#[tactic(auto, unfolding(crate::specs::Lines::campaign_usage))]
pub(crate) fn usage_line() -> &'static str
    ensures { result.now ≡ campaign_usage }
{
    "usage: guards_campaign SEED RUNS CRASH DAMAGE LOSE FORGE | mission STATE CRASH DAMAGE LOSE FORGE\n"
}

/// The line of a mission with faults of its own.
#[tactic(auto, unfolding(crate::specs::Lines::faults_line))]
pub(crate) fn faults_line() -> &'static str
    ensures { result.now ≡ faults_line }
{
    "campaign: the mission has faults\n"
}
