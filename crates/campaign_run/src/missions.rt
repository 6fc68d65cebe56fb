//! What a mission tells of its transfers.
ghost use Rattle.std.specs.Prelude.{◌≡◌};
ghost use Rattle.campaign_run.specs.Campaigns.{bound_of};

use check_text::join_bound;
use mission_type::Mission;

/// The most cycles that a transfer of a mission takes, if there is such a bound.
pub(crate) fn bound_of(mission: &Mission) -> Option<u32>
    ensures { result ≡ bound_of mission.now }
{
    let rules = mission.rules();
    join_bound(
        rules.blocks,
        u16::from(rules.sweep),
        u16::from(rules.last),
        mission.table().most_blocks(),
    )
}
