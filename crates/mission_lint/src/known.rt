//! The rules of a mission, which are within their ranges.
ghost use Rattle.std.specs.Prelude.{◌≡◌, ◌≤◌, length};
ghost use Rattle.guards_model.specs.JoinBound.{most_blocks};

use guards_base::Rules;
use mission_type::Mission;

/// The blocks of a context, 1 to 256.
pub(crate) fn blocks_of(mission: &Mission) -> u16
    ensures value { result ≡ mission.now.rules.blocks }
    ensures some { 1 ≤ result }
    ensures most { result ≤ 256 }
{
    mission.prove_mission();
    mission.rules().blocks
}

/// How many blocks a cycle copies at most, 1 to 64.
pub(crate) fn sweep_of(mission: &Mission) -> u8
    ensures value { result ≡ mission.now.rules.sweep }
    ensures most { result ≤ 64 }
{
    mission.prove_mission();
    mission.rules().sweep
}

/// How many blocks a final frame has at most.
pub(crate) fn last_of(mission: &Mission) -> u8
    ensures { result ≡ mission.now.rules.last }
{
    mission.rules().last
}

/// How many blocks a row writes at most.
pub(crate) fn writes_of(mission: &Mission) -> u16
    ensures { result ≡ most_blocks mission.now.table }
{
    mission.table().most_blocks()
}

/// How many rows the table has.
pub(crate) fn rows_of(mission: &Mission) -> u16
    ensures { result ≡ length mission.now.table }
{
    mission.table().rows()
}

/// The rules, of which the constants of removal are within their ranges.
pub(crate) fn rules_of(mission: &Mission) -> &Rules
    ensures rules { result.now ≡ mission.now.rules }
    ensures keep { result.now.keep ≤ 65536 }
    ensures threshold { result.now.threshold ≤ 6553600 }
{
    mission.prove_mission();
    mission.rules()
}
