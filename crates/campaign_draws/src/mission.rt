//! The mission of a run.
ghost use Rattle.std.specs.Prelude.{◌≡◌, true, None, IfOk, OnOk};
ghost use Rattle.std.specs.List.{list_all};
ghost use Rattle.guards_model.specs.ScriptFaults.{script_fault};
ghost use Rattle.fault_entries.specs.Entries.{is_entry};
ghost use Rattle.campaign_draws.specs.Drawing.{after_run, drawn_mission, sizes_of, with_script};

use crate::draws::Draws;
use crate::rates::Rates;
use crate::script::drawn_script;
use crate::sizes::Sizes;
use fault_script::Script;
use mission_type::Mission;
use std::alloc::{AllocError, Global};

/// The sizes of a mission.
pub fn sizes_of(mission: &Mission) -> Sizes
    ensures { result ≡ sizes_of mission.now }
{
    mission.prove_mission();
    mission.prove_sizes();
    let rules = mission.rules();
    Sizes {
        channels: rules.channels,
        cycles: mission.cycles(),
        blocks: rules.blocks,
        outputs: mission.outputs().len() as u8,
        version: rules.version,
    }
}

/// The mission with this script in place of its own.
fn with_script(mission: Mission, script: Script) -> Mission
    requires kept { script_fault mission.rules.channels mission.cycles mission.rules.blocks script ≡ None }
    requires entries { list_all is_entry script ≡ true }
    ensures { result ≡ with_script mission script }
{
    let mut changed = mission;
    changed.script = script;
    changed
}

/// Draws the script of a run, puts it in place of the mission's own, and goes on to the number after its draws. It
/// keeps the rules of a script, so it fails for want of memory alone.
#[tactic(auto, unfolding(crate::specs::Drawing::drawn_mission))]
pub fn drawn_mission(
    alloc: Global,
    mission: Mission,
    rates: Rates,
    draws: &mut Draws,
) -> Result<Mission, AllocError>
    ensures mission { IfOk result (λ drawn. drawn ≡ drawn_mission mission rates draws.old) }
    ensures number { OnOk result (draws.new ≡ after_run (sizes_of mission) rates draws.old) }
{
    let sizes = sizes_of(&mission);
    let script = drawn_script(alloc, sizes, rates, draws)?;
    Ok(with_script(mission, script))
}
