//! From bytes to a mission.
ghost use Rattle.std.specs.Prelude.{◌≤◌, IsTrue};
ghost use Rattle.toml.specs.View.{table_view};
ghost use Rattle.guards_model.specs.Missions.{is_rules};
ghost use Rattle.document_checks.specs.Checks.{Gives};
ghost use Rattle.mission_text.specs.Core.{rules_of};
ghost use Rattle.mission_text.specs.Mission.{mission_after, mission_at, mission_of};

use crate::actuator::actuator_field;
use crate::blocks::initial_field;
use crate::core_fields::{CoreFields, core_of};
use crate::expressions::TextSizes;
use crate::outputs::outputs_field;
use crate::rows::table_field;
use crate::sensors::sensors_field;
use document_checks::{ReadFault, document, only, required};
use fault_entries::script_of;
use mission_type::Mission;
use std::alloc::Global;
use toml::Table;

const KEYS: [&str; 8] = [
    "core", "init", "task", "table", "outputs", "sensors", "fault", "actuator",
];

/// The mission with this core, by the other keys of its document.
#[tactic(auto, unfolding(crate::specs::Mission::mission_after))]
fn mission_after(alloc: Global, fields: &Table, core: CoreFields) -> Result<Mission, ReadFault>
    requires rules { IsTrue (is_rules (rules_of core)) }
    requires channels { (3 ≤ core.sizes.channels) × (core.sizes.channels ≤ 7) }
    requires cycles { (1 ≤ core.sizes.cycles) × (core.sizes.cycles ≤ 2000) }
    requires blocks { (1 ≤ core.sizes.blocks) × (core.sizes.blocks ≤ 256) }
    requires width { (1 ≤ core.sizes.width) × (core.sizes.width ≤ 4) }
    requires return_after { core.limits.return_after ≤ 1000 }
    ensures { Gives (λ mission. mission) result (mission_after core (table_view fields.now)) }
{
    let sizes = TextSizes {
        blocks: core.sizes.blocks,
        width: core.sizes.width,
    };
    let channels = core.sizes.channels;
    let cycles = core.sizes.cycles;
    let initial = initial_field(alloc, fields, sizes.blocks)?;
    let table = table_field(alloc, fields, sizes)?;
    let outputs = outputs_field(alloc, fields, sizes)?;
    let sensors = sensors_field(alloc, fields, channels, sizes.width)?;
    let script = script_of(alloc, fields, channels, cycles, sizes.blocks)?;
    let actuator = actuator_field(alloc, fields, outputs.len())?;
    Ok(Mission {
        rules: core.rules(),
        cycles,
        width: sizes.width,
        return_after: core.limits.return_after,
        initial,
        table,
        outputs,
        sensors,
        script,
        actuator,
    })
}

/// The mission of a document, key by key.
#[tactic(auto, unfolding(crate::specs::Mission::mission_at))]
fn mission_at(alloc: Global, fields: &Table) -> Result<Mission, ReadFault>
    ensures { Gives (λ mission. mission) result (mission_at (table_view fields.now)) }
{
    only(alloc, &KEYS, "", fields)?;
    let given = required(alloc, fields, "", "core")?;
    let core = core_of(alloc, given, "core")?;
    mission_after(alloc, fields, core)
}

/// The mission that the bytes stand for, or the first check that fails.
#[tactic(auto, unfolding(crate::specs::Mission::mission_of))]
pub fn read(alloc: Global, bytes: &[u8]) -> Result<Mission, ReadFault>
    ensures { Gives (λ mission. mission) result (mission_of bytes.now) }
{
    let fields = document(alloc, bytes)?;
    mission_at(alloc, &fields)
}
