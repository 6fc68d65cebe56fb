//! The mission.
ghost use Rattle.std.specs.Prelude.{◌≡◌, [], ◌∷◌, map, Ok, IsOk, IfOk, OnOk};
ghost use Rattle.task_table.specs.Tables.{places_of};
ghost use Rattle.demo_mission.specs.Demo.{number_after, demo_tasks, demo_script, demo_mission};

use crate::draws::Draws;
use crate::faults::demo_faults;
use crate::sensors::sensor_rows;
use crate::tasks::demo_tasks;
use context_blocks::Context;
use fault_script::Script;
use guards_base::{Law, Numbers, Rules, Sequence};
use mission_type::{Mission, Outputs};
use std::alloc::{AllocError, Global};
use task_table::{Table, TableFault, TaskRows};

const RULES: Rules = Rules {
    channels: 7,
    blocks: 128,
    version: 1,
    law: Law::Multiply,
    keep: 32_768,
    decrement: 32_768,
    threshold: 196_608,
    sweep: 16,
    last: 8,
    returning: 1,
};

/// A row with one task.
fn row_of(alloc: Global, place: u32) -> Result<Numbers, AllocError>
    ensures { IfOk result (λ row. row.items ≡ place ∷ []) }
{
    let mut row = Numbers::new(alloc);
    row.push(place)?;
    Ok(row)
}

/// Four rows, each with the task of its number.
fn four_rows(alloc: Global) -> Result<TaskRows, AllocError>
    ensures { IfOk result (λ rows. places_of rows.items ≡ (0 ∷ []) ∷ (1 ∷ []) ∷ (2 ∷ []) ∷ (3 ∷ []) ∷ []) }
{
    let mut rows = Sequence::new(alloc);
    rows.push(row_of(alloc, 0)?)?;
    rows.push(row_of(alloc, 1)?)?;
    rows.push(row_of(alloc, 2)?)?;
    rows.push(row_of(alloc, 3)?)?;
    Ok(rows)
}

/// The table that was made.
fn made(table: Result<Table, TableFault>) -> Table
    requires { IsOk table }
    ensures { table ≡ Ok result }
{
    table.ok().unwrap()
}

/// The table of the tasks.
fn demo_table(alloc: Global, draws: &mut Draws) -> Result<Table, AllocError>
    ensures table { IfOk result
        (λ table. table ≡ record {
          rows = map (λ task. task ∷ []) (demo_tasks 4 0 draws.old.number);
          blocks = 128;
          width = 2;
        }) }
    ensures number { OnOk result (draws.new.number ≡ number_after 16 draws.old.number) }
{
    let tasks = demo_tasks(alloc, draws)?;
    let rows = four_rows(alloc)?;
    Ok(made(Table::new(tasks, rows, 128, 2)))
}

/// The script of the faults.
fn demo_script(alloc: Global, draws: &mut Draws) -> Result<Script, AllocError>
    ensures { IfOk result (λ script. script ≡ demo_script 10 0 draws.old.number) }
{
    let faults = demo_faults(alloc, draws)?;
    match Script::new(alloc, faults, 7, 400, 128) {
        Ok(script) => Ok(script),
        Err(_) => Err(AllocError),
    }
}

/// The first two words of a block.
fn demo_outputs(alloc: Global, block: u8) -> Result<Outputs, AllocError>
    ensures { IfOk result (λ outputs. outputs.items ≡ (block, 0) ∷ (block, 1) ∷ []) }
{
    let mut outputs = Outputs::new(alloc);
    outputs.push((block, 0))?;
    outputs.push((block, 1))?;
    Ok(outputs)
}

/// The demo mission of a number: seven channels, 400 cycles, ten crashes with their restarts, and ten lost vote frames.
pub fn demo_mission(alloc: Global, number: u64) -> Result<Mission, AllocError>
    ensures { IfOk result (λ mission. mission ≡ demo_mission number) }
{
    let mut draws = Draws::of(number);
    let sensors = sensor_rows(alloc, &mut draws)?;
    let mut ahead = draws;
    let block = ahead.below(128) as u8;
    let table = demo_table(alloc, &mut draws)?;
    let script = demo_script(alloc, &mut draws)?;
    let outputs = demo_outputs(alloc, block)?;
    let initial = Context::zeroed(alloc, 128)?;
    Ok(Mission {
        rules: RULES,
        cycles: 400,
        width: 2,
        return_after: 3,
        initial,
        table,
        outputs,
        sensors,
        script,
        actuator: None,
    })
}
