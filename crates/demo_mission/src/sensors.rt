//! The rows of sensor words.
ghost use Rattle.std.specs.Prelude.{◌≡◌, length, map, IfOk, OnOk};
ghost use Rattle.guards_base.specs.Padding.{padded};
ghost use Rattle.mission_type.specs.Parts.{rows_of};
ghost use Rattle.demo_mission.specs.Demo.{number_after, sensor_words, in_pairs, sensor_rows};

use crate::draws::Draws;
use guards_base::Sequence;
use mission_type::{SensorRow, SensorRows};
use std::alloc::{AllocError, Global};

/// One word of each channel: a base, and a small draw on top.
fn sensor_words(alloc: Global, draws: &mut Draws) -> Result<Vec<u16>, AllocError>
    ensures words { IfOk result (λ words. words.items ≡ sensor_words draws.old.number) }
    ensures count { IfOk result (λ words. length words.items ≡ 7) }
    ensures number { OnOk result (draws.new.number ≡ number_after 8 draws.old.number) }
{
    let base = draws.below(1000);
    let mut words = Vec::new(alloc);
    for _channel in 0_u8..7 {
        words.push((base + draws.below(5)) as u16)?;
    }
    Ok(words)
}

/// The first and the second word of each channel.
fn pairs(alloc: Global, firsts: &[u16], seconds: &[u16]) -> Result<SensorRow, AllocError>
    requires firsts { length firsts.now ≡ 7 }
    requires seconds { length seconds.now ≡ 7 }
    ensures { IfOk result (λ row. row.items ≡ map (padded 4) (in_pairs firsts.now seconds.now)) }
{
    let mut row = Sequence::new(alloc);
    for channel in 0..7 {
        let first = i64::from(firsts[channel]);
        let second = i64::from(seconds[channel]);
        row.push([first, second, 0, 0])?;
    }
    Ok(row)
}

/// One row of sensor words.
#[tactic(auto, unfolding(crate::specs::Demo::number_after))]
fn sensor_row(alloc: Global, draws: &mut Draws) -> Result<SensorRow, AllocError>
    ensures row { IfOk result
        (λ row. row.items ≡ map (padded 4)
        (in_pairs (sensor_words draws.old.number) (sensor_words (number_after 8 draws.old.number)))) }
    ensures number { OnOk result (draws.new.number ≡ number_after 16 draws.old.number) }
{
    let firsts = sensor_words(alloc, draws)?;
    let seconds = sensor_words(alloc, draws)?;
    pairs(alloc, firsts.as_slice(), seconds.as_slice())
}

/// The eight rows.
pub fn sensor_rows(alloc: Global, draws: &mut Draws) -> Result<SensorRows, AllocError>
    ensures rows { IfOk result (λ rows. rows_of rows.items ≡ map (map (padded 4)) (sensor_rows 8 draws.old.number)) }
    ensures number { OnOk result (draws.new.number ≡ number_after 128 draws.old.number) }
{
    let mut rows = Sequence::new(alloc);
    for _row in 0_u8..8 {
        rows.push(sensor_row(alloc, draws)?)?;
    }
    Ok(rows)
}
