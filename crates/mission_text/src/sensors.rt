//! The key `sensors`: the words of each channel, row by row.
ghost use Rattle.std.specs.Prelude.{◌≡◌, ◌≤◌, ◌&&◌, length, take, IfOk, IsTrue};
ghost use Rattle.std.specs.List.{list_all};
ghost use Rattle.toml.specs.View.{table_view};
ghost use Rattle.guards_model.specs.Missions.{is_sensors};
ghost use Rattle.document_checks.specs.Checks.{Gives};
ghost use Rattle.mission_type.specs.Parts.{in_use};
ghost use Rattle.mission_text.specs.Sensors.{sensors_field, are_places, is_row_of_places};

use crate::words::are_words;
use document_checks::{ElementReader, ReadFault, each, integers, required, sized};
use mission_type::{SensorRow, SensorRows};
use std::alloc::Global;
use toml::{Table, Value};

/// Up to four integers as an array, and 0 past them.
#[tactic(auto, using(crate::proofs::RowsOfWords::are_four))]
fn four(list: &[i64]) -> [i64; 4]
    requires { length list.now ≤ 4 }
    ensures used { take (length list.now) result ≡ list.now }
    ensures unused { IsTrue (are_places (length list.now) result) }
{
    let mut words = [0; 4];
    words[..list.len()].copy_from_slice(list);
    words
}

/// Reads the words of a channel.
#[derive(Clone, Copy)]
struct WordsReader {
    width: u8,
    ghost narrow: { width ≤ 4 },
}

impl ElementReader for WordsReader {
    ghost use Rattle.std.specs.Prelude.{ℤ, List, take, ◌&&◌};
    ghost use Rattle.document_checks.specs.Checks.{alone, integers};
    ghost use Rattle.mission_text.specs.Sensors.{are_sensor_words, are_places};

    type Element = [i64; 4];

    ghost Meaning = { List ℤ };

    ghost meaning = { λ reader words. take reader.width words };

    ghost check = { λ reader. alone (integers reader.width) };

    ghost holds = { λ reader places. are_sensor_words reader.width (take reader.width places)
        && are_places reader.width places };

    fn read(
        &self,
        alloc: Global,
        _earlier: &[[i64; 4]],
        path: &str,
        value: &Value,
    ) -> Result<[i64; 4], ReadFault> {
        let list = integers(alloc, self.width as usize, path, value)?;
        are_words(list.as_slice());
        Ok(four(list.as_slice()))
    }
}

/// Reads the rows.
#[derive(Clone, Copy)]
struct SensorReader {
    channels: u8,
    width: u8,
    ghost narrow: { width ≤ 4 },
}

impl ElementReader for SensorReader {
    ghost use Rattle.std.specs.Prelude.{ℤ, List, ◌&&◌};
    ghost use Rattle.document_checks.specs.Checks.{alone};
    ghost use Rattle.mission_text.specs.Sensors.{sensor_row_at, is_sensor_row, sensor_row, is_row_of_places};

    type Element = SensorRow;

    ghost Meaning = { List (List ℤ) };

    ghost meaning = { λ reader row. sensor_row reader.width row };

    ghost check = { λ reader. alone (sensor_row_at reader.channels reader.width) };

    ghost holds = { λ reader row. is_sensor_row reader.channels reader.width (sensor_row reader.width row)
        && is_row_of_places reader.width row };

    #[tactic(auto, using(crate::proofs::RowsOfWords::row_holds), unfolding(crate::specs::Sensors::sensor_row_at))]
    fn read(
        &self,
        alloc: Global,
        _earlier: &[SensorRow],
        path: &str,
        value: &Value,
    ) -> Result<SensorRow, ReadFault> {
        let channels = self.channels as usize;
        let items = sized(alloc, value, channels, channels, path)?;
        each(alloc, &WordsReader { width: self.width }, path, items)
    }
}

/// The rows of sensors of a mission.
#[tactic(auto, using(crate::proofs::RowsOfWords::rows_hold), unfolding(crate::specs::Sensors::sensors_field))]
pub(crate) fn sensors_field(
    alloc: Global,
    fields: &Table,
    channels: u8,
    width: u8,
) -> Result<SensorRows, ReadFault>
    requires { width ≤ 4 }
    ensures whole { IfOk result
        (λ rows. IsTrue (is_sensors channels width (in_use width rows.items)
        && list_all (is_row_of_places width) rows.items)) }
    ensures exact { Gives (λ rows. in_use width rows.items) result
        (sensors_field channels width (table_view fields.now)) }
{
    let given = required(alloc, fields, "", "sensors")?;
    let items = sized(alloc, given, 1, 64, "sensors")?;
    each(alloc, &SensorReader { channels, width }, "sensors", items)
}
