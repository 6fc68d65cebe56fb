//! The key `actuator`: what the output words drive.
ghost use Rattle.std.specs.Prelude.{◌≡◌, ◌≤◌, pos, int_le, codes, length, take, IfOk, IsTrue};
ghost use Rattle.std.specs.List.{list_all};
ghost use Rattle.toml.specs.Data.{get_member};
ghost use Rattle.toml.specs.View.{view, table_view};
ghost use Rattle.guards_base.specs.Padding.{padded};
ghost use Rattle.guards_model.specs.Actuators.{AreForward};
ghost use Rattle.guards_model.specs.Missions.{is_actuator};
ghost use Rattle.document_checks.specs.Checks.{Gives, field, integers};
ghost use Rattle.mission_type.specs.Parts.{DrivesForward, actuator_of};
ghost use Rattle.mission_text.specs.Actuators.{actuator_at, actuator_field, actuator_value, are_starts, are_steps, is_step, steps_at, words_or_zeros};

use crate::words::{are_words, is_a_word};
use document_checks::{
    Cause, ElementReader, ReadFault, each, field, integer_of, integers, lookup, only, refusal,
    required, sized, table_of,
};
use guards_base::Sequence;
use mission_type::Actuator;
use std::alloc::Global;
use toml::{Table, Value};

const KEYS: [&str; 2] = ["step", "start"];

fn is_forward(step: i64) -> bool
    ensures { result ≡ int_le (pos 0) step }
{
    0 <= step
}

/// Reads steps.
struct StepReader;

impl ElementReader for StepReader {
    ghost use Rattle.std.specs.Prelude.{ℤ};
    ghost use Rattle.document_checks.specs.Checks.{alone};
    ghost use Rattle.mission_text.specs.Actuators.{is_step, step_at};

    type Element = i64;

    ghost Meaning = { ℤ };

    ghost meaning = { λ _ step. step };

    ghost check = { λ _. alone step_at };

    ghost holds = { λ _. is_step };

    #[tactic(auto, unfolding(crate::specs::Actuators::step_at))]
    fn read(
        &self,
        alloc: Global,
        _earlier: &[i64],
        path: &str,
        value: &Value,
    ) -> Result<i64, ReadFault> {
        let step = integer_of(alloc, value, path)?;
        if !is_forward(step) {
            return Err(refusal(alloc, Cause::OutOfRange, path));
        }
        is_a_word(step);
        Ok(step)
    }
}

/// So many integers as an array, and 0 past them.
#[tactic(auto, using(crate::proofs::ActuatorWords::padded_eight, crate::proofs::ActuatorWords::first_back))]
fn eight(list: &[i64]) -> [i64; 8]
    requires { length list.now ≤ 8 }
    ensures places { result ≡ padded 8 list.now }
    ensures back { take (length list.now) result ≡ list.now }
{
    let mut words = [0; 8];
    words[..list.len()].copy_from_slice(list);
    words
}

/// So many steps.
#[tactic(auto, using(crate::proofs::Lists::same_list), unfolding(crate::specs::Actuators::steps_at))]
fn steps_list(
    alloc: Global,
    value: &Value,
    path: &str,
    outputs: usize,
) -> Result<Sequence<i64>, ReadFault>
    ensures exact { Gives (λ steps. steps.items) result (steps_at outputs path.now (view value.now)) }
    ensures count { IfOk result (λ steps. length steps.items ≡ outputs) }
    ensures each { IfOk result (λ steps. IsTrue (list_all is_step steps.items)) }
{
    let items = sized(alloc, value, outputs, outputs, path)?;
    each(alloc, &StepReader, path, items)
}

/// The steps of so many outputs.
#[tactic(auto, using(crate::proofs::ActuatorWords::whole_steps, crate::proofs::ActuatorWords::forward_padded))]
fn steps_of(alloc: Global, value: &Value, path: &str, outputs: usize) -> Result<[i64; 8], ReadFault>
    requires { outputs ≤ 8 }
    ensures exact { Gives (λ steps. take outputs steps) result (steps_at outputs path.now (view value.now)) }
    ensures whole { IfOk result (λ steps. IsTrue (are_steps outputs (take outputs steps))) }
    ensures forward { IfOk result (λ steps. AreForward steps) }
{
    let steps = steps_list(alloc, value, path, outputs)?;
    Ok(eight(steps.as_slice()))
}

/// The steps that the key gives. Its path is dropped by name: a drop that is implied at each exit costs the check more.
fn step_field(
    alloc: Global,
    given: &Value,
    path: &str,
    outputs: usize,
) -> Result<[i64; 8], ReadFault>
    requires { outputs ≤ 8 }
    ensures exact { Gives (λ steps. take outputs steps) result
        (steps_at outputs (field path.now (codes "step")) (view given.now)) }
    ensures whole { IfOk result (λ steps. IsTrue (are_steps outputs (take outputs steps))) }
    ensures forward { IfOk result (λ steps. AreForward steps) }
{
    let place = field(alloc, path, "step")?;
    let steps = steps_of(alloc, given, &place, outputs);
    drop(place);
    steps
}

/// The first words that a field gives.
#[tactic(auto, using(crate::proofs::ActuatorWords::whole_starts))]
fn words_of(alloc: Global, value: &Value, path: &str, outputs: usize) -> Result<[i64; 8], ReadFault>
    requires { outputs ≤ 8 }
    ensures exact { Gives (λ words. take outputs words) result (integers outputs path.now (view value.now)) }
    ensures whole { IfOk result (λ words. IsTrue (are_starts outputs (take outputs words))) }
{
    let words = integers(alloc, outputs, path, value)?;
    are_words(words.as_slice());
    Ok(eight(words.as_slice()))
}

/// The first words of so many outputs, 0 where they are not given.
#[tactic(auto, using(crate::proofs::ActuatorWords::zeros_first, crate::proofs::ActuatorWords::zeros_start))]
fn start_of(
    alloc: Global,
    fields: &Table,
    path: &str,
    outputs: usize,
) -> Result<[i64; 8], ReadFault>
    requires { outputs ≤ 8 }
    ensures exact { Gives (λ words. take outputs words) result
        (words_or_zeros outputs (field path.now (codes "start")) (get_member (codes "start") (table_view fields.now))) }
    ensures whole { IfOk result (λ words. IsTrue (are_starts outputs (take outputs words))) }
{
    match lookup(fields, "start") {
        Some(value) => words_of(alloc, value, &field(alloc, path, "start")?, outputs),
        None => Ok([0; 8]),
    }
}

/// An actuator of so many outputs.
#[tactic(auto, unfolding(crate::specs::Actuators::actuator_at))]
fn actuator_of(
    alloc: Global,
    value: &Value,
    path: &str,
    outputs: usize,
) -> Result<Actuator, ReadFault>
    requires { outputs ≤ 8 }
    ensures exact { Gives (actuator_value outputs) result (actuator_at outputs path.now (view value.now)) }
    ensures steps { IfOk result (λ a. IsTrue (are_steps outputs (take outputs a.steps))) }
    ensures start { IfOk result (λ a. IsTrue (are_starts outputs (take outputs a.start))) }
    ensures forward { IfOk result (λ a. AreForward a.steps) }
{
    let fields = table_of(alloc, value, path)?;
    only(alloc, &KEYS, path, fields)?;
    let given = required(alloc, fields, path, "step")?;
    let steps = step_field(alloc, given, path, outputs)?;
    let start = start_of(alloc, fields, path, outputs)?;
    Ok(Actuator { steps, start })
}

/// The actuator of a mission with so many outputs, if it has one.
#[tactic(auto, unfolding(crate::specs::Actuators::actuator_field))]
pub(crate) fn actuator_field(
    alloc: Global,
    fields: &Table,
    outputs: usize,
) -> Result<Option<Actuator>, ReadFault>
    requires { outputs ≤ 8 }
    ensures exact { Gives (actuator_of outputs) result (actuator_field outputs (table_view fields.now)) }
    ensures whole { IfOk result (λ a. IsTrue (is_actuator outputs (actuator_of outputs a))) }
    ensures forward { IfOk result (λ a. DrivesForward a) }
{
    match lookup(fields, "actuator") {
        Some(value) => Ok(Some(actuator_of(alloc, value, "actuator", outputs)?)),
        None => Ok(None),
    }
}
