//! The table `core`: the sizes of a mission, its limits, and its choices.
ghost use Rattle.std.specs.Prelude.{◌≡◌, ◌≤◌, IfOk, IsTrue};
ghost use Rattle.toml.specs.View.{view, table_view};
ghost use Rattle.document_checks.specs.Checks.{Gives};
ghost use Rattle.guards_model.specs.Missions.{is_law, is_rules};
ghost use Rattle.mission_text.specs.Core.{sizes_at, limits_at, law_named, decay_law_at, law_field, choices_at, core_at, rules_of};

use document_checks::{
    Cause, ReadFault, field, lookup, number, number_or, only, refusal, table_of, text_of,
};
use guards_base::{Law, Rules};
use std::alloc::Global;
use toml::{Table, Value};

/// The sizes of a mission.
#[derive(Clone, Copy, Debug, PartialEq, Eq)]
pub struct CoreSizes {
    pub channels: u8,
    pub cycles: u32,
    pub blocks: u16,
    pub width: u8,
}

/// The limits of diagnosis, return and transfer.
#[derive(Clone, Copy, Debug, PartialEq, Eq)]
pub struct Limits {
    pub keep: u32,
    pub threshold: u32,
    pub return_after: u32,
    pub sweep: u8,
    pub last: u8,
}

/// The version of frames, the law of decay, and how many channels one transfer restores at most.
#[derive(Clone, Copy, Debug, PartialEq, Eq)]
pub struct Choices {
    pub version: u8,
    pub law: Law,
    pub decrement: u32,
    pub returning: u8,
}

/// The table `core`.
#[derive(Clone, Copy, Debug, PartialEq, Eq)]
pub struct CoreFields {
    pub sizes: CoreSizes,
    pub limits: Limits,
    pub choices: Choices,
}

const KEYS: [&str; 13] = [
    "channels",
    "cycles",
    "blocks",
    "width",
    "keep",
    "threshold",
    "return_after",
    "sweep",
    "final",
    "version",
    "decay",
    "decrement",
    "returning",
];

#[tactic(auto, unfolding(crate::specs::Core::sizes_at))]
fn sizes_of(alloc: Global, fields: &Table, path: &str) -> Result<CoreSizes, ReadFault>
    ensures channels { IfOk result (λ s. (3 ≤ s.channels) × (s.channels ≤ 7)) }
    ensures cycles { IfOk result (λ s. (1 ≤ s.cycles) × (s.cycles ≤ 2000)) }
    ensures blocks { IfOk result (λ s. (1 ≤ s.blocks) × (s.blocks ≤ 256)) }
    ensures width { IfOk result (λ s. (1 ≤ s.width) × (s.width ≤ 4)) }
    ensures exact { Gives (λ sizes. sizes) result (sizes_at path.now (table_view fields.now)) }
{
    let channels = number(alloc, fields, path, "channels", 3, 7)?;
    let cycles = number(alloc, fields, path, "cycles", 1, 2000)?;
    let blocks = number(alloc, fields, path, "blocks", 1, 256)?;
    let width = number(alloc, fields, path, "width", 1, 4)?;
    Ok(CoreSizes {
        channels: channels as u8,
        cycles,
        blocks: blocks as u16,
        width: width as u8,
    })
}

#[tactic(auto, unfolding(crate::specs::Core::limits_at))]
fn limits_of(alloc: Global, fields: &Table, path: &str) -> Result<Limits, ReadFault>
    ensures keep { IfOk result (λ l. l.keep ≤ 65536) }
    ensures threshold { IfOk result (λ l. (65536 ≤ l.threshold) × (l.threshold ≤ 6553600)) }
    ensures return_after { IfOk result (λ l. l.return_after ≤ 1000) }
    ensures sweep { IfOk result (λ l. (1 ≤ l.sweep) × (l.sweep ≤ 64)) }
    ensures last { IfOk result (λ l. l.last ≤ 64) }
    ensures exact { Gives (λ limits. limits) result (limits_at path.now (table_view fields.now)) }
{
    let keep = number_or(alloc, fields, path, "keep", 32_768, 0, 65_536)?;
    let threshold = number_or(alloc, fields, path, "threshold", 131_072, 65_536, 6_553_600)?;
    let return_after = number_or(alloc, fields, path, "return_after", 2, 0, 1000)?;
    let sweep = number_or(alloc, fields, path, "sweep", 16, 1, 64)?;
    let last = number_or(alloc, fields, path, "final", 8, 0, 64)?;
    Ok(Limits {
        keep,
        threshold,
        return_after,
        sweep: sweep as u8,
        last: last as u8,
    })
}

/// The law of decay that a text names.
fn law_named(alloc: Global, text: &str, path: &str) -> Result<Law, ReadFault>
    ensures { Gives (λ law. law) result (law_named path.now text.now) }
{
    if text == "multiply" {
        Ok(Law::Multiply)
    } else if text == "subtract" {
        Ok(Law::Subtract)
    } else {
        Err(refusal(alloc, Cause::Unknown, path))
    }
}

/// Frames of version 1 name no law, so there it is Multiply.
fn suits_version(version: u32, law: Law) -> bool
    ensures { result ≡ is_law version law }
{
    match law {
        Law::Multiply => true,
        Law::Subtract => version != 1,
    }
}

#[tactic(auto, unfolding(crate::specs::Core::decay_law_at))]
fn law_of(alloc: Global, value: &Value, version: u32, path: &str) -> Result<Law, ReadFault>
    ensures fits { IfOk result (λ law. IsTrue (is_law version law)) }
    ensures exact { Gives (λ law. law) result (decay_law_at version path.now (view value.now)) }
{
    let law = law_named(alloc, text_of(alloc, value, path)?, path)?;
    if !suits_version(version, law) {
        return Err(refusal(alloc, Cause::OutOfRange, path));
    }
    Ok(law)
}

#[tactic(auto, unfolding(crate::specs::Core::law_field))]
fn law_field(alloc: Global, fields: &Table, version: u32, path: &str) -> Result<Law, ReadFault>
    ensures fits { IfOk result (λ law. IsTrue (is_law version law)) }
    ensures exact { Gives (λ law. law) result (law_field version path.now (table_view fields.now)) }
{
    match lookup(fields, "decay") {
        Some(value) => law_of(alloc, value, version, &field(alloc, path, "decay")?),
        None => Ok(Law::Multiply),
    }
}

#[tactic(auto, unfolding(crate::specs::Core::choices_at))]
fn choices_of(alloc: Global, fields: &Table, path: &str) -> Result<Choices, ReadFault>
    ensures version { IfOk result (λ c. (1 ≤ c.version) × (c.version ≤ 2)) }
    ensures law { IfOk result (λ c. IsTrue (is_law c.version c.law)) }
    ensures decrement { IfOk result (λ c. c.decrement ≤ 6553600) }
    ensures returning { IfOk result (λ c. (1 ≤ c.returning) × (c.returning ≤ 2)) }
    ensures exact { Gives (λ choices. choices) result (choices_at path.now (table_view fields.now)) }
{
    let version = number_or(alloc, fields, path, "version", 1, 1, 2)?;
    let law = law_field(alloc, fields, version, path)?;
    let decrement = number_or(alloc, fields, path, "decrement", 32_768, 0, 6_553_600)?;
    let returning = number_or(alloc, fields, path, "returning", 1, 1, 2)?;
    Ok(Choices {
        version: version as u8,
        law,
        decrement,
        returning: returning as u8,
    })
}

/// Reads the table `core`.
#[tactic(auto, unfolding(crate::specs::Core::core_at))]
pub fn core_of(alloc: Global, value: &Value, path: &str) -> Result<CoreFields, ReadFault>
    ensures rules { IfOk result (λ core. IsTrue (is_rules (rules_of core))) }
    ensures cycles { IfOk result (λ core. (1 ≤ core.sizes.cycles) × (core.sizes.cycles ≤ 2000)) }
    ensures width { IfOk result (λ core. (1 ≤ core.sizes.width) × (core.sizes.width ≤ 4)) }
    ensures return_after { IfOk result (λ core. core.limits.return_after ≤ 1000) }
    ensures channels { IfOk result (λ core. (3 ≤ core.sizes.channels) × (core.sizes.channels ≤ 7)) }
    ensures blocks { IfOk result (λ core. (1 ≤ core.sizes.blocks) × (core.sizes.blocks ≤ 256)) }
    ensures exact { Gives (λ core. core) result (core_at path.now (view value.now)) }
{
    let fields = table_of(alloc, value, path)?;
    only(alloc, &KEYS, path, fields)?;
    let sizes = sizes_of(alloc, fields, path)?;
    let limits = limits_of(alloc, fields, path)?;
    let choices = choices_of(alloc, fields, path)?;
    Ok(CoreFields {
        sizes,
        limits,
        choices,
    })
}

impl CoreFields {
    /// The rules of the mission.
    pub(crate) fn rules(self) -> Rules
        ensures { result ≡ rules_of self }
    {
        Rules {
            channels: self.sizes.channels,
            blocks: self.sizes.blocks,
            version: self.choices.version,
            law: self.choices.law,
            keep: self.limits.keep,
            decrement: self.choices.decrement,
            threshold: self.limits.threshold,
            sweep: self.limits.sweep,
            last: self.limits.last,
            returning: self.choices.returning,
        }
    }
}
