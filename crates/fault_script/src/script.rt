//! The entries of a fault script, and the rules that they keep.
ghost use Rattle.std.specs.Prelude.{◌≡◌, ◌<◌, ◌≤◌, ◌⊎◌, [], ◌∷◌, not, true, nat_lt, length, map, filter, filter_map, ◌++◌, IfOk, OnOk, IfErr};
ghost use Rattle.std.specs.List.{list_all};
ghost use Rattle.guards_model.specs.Faults.{bus};
ghost use Rattle.guards_model.specs.Missions.{bus_rule, is_receiver, is_act};
ghost use Rattle.guards_model.specs.ScriptFaults.{wrong_cycle, wrong_channel, rules_of_entry, first_broken, entry_fault, script_fault};
ghost use Rattle.icn_bus.specs.Acts.{act_value};
ghost use Rattle.fault_script.specs.Entries.{fault_value, is_for_bus, is_in_cycle, Breaks, IsAnswer};

use guards_base::{Chan, Sequence};
use guards_model::Slot;
use icn_bus::{Act, Rule};
use std::alloc::{AllocError, Global};
use std::marker::Model;
use std::snapshot::Snapshot;
use thiserror::Error;

/// What a script does to a channel or to the bus.
#[derive(Debug, Drop)]
pub enum Fault {
    /// The channel goes down before the frames of the slot.
    Crash {
        channel: u8,
        cycle: u32,
        slot: Slot,
    },
    /// A channel that is down becomes joining before the request slot.
    Restart {
        channel: u8,
        cycle: u32,
    },
    /// A word of an up channel's context is set before the request slot.
    Damage {
        channel: u8,
        cycle: u32,
        block: u8,
        word: u8,
        value: i64,
    },
    /// The bus loses or replaces pieces.
    Bus(Rule),
}

/// A list of entries.
pub type Faults = Sequence<Fault>;

/// The first rule that a script breaks. `at` is the place of the entry, from 0.
#[derive(Clone, Copy, Debug, PartialEq, Eq, Error)]
pub enum ScriptFault {
    /// There are more than 1,024 entries.
    #[error("TooMany")]
    TooMany,
    /// The cycle is none of the mission's.
    #[error("Cycle")]
    Cycle { at: u16 },
    /// The channel or sender is none of the mission's.
    #[error("Channel")]
    Channel { at: u16 },
    /// The block is none of the mission's.
    #[error("Block")]
    Block { at: u16 },
    /// A block has eight words.
    #[error("Word")]
    Word { at: u16 },
    /// The receiver is the sender, or neither a channel nor the switchboard (7) nor the actuator (8).
    #[error("To")]
    To { at: u16 },
    /// A forged piece has more than 4,300 bytes.
    #[error("Long")]
    Long { at: u16 },
    /// A growth was refused.
    #[error("Memory")]
    Memory,
}

impl From<AllocError> for ScriptFault {
    ghost use Rattle.std.specs.Prelude.{◌≡◌};
    ghost use Rattle.fault_script.specs.declared.script.ScriptFault.TheVariants as faults;

    ghost from_gives = { λ _ fault. fault ≡ faults.Memory };

    fn from(_error: AllocError) -> ScriptFault {
        ScriptFault::Memory
    }
}

/// How many channels, cycles and blocks the entries are for.
#[derive(Clone, Copy)]
struct Sizes {
    channels: u8,
    cycles: u32,
    blocks: u16,
}

/// The first rule that an entry breaks.
fn broken_rule(entry: &Fault, sizes: Sizes, at: u16) -> Option<ScriptFault>
    ensures { IsAnswer result
        (first_broken (rules_of_entry sizes.channels sizes.cycles sizes.blocks at (fault_value entry.now))) }
{
    match entry {
        Fault::Crash { channel, cycle, .. } => broken_by_channel(*channel, *cycle, sizes, at),
        Fault::Restart { channel, cycle } => broken_by_channel(*channel, *cycle, sizes, at),
        Fault::Damage {
            channel,
            cycle,
            block,
            word,
            ..
        } => {
            if *cycle >= sizes.cycles {
                Some(ScriptFault::Cycle { at })
            } else if *channel >= sizes.channels {
                Some(ScriptFault::Channel { at })
            } else if u16::from(*block) >= sizes.blocks {
                Some(ScriptFault::Block { at })
            } else if *word >= 8 {
                Some(ScriptFault::Word { at })
            } else {
                None
            }
        }
        Fault::Bus(rule) => broken_by_rule(rule, sizes, at),
    }
}

/// The first rule that a crash or a restart breaks.
fn broken_by_channel(channel: u8, cycle: u32, sizes: Sizes, at: u16) -> Option<ScriptFault>
    ensures { IsAnswer result
        (first_broken ((nat_lt cycle sizes.cycles, wrong_cycle at) ∷ (nat_lt channel sizes.channels, wrong_channel at)
        ∷ [])) }
{
    if cycle >= sizes.cycles {
        Some(ScriptFault::Cycle { at })
    } else if channel >= sizes.channels {
        Some(ScriptFault::Channel { at })
    } else {
        None
    }
}

/// The first rule that a loss or a forged piece breaks.
fn broken_by_rule(rule: &Rule, sizes: Sizes, at: u16) -> Option<ScriptFault>
    ensures { IsAnswer result
        (first_broken (rules_of_entry sizes.channels sizes.cycles sizes.blocks at (bus rule.now))) }
{
    if rule.cycle >= sizes.cycles {
        Some(ScriptFault::Cycle { at })
    } else if rule.from.index() >= sizes.channels {
        Some(ScriptFault::Channel { at })
    } else if !is_receiver(rule.from, rule.to, sizes.channels) {
        Some(ScriptFault::To { at })
    } else if !is_short(&rule.act) {
        Some(ScriptFault::Long { at })
    } else {
        None
    }
}

/// A receiver is another channel, the switchboard or the actuator.
fn is_receiver(from: Chan, to: Option<u8>, channels: u8) -> bool
    ensures { result ≡ is_receiver channels from to }
{
    match to {
        None => true,
        Some(to) => to != from.index() && (to < channels || to == 7 || to == 8),
    }
}

/// The longest forged piece has 4,300 bytes.
fn is_short(act: &Act) -> bool
    ensures { result ≡ is_act (act_value act.now) }
{
    match act {
        Act::Lose => true,
        Act::Forge(piece) => piece.len() <= 4300,
    }
}

/// The first rule that is broken, entry by entry.
fn broken_entry(entries: &[Fault], sizes: Sizes) -> Option<ScriptFault>
    requires { length entries.now ≤ 1024 }
    ensures { IsAnswer result (entry_fault sizes.channels sizes.cycles sizes.blocks 0 (map fault_value entries.now)) }
{
    for (at, entry) in entries.iter().enumerate() {
        if let Some(fault) = broken_rule(entry, sizes, at as u16) {
            return Some(fault);
        }
    }
    None
}

/// The first rule that a script breaks.
#[tactic(auto, unfolding(guards_model::specs::ScriptFaults::script_fault))]
fn broken(entries: &[Fault], sizes: Sizes) -> Option<ScriptFault>
    ensures { IsAnswer result (script_fault sizes.channels sizes.cycles sizes.blocks (map fault_value entries.now)) }
{
    if entries.len() > 1024 {
        return Some(ScriptFault::TooMany);
    }
    broken_entry(entries, sizes)
}

/// A fault script that keeps its rules. Contracts see its entries.
#[derive(Drop)]
pub struct Script {
    rules: Sequence<Rule>,
    others: Faults,
    entries: Snapshot<Faults>,
}

impl Model for Script {
    ghost use Rattle.std.specs.Prelude.{◌≡◌, List, map, filter, filter_map, not};
    ghost use Rattle.guards_model.specs.Faults.{FaultValue};
    ghost use Rattle.guards_model.specs.Missions.{bus_rule};
    ghost use Rattle.fault_script.specs.Entries.{fault_value, is_for_bus};

    ghost Value = { List FaultValue };

    ghost view = { λ script. map fault_value script.entries.value.items };

    ghost invariant = { λ script.
        (script.rules.items ≡ filter_map bus_rule (map fault_value script.entries.value.items))
        × (map fault_value script.others.items
        ≡ filter (λ entry. not (is_for_bus entry)) (map fault_value script.entries.value.items)) };
}

/// Puts an entry where it belongs: among the rules for the bus, or among the others.
fn part(entry: Fault, rules: &mut Sequence<Rule>, others: &mut Faults) -> Result<(), AllocError>
    ensures rules { OnOk result (rules.new.items ≡ rules.old.items ++ filter_map bus_rule (fault_value entry ∷ [])) }
    ensures others { OnOk result
        (map fault_value others.new.items
        ≡ map fault_value others.old.items ++ filter (λ e. not (is_for_bus e)) (fault_value entry ∷ [])) }
{
    match entry {
        Fault::Bus(rule) => rules.push(rule),
        other => others.push(other),
    }
}

/// The entries for the bus and the others, each in order.
fn parted(alloc: Global, entries: Vec<Fault>) -> Result<(Sequence<Rule>, Faults), AllocError>
    ensures rules { IfOk result (λ parts. parts.0.items ≡ filter_map bus_rule (map fault_value entries.items)) }
    ensures others { IfOk result
        (λ parts. map fault_value parts.1.items ≡ filter (λ e. not (is_for_bus e)) (map fault_value entries.items)) }
{
    let mut rules = Sequence::new(alloc);
    let mut others = Sequence::new(alloc);
    for entry in entries {
        part(entry, &mut rules, &mut others)?;
    }
    Ok((rules, others))
}

impl Script {
    /// The script of these entries, for so many channels (3 to 7), cycles and blocks; or the first rule that it breaks.
    ///
    /// The number of entries comes first, then the entries in order, and within an entry its rules in the order of the
    /// variants of `ScriptFault`. A crash is in a slot of a cycle.
    pub fn new(
        alloc: Global,
        faults: Faults,
        channels: u8,
        cycles: u32,
        blocks: u16,
    ) -> Result<Script, ScriptFault>
        requires least { 3 ≤ channels }
        requires most { channels ≤ 7 }
        requires slots { list_all is_in_cycle (map fault_value faults.items) ≡ true }
        ensures made { IfOk result (λ script. script ≡ map fault_value faults.items) }
        ensures kept { IfOk result
            (λ script. script_fault channels cycles blocks (map fault_value faults.items) ≡ None) }
        ensures refused { IfErr result
            (λ fault. (fault ≡ ScriptFault.Memory)
            ⊎ Breaks fault (script_fault channels cycles blocks (map fault_value faults.items))) }
    {
        let sizes = Sizes {
            channels,
            cycles,
            blocks,
        };
        if let Some(fault) = broken(faults.as_slice(), sizes) {
            return Err(fault);
        }
        let entries = Snapshot::of(&faults);
        let (rules, others) = parted(alloc, faults.into_vec())?;
        Ok(Script {
            rules,
            others,
            entries,
        })
    }

    /// Lends the rules for the bus, in order.
    pub fn rules(&self) -> &[Rule]
        ensures { result.now ≡ filter_map bus_rule self.now }
    {
        self.rules.as_slice()
    }

    /// Lends the other entries, in order.
    pub fn others(&self) -> &[Fault]
        ensures { map fault_value result.now ≡ filter (λ entry. not (is_for_bus entry)) self.now }
    {
        self.others.as_slice()
    }
}
