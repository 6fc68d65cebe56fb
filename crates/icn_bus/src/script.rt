//! The bus that delivers what was sent, except where a rule fits.
ghost use Rattle.std.specs.Prelude.{◌≡◌, [], IfOk, option_map};
ghost use Rattle.guards_model.specs.ScriptedBus.{delivered_by};
ghost use Rattle.icn_bus.specs.Deliveries.{delivery_value};

use crate::bus::{Act, Bus, Delivery, Entry, Rule, append, delivered};
use crate::index::IndexedRules;
use guards_base::{Bytes, Chan, Sequence};
use guards_model::Slot;
use std::alloc::{AllocError, Global};
use std::marker::Model;

/// A bus that delivers what was sent, except where a rule of its script fits: the first that fits decides.
#[derive(Drop)]
pub struct ScriptBus {
    alloc: Global,
    log: Sequence<Entry>,
    rules: IndexedRules,
}

impl Model for ScriptBus {
    ghost use Rattle.guards_model.specs.Network.{BusValue};

    ghost Value = { BusValue };

    ghost view = { λ bus. record { log = bus.log.items; script = bus.rules } };
}

impl ScriptBus {
    /// A bus that has carried nothing, without a script.
    pub fn empty(alloc: Global) -> ScriptBus
        ensures log { result.log ≡ [] }
        ensures script { result.script ≡ [] }
    {
        ScriptBus {
            alloc,
            log: Sequence::new(alloc),
            rules: IndexedRules::none(alloc),
        }
    }

    /// What was carried, the earliest first.
    pub fn log(&self) -> &[Entry]
        ensures { result.now ≡ self.now.log }
    {
        self.log.as_slice()
    }
}

/// What the first rule that fits delivers of a piece.
fn delivered_of(
    alloc: Global,
    rules: &IndexedRules,
    cycle: u32,
    slot: Slot,
    from: Chan,
    to: u8,
    sent: &[u8],
) -> Result<Option<Bytes>, AllocError>
    ensures { IfOk result (λ piece. option_map (λ bytes. bytes.items) piece
        ≡ delivered_by rules.now cycle slot from to sent.now) }
{
    match rules.first_fitting(cycle, slot, from, to) {
        None => Ok(Some(Bytes::from_slice(alloc, sent)?)),
        Some(rule) => delivered(alloc, &rule.act, sent),
    }
}

/// What the first rule that fits delivers of a piece, for the log and for the one who carries it.
fn passed_of(
    alloc: Global,
    rules: &IndexedRules,
    cycle: u32,
    slot: Slot,
    from: Chan,
    to: u8,
    sent: &[u8],
) -> Result<(Option<Bytes>, Delivery), AllocError>
    ensures log { IfOk result
        (λ r. option_map (λ bytes. bytes.items) r.0 ≡ delivered_by rules.now cycle slot from to sent.now) }
    ensures answer { IfOk result
        (λ r. delivery_value sent.now r.1 ≡ delivered_by rules.now cycle slot from to sent.now) }
{
    match rules.first_fitting(cycle, slot, from, to) {
        None => Ok((Some(Bytes::from_slice(alloc, sent)?), Delivery::AsSent)),
        Some(rule) => match &rule.act {
            Act::Lose => Ok((None, Delivery::Lost)),
            Act::Forge(bytes) => {
                let piece = Bytes::from_slice(alloc, bytes.as_slice())?;
                let answer = Bytes::from_slice(alloc, bytes.as_slice())?;
                Ok((Some(piece), Delivery::Other(answer)))
            }
        },
    }
}

impl Bus for ScriptBus {
    ghost use Rattle.guards_model.specs.ScriptedBus.{IsScripted};

    ghost seen = { λ bus. bus };

    ghost may = { IsScripted };

    fn load(&mut self, rules: &[Rule]) -> Result<(), AllocError> {
        self.rules = IndexedRules::new(self.alloc, rules)?;
        Ok(())
    }

    fn carry(
        &mut self,
        cycle: u32,
        slot: Slot,
        from: Chan,
        to: u8,
        sent: &[u8],
    ) -> Result<Option<Bytes>, AllocError> {
        let delivered = delivered_of(self.alloc, &self.rules, cycle, slot, from, to, sent)?;
        let sent = Bytes::from_slice(self.alloc, sent)?;
        let entry = Entry {
            cycle,
            slot,
            from,
            to,
            sent,
            delivered,
        };
        append(self.alloc, &mut self.log, entry)
    }

    fn pass(
        &mut self,
        cycle: u32,
        slot: Slot,
        from: Chan,
        to: u8,
        sent: &[u8],
    ) -> Result<Delivery, AllocError> {
        let (delivered, answer) = passed_of(self.alloc, &self.rules, cycle, slot, from, to, sent)?;
        let copy = Bytes::from_slice(self.alloc, sent)?;
        self.log.push(Entry {
            cycle,
            slot,
            from,
            to,
            sent: copy,
            delivered,
        })?;
        Ok(answer)
    }
}
