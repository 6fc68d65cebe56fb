//! The bus that acts on pieces by their number, for tests.
ghost use Rattle.std.specs.Prelude.{◌≡◌, [], ⊤, length, map, IfOk, OnOk, OnErr, option_map};
ghost use Rattle.icn_bus.specs.Acts.{act_value};
ghost use Rattle.icn_bus.specs.Buses.{by_act, act_in_turn};
ghost use Rattle.icn_bus.specs.Carrying.{Adds};

use crate::bus::{Act, Bus, Entry, Rule, append, delivered, rules_copied};
use guards_base::{Bytes, Chan, Sequence};
use guards_model::Slot;
use std::alloc::{AllocError, Global};
use std::marker::Model;

/// A list of acts. None leaves the piece as it was sent.
pub type Acts = Sequence<Option<Act>>;

/// A bus whose k-th carry from 0 does the k-th act of a list, whatever its script.
#[derive(Drop)]
pub struct MemBus {
    alloc: Global,
    log: Sequence<Entry>,
    rules: Sequence<Rule>,
    acts: Acts,
}

impl Model for MemBus {
    ghost use Rattle.std.specs.Prelude.{map, option_map};
    ghost use Rattle.icn_bus.specs.Buses.{MemBusValue};

    ghost Value = { MemBusValue };

    ghost use Rattle.icn_bus.specs.Acts.{act_value};

    ghost view = { λ bus. record {
      log = bus.log.items;
      script = bus.rules.items;
      acts = map (option_map act_value) bus.acts.items;
    } };
}

impl MemBus {
    /// A bus that has carried nothing, without a script, with these acts before it.
    pub fn new(alloc: Global, acts: Acts) -> MemBus
        ensures log { result.log ≡ [] }
        ensures script { result.script ≡ [] }
        ensures acts { result.acts ≡ map (option_map act_value) acts.items }
    {
        MemBus {
            alloc,
            log: Sequence::new(alloc),
            rules: Sequence::new(alloc),
            acts,
        }
    }

    /// What was carried, the earliest first.
    pub fn log(&self) -> &[Entry]
        ensures { result.now ≡ self.now.log }
    {
        self.log.as_slice()
    }
}

/// What the act in turn delivers of a piece.
fn delivered_in_turn(
    alloc: Global,
    acts: &Acts,
    before: usize,
    sent: &[u8],
) -> Result<Option<Bytes>, AllocError>
    ensures { IfOk result (λ piece. option_map (λ bytes. bytes.items) piece
        ≡ by_act sent.now (act_in_turn (map (option_map act_value) acts.now.items) before)) }
{
    if before >= acts.len() {
        return Ok(Some(Bytes::from_slice(alloc, sent)?));
    }
    match acts.get(before) {
        None => Ok(Some(Bytes::from_slice(alloc, sent)?)),
        Some(act) => delivered(alloc, act, sent),
    }
}

impl Bus for MemBus {
    ghost seen = { λ bus. record { log = bus.log; script = bus.script } };

    ghost may = { λ _ _. ⊤ };

    fn load(&mut self, rules: &[Rule]) -> Result<(), AllocError>
        ensures loaded { OnOk result (self.new.script ≡ rules.now) }
        ensures refused { OnErr result (self.new.script ≡ self.old.script) }
        ensures log { self.new.log ≡ self.old.log }
        ensures acts { self.new.acts ≡ self.old.acts }
    {
        self.rules = rules_copied(self.alloc, rules)?;
        Ok(())
    }

    fn carry(
        &mut self,
        cycle: u32,
        slot: Slot,
        from: Chan,
        to: u8,
        sent: &[u8],
    ) -> Result<Option<Bytes>, AllocError>
        ensures carried { IfOk result (λ answer. Adds (λ _ _. ⊤) self.old.script self.old.log self.new.log
            cycle slot from to sent.now (option_map (λ piece. piece.items) answer)) }
        // The act of as many carries before it decides.
        ensures exact { IfOk result
            (λ answer. option_map (λ piece. piece.items) answer
            ≡ by_act sent.now (act_in_turn self.old.acts (length self.old.log))) }
        ensures refused { OnErr result (self.new.log ≡ self.old.log) }
        ensures script { self.new.script ≡ self.old.script }
        ensures acts { self.new.acts ≡ self.old.acts }
    {
        let delivered = delivered_in_turn(self.alloc, &self.acts, self.log.len(), sent)?;
        let sent = Bytes::from_slice(self.alloc, sent)?;
        let entry = Entry {
            cycle,
            slot,
            from,
            to,
            sent,
            delivered,
        };
        append(self.alloc, &mut self.log, entry)
    }
}
