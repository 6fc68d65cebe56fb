//! What a bus carries, and what each bus promises.
ghost use Rattle.std.specs.Prelude.{◌≡◌, ◌++◌, [], ◌∷◌, IfOk, OnOk, OnErr, option_map};
ghost use Rattle.guards_model.specs.Network.{EntryValue};
ghost use Rattle.guards_model.specs.ScriptedBus.{delivered_piece};
ghost use Rattle.icn_bus.specs.Acts.{act_value};
ghost use Rattle.icn_bus.specs.Deliveries.{delivery_value};

use guards_base::{Bytes, Chan, Sequence};
use guards_model::Slot;
use std::alloc::{AllocError, Global};
use std::marker::Model;

/// One carry: what was sent, and what was delivered of it.
#[derive(Debug, Drop)]
pub struct Entry {
    pub cycle: u32,
    pub slot: Slot,
    pub from: Chan,
    /// The receiving channel, or 7 for the switchboard.
    pub to: u8,
    pub sent: Bytes,
    /// None where the piece was lost.
    pub delivered: Option<Bytes>,
}

impl Model for Entry {
    ghost use Rattle.std.specs.Prelude.{option_map};
    ghost use Rattle.guards_model.specs.Network.{EntryValue};

    ghost Value = { EntryValue };

    ghost view = { λ e. record {
      cycle = e.cycle;
      slot = e.slot;
      from = e.from;
      to = e.to;
      sent = e.sent.items;
      delivered = option_map (λ piece. piece.items) e.delivered;
    } };
}

/// What was delivered of a piece, beside what was sent: its bytes only where they may be others.
#[derive(Debug, Drop)]
pub enum Delivery {
    AsSent,
    Lost,
    /// These bytes, the ones that were sent or others.
    Other(Bytes),
}

/// What happens to a piece on its way.
#[derive(Debug, Drop)]
pub enum Act {
    Lose,
    /// This piece is delivered in its place.
    Forge(Bytes),
}

/// The pieces that are acted on: those of a cycle and a slot from one sender.
#[derive(Debug, Drop)]
pub struct Rule {
    pub cycle: u32,
    pub slot: Slot,
    pub from: Chan,
    /// The receiver, or None for every receiver.
    pub to: Option<u8>,
    pub act: Act,
}

impl Model for Rule {
    ghost use Rattle.guards_model.specs.BusRules.{RuleValue};

    ghost Value = { RuleValue };

    ghost use Rattle.icn_bus.specs.Acts.{act_value};

    ghost view = { λ r. record { cycle = r.cycle; slot = r.slot; from = r.from; to = r.to; act = act_value r.act } };
}

/// Carries pieces between channels. What is delivered is free, but for what the kind of bus says by `may`.
pub trait Bus {
    ghost use Rattle.std.specs.Prelude.{List};
    ghost use Rattle.guards_model.specs.BusRules.{RuleValue};
    ghost use Rattle.guards_model.specs.Network.{BusValue, EntryValue};
    ghost use Rattle.icn_bus.specs.Carrying.{Adds};

    // what was carried, the earliest first, and the script
    ghost seen: { Self → BusValue };

    // whether this kind of bus may make the entry, under the script
    ghost may: { List RuleValue → EntryValue → Type 0 };

    /// Replaces the script. The log stays, and for want of memory the script does too.
    fn load(&mut self, rules: &[Rule]) -> Result<(), AllocError>
        ensures loaded { OnOk result ((seen self.new).script ≡ rules.now) }
        ensures refused { OnErr result ((seen self.new).script ≡ (seen self.old).script) }
        ensures log { (seen self.new).log ≡ (seen self.old).log };

    /// Carries a piece, and answers what was delivered of it. For want of memory the log stays.
    fn carry(
        &mut self,
        cycle: u32,
        slot: Slot,
        from: Chan,
        to: u8,
        sent: &[u8],
    ) -> Result<Option<Bytes>, AllocError>
        ensures carried { IfOk result (λ answer. Adds may (seen self.old).script (seen self.old).log (seen self.new).log
            cycle slot from to sent.now (option_map (λ piece. piece.items) answer)) }
        ensures refused { OnErr result ((seen self.new).log ≡ (seen self.old).log) }
        ensures script { (seen self.new).script ≡ (seen self.old).script };

    /// Carries a piece likewise. A bus that knows that it was delivered as sent may answer so without its bytes.
    fn pass(
        &mut self,
        cycle: u32,
        slot: Slot,
        from: Chan,
        to: u8,
        sent: &[u8],
    ) -> Result<Delivery, AllocError>
        ensures carried { IfOk result (λ answer. Adds may (seen self.old).script (seen self.old).log (seen self.new).log
            cycle slot from to sent.now (delivery_value sent.now answer)) }
        ensures refused { OnErr result ((seen self.new).log ≡ (seen self.old).log) }
        ensures script { (seen self.new).script ≡ (seen self.old).script }
    {
        match self.carry(cycle, slot, from, to, sent)? {
            None => Ok(Delivery::Lost),
            Some(piece) => Ok(Delivery::Other(piece)),
        }
    }
}

/// A copy of a piece.
pub fn copied(alloc: Global, piece: &Option<Bytes>) -> Result<Option<Bytes>, AllocError>
    ensures { IfOk result (λ copy. option_map (λ bytes. bytes.items) copy
        ≡ option_map (λ bytes. bytes.items) piece.now) }
{
    match piece {
        None => Ok(None),
        Some(bytes) => Ok(Some(Bytes::from_slice(alloc, bytes.as_slice())?)),
    }
}

/// What an act delivers of a piece.
pub fn delivered(alloc: Global, act: &Act, sent: &[u8]) -> Result<Option<Bytes>, AllocError>
    ensures { IfOk result (λ piece. option_map (λ bytes. bytes.items) piece
        ≡ delivered_piece sent.now (act_value act.now)) }
{
    match act {
        Act::Lose => Ok(None),
        Act::Forge(bytes) => Ok(Some(Bytes::from_slice(alloc, bytes.as_slice())?)),
    }
}

/// Appends an entry, and answers a copy of its delivered piece. For want of memory the log is as it was.
pub fn append(
    alloc: Global,
    log: &mut Sequence<Entry>,
    entry: Entry,
) -> Result<Option<Bytes>, AllocError>
    ensures appended { OnOk result (log.new.items ≡ log.old.items ++ entry ∷ []) }
    ensures answer { IfOk result (λ answer. option_map (λ bytes. bytes.items) answer ≡ entry.delivered) }
    ensures refused { OnErr result (log.new.items ≡ log.old.items) }
{
    let answer = copied(alloc, &entry.delivered)?;
    log.push(entry)?;
    Ok(answer)
}

fn act_copied(alloc: Global, act: &Act) -> Result<Act, AllocError>
    ensures { IfOk result (λ copy. act_value copy ≡ act_value act.now) }
{
    match act {
        Act::Lose => Ok(Act::Lose),
        Act::Forge(piece) => Ok(Act::Forge(Bytes::from_slice(alloc, piece.as_slice())?)),
    }
}

fn rule_copied(alloc: Global, rule: &Rule) -> Result<Rule, AllocError>
    ensures { IfOk result (λ copy. copy ≡ rule.now) }
{
    let act = act_copied(alloc, &rule.act)?;
    Ok(Rule {
        cycle: rule.cycle,
        slot: rule.slot,
        from: rule.from,
        to: rule.to,
        act,
    })
}

/// Copies of the rules.
pub fn rules_copied(alloc: Global, rules: &[Rule]) -> Result<Sequence<Rule>, AllocError>
    ensures { IfOk result (λ copies. copies.items ≡ rules.now) }
{
    let mut copies = Sequence::new(alloc);
    for rule in rules {
        let copy = rule_copied(alloc, rule)?;
        copies.push(copy)?;
    }
    Ok(copies)
}
