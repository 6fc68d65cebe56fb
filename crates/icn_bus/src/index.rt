//! Rules that are found by their cycle and slot, without a walk over all of them.
ghost use Rattle.std.specs.Prelude.{◌≡◌, ◌<◌, [], length, replicate, find, All, IfOk, option_copied};
ghost use Rattle.guards_model.specs.ScriptedBus.{fits_carry};
ghost use Rattle.guards_model.specs.Slots.{same_slot};
ghost use Rattle.icn_bus.specs.Indexes.{bucket, buckets_of, LeadsFrom, IsIndex};

use crate::bus::{Rule, rules_copied};
use guards_base::{Chan, Sequence};
use guards_model::Slot;
use std::alloc::{AllocError, Global};
use std::marker::Model;

/// A list of rules. Each is in a bucket by its cycle and slot; `heads` has the first place of each bucket, and `nexts`
/// at each place the next of the same bucket. Past the last it is the number of rules.
#[derive(Drop)]
pub struct IndexedRules {
    rules: Sequence<Rule>,
    heads: Vec<usize>,
    nexts: Vec<usize>,
}

impl Model for IndexedRules {
    ghost use Rattle.std.specs.Prelude.{List};
    ghost use Rattle.guards_model.specs.BusRules.{RuleValue};

    ghost Value = { List RuleValue };

    ghost use Rattle.icn_bus.specs.Indexes.{IsIndex};

    ghost view = { λ index. index.rules.items };

    ghost invariant = { λ index. IsIndex index.rules.items index.heads.items index.nexts.items };
}

/// Of so many buckets, the one of a cycle and a slot.
#[tactic(auto, unfolding(crate::specs::Indexes::bucket))]
fn bucket_of(count: usize, cycle: u32, slot: Slot) -> usize
    requires { 0 < count }
    ensures value { result ≡ bucket count cycle slot }
    ensures below { result < count }
{
    (cycle as usize * 10 + slot.index() as usize) % count
}

fn is_same(slot: Slot, other: Slot) -> bool
    ensures { result ≡ same_slot slot other }
{
    slot.index() == other.index()
}

fn fits(rule: &Rule, cycle: u32, slot: Slot, from: Chan, to: u8) -> bool
    ensures { result ≡ fits_carry cycle slot from to rule.now }
{
    rule.cycle == cycle
        && is_same(rule.slot, slot)
        && rule.from.index() == from.index()
        && match rule.to {
            None => true,
            Some(receiver) => receiver == to,
        }
}

/// The bucket of each rule, of as many buckets as there are rules.
fn buckets(alloc: Global, rules: &[Rule]) -> Result<Vec<usize>, AllocError>
    ensures value { IfOk result (λ buckets. buckets.items ≡ buckets_of (length rules.now) rules.now) }
    ensures below { IfOk result (λ buckets. All (λ b. b < length rules.now) buckets.items) }
{
    let mut buckets = Vec::new(alloc);
    for rule in rules {
        buckets.push(bucket_of(rules.len(), rule.cycle, rule.slot))?;
    }
    Ok(buckets)
}

/// Sets heads and links so that they lead from each bucket to its first place, and from each place to the next of its
/// bucket.
#[tactic(auto, using(crate::proofs::Links::leads_none, crate::proofs::Links::leads_more))]
fn link(buckets: &[usize], heads: &mut [usize], nexts: &mut [usize])
    requires inside { All (λ b. b < length heads.old) buckets.now }
    requires unset { heads.old ≡ replicate (length heads.old) (length buckets.now) }
    requires places { length nexts.old ≡ length buckets.now }
    ensures { LeadsFrom 0 buckets.now heads.new nexts.new }
{
    let mut place = buckets.len();
    while place > 0 {
        place -= 1;
        let bucket = buckets[place];
        nexts[place] = heads[bucket];
        heads[bucket] = place;
    }
}

impl IndexedRules {
    /// No rules.
    pub fn none(alloc: Global) -> IndexedRules
        ensures { result ≡ [] }
    {
        IndexedRules {
            rules: Sequence::new(alloc),
            heads: Vec::new(alloc),
            nexts: Vec::new(alloc),
        }
    }

    /// Copies of the rules.
    pub fn new(alloc: Global, rules: &[Rule]) -> Result<IndexedRules, AllocError>
        ensures { IfOk result (λ index. index ≡ rules.now) }
    {
        let rules = rules_copied(alloc, rules)?;
        let count = rules.len();
        let buckets = buckets(alloc, rules.as_slice())?;
        let mut heads = vec![in alloc; count; count]?;
        let mut nexts = vec![in alloc; 0; count]?;
        link(&buckets, &mut heads, &mut nexts);
        Ok(IndexedRules {
            rules,
            heads,
            nexts,
        })
    }

    /// The first rule that fits the carry.
    pub fn first_fitting(&self, cycle: u32, slot: Slot, from: Chan, to: u8) -> Option<&Rule>
        ensures { option_copied result ≡ find (fits_carry cycle slot from to) self.now }
    {
        if self.heads.is_empty() {
            return None;
        }
        let mut place = self.heads[bucket_of(self.heads.len(), cycle, slot)];
        while place < self.rules.len() {
            let rule = self.rules.get(place);
            if fits(rule, cycle, slot, from, to) {
                return Some(rule);
            }
            place = self.nexts[place];
        }
        None
    }
}
