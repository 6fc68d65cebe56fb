//! The end of a cycle.
ghost use Rattle.std.specs.Prelude.{◌≡◌, ◌≤◌, List, [], ◌∷◌, Some, length, option_map, true};
ghost use Rattle.guards_model.specs.Controls.{SweepingValue, control_closed, closed_by, sweeping_after, joined_by, goes_on, start_if_joined, rest_if_joined};
ghost use Rattle.guards_model.specs.Missions.{is_rules};
ghost use Rattle.guards_model.specs.Tags.{StandFor};
ghost use Rattle.guards_model.specs.Transfers.{TransferCycle};

use crate::control::{Closed, Control, Decision, Transfer};
use crate::counting::carry;
use context_blocks::BlockSet;
use dirty_tags::Plan;
use guards_base::{ChanSet, Rules};

// The transfer after a cycle with this plan and these writes.
fn close_transfer(transfer: &mut Option<Transfer>, plan: &Plan, written: &BlockSet)
    ensures { transfer.new ≡ sweeping_after plan.now written.now transfer.old }
{
    if let Some(transfer) = transfer {
        transfer.tags.wrote_all(written);
        transfer.tags.close_cycle(plan);
    }
}

// How many blocks remain, where a transfer runs.
fn remaining(transfer: &Option<Transfer>) -> Option<u16>
    ensures { result ≡ option_map (λ s. length s.tags.remaining) transfer.now }
{
    match transfer {
        None => None,
        Some(transfer) => Some(transfer.tags.remaining()),
    }
}

// The targets that are declared joined: all, where at most `last` blocks remain.
fn joined(transfer: &Option<Transfer>, last: u8) -> ChanSet
    ensures { result ≡ joined_by last transfer.now }
{
    match transfer {
        None => ChanSet::empty(),
        Some(transfer) => {
            if transfer.tags.remaining() <= u16::from(last) {
                transfer.targets
            } else {
                ChanSet::empty()
            }
        }
    }
}

// The blocks of the final frames.
fn rest(transfer: &Option<Transfer>, joined: ChanSet, last: u8) -> Plan
    requires fits { last ≤ 64 }
    requires those { joined ≡ joined_by last transfer.now }
    ensures { result ≡ rest_if_joined joined transfer.now }
{
    match transfer {
        None => Plan::new(),
        Some(transfer) => {
            if joined.count() == 0 {
                Plan::new()
            } else {
                transfer.tags.rest()
            }
        }
    }
}

// The start of the transfer whose targets joined.
fn start_if_joined(transfer: &Option<Transfer>, joined: ChanSet) -> u32
    ensures { result ≡ start_if_joined joined transfer.now }
{
    match transfer {
        None => 0,
        Some(transfer) => {
            if joined.count() == 0 {
                0
            } else {
                transfer.start
            }
        }
    }
}

// The transfer of the next cycle: it is over where its targets joined.
fn end_transfer(transfer: Option<Transfer>, joined: ChanSet) -> Option<Transfer>
    ensures { result ≡ goes_on joined transfer }
{
    if joined.count() == 0 { transfer } else { None }
}

impl Control {
    /// Closes a cycle in which these blocks were written: applies the removals, declares the targets
    /// joined where the remaining blocks fit the final frames, and leaves the control of the next cycle.
    pub fn close_cycle(&mut self, rules: &Rules, decision: &Decision, written: &BlockSet) -> Closed
        requires { is_rules rules.now ≡ true }
        ensures control { self.new ≡
            control_closed rules.now.last decision.now.removed decision.now.plan written.now self.old }
        ensures joined { result.joined ≡
            (closed_by rules.now.last decision.now.plan written.now self.old).joined }
        ensures start { result.start ≡
            (closed_by rules.now.last decision.now.plan written.now self.old).start }
        ensures remaining { result.remaining ≡
            (closed_by rules.now.last decision.now.plan written.now self.old).remaining }
        ensures rest { result.rest ≡
            (closed_by rules.now.last decision.now.plan written.now self.old).rest }

        // tags that stand for the cycles of the transfer so far stand for these and this cycle
        ensures cycles { (s t : SweepingValue) (cycles : List TransferCycle) →
            self.old.sweeping ≡ Some s → self.new.sweeping ≡ Some t → StandFor s.tags cycles [] →
            StandFor t.tags (record { planned = decision.now.plan; written = written.now } ∷ cycles) [] }
    {
        close_transfer(&mut self.transfer, &decision.plan, written);
        let joined = joined(&self.transfer, rules.last);
        let closed = Closed {
            joined,
            start: start_if_joined(&self.transfer, joined),
            remaining: remaining(&self.transfer),
            rest: rest(&self.transfer, joined, rules.last),
        };
        self.active = self.active.difference(decision.removed).union(joined);
        self.alphas = carry(&self.alphas, self.active, joined);
        self.fresh = joined;
        let transfer = self.transfer.take();
        self.transfer = end_transfer(transfer, joined);
        closed
    }
}
