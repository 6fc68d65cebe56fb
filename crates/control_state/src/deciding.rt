//! The decision of a cycle.
ghost use Rattle.std.specs.Prelude.{◌≡◌, ◌≢◌, ◌≤◌, List, [], Some, true};
ghost use Rattle.guards_model.specs.Missions.{is_rules};
ghost use Rattle.guards_model.specs.Controls.{SweepingValue, decided_by, control_decided, planned_by, transfer_in};
ghost use Rattle.guards_model.specs.Decisions.{dropped_of, has_started};
ghost use Rattle.guards_model.specs.Tags.{StandFor};
ghost use Rattle.guards_model.specs.Transfers.{TransferCycle, planned_blocks};

use crate::control::{Control, Decision, Transfer};
use crate::counting::{count, judge, remove};
use crate::transfers::{decide_transfer, drop_targets};
use dirty_tags::Plan;
use guards_base::{Rules, SourceWord};

// The plan of a transfer, if one runs.
fn plan(transfer: &Option<Transfer>, sweep: u8) -> Plan
    requires { sweep ≤ 64 }
    ensures { result ≡ planned_by sweep transfer.now }
{
    match transfer {
        None => Plan::new(),
        Some(transfer) => transfer.tags.plan(sweep),
    }
}

// Whether a transfer started in this cycle.
fn started(transfer: &Option<Transfer>, cycle: u32) -> bool
    ensures { result ≡ has_started cycle (transfer_in transfer.now) }
{
    match transfer {
        None => false,
        Some(transfer) => transfer.start == cycle,
    }
}

impl Control {
    /// Decides from the agreed words: who is judged errant, the counts, who is removed, and the transfer
    /// with its plan. The counts and the transfer are then those of this cycle; the active set stays
    /// until the cycle is closed.
    pub fn decide(
        &mut self,
        rules: &Rules,
        cycle: u32,
        agreed: &[Option<SourceWord>; 7],
    ) -> Decision
        requires { is_rules rules.now ≡ true }
        ensures control { self.new ≡
            control_decided rules.now cycle self.old (decided_by rules.now cycle self.old agreed.now) }
        ensures judged { result.judged ≡ (decided_by rules.now cycle self.old agreed.now).judged }
        ensures removed { result.removed ≡ (decided_by rules.now cycle self.old agreed.now).removed }
        ensures dropped { result.dropped ≡
            dropped_of self.old.active agreed.now cycle (transfer_in self.old.sweeping) }
        ensures started { result.started ≡
            has_started cycle (decided_by rules.now cycle self.old agreed.now).transfer }
        ensures plan { result.plan ≡ (decided_by rules.now cycle self.old agreed.now).planned }

        // The tags of a transfer that starts stand for no cycle, and those of one that goes on stay.
        // Where they stand for the cycles of the transfer so far, the plan is that of these cycles.
        ensures begins { (s : SweepingValue) → self.new.sweeping ≡ Some s →
            s.transfer.start ≡ cycle → StandFor s.tags [] [] }
        ensures keeps { (s t : SweepingValue) → self.old.sweeping ≡ Some s → self.new.sweeping ≡ Some t →
            t.transfer.start ≢ cycle → t.tags ≡ s.tags }
        ensures cycles { (s : SweepingValue) (cycles : List TransferCycle) → self.new.sweeping ≡ Some s →
            StandFor s.tags cycles [] → result.plan ≡ planned_blocks s.tags.blocks rules.now.sweep cycles }
    {
        let judged = judge(self.active, agreed);
        let dropped = drop_targets(&self.transfer, self.active, agreed, cycle);
        self.alphas = count(&self.alphas, rules, self.active, judged);
        let removed = remove(
            self.active,
            self.fresh,
            agreed,
            &self.alphas,
            rules.threshold,
        );
        let running = self.transfer.take();
        self.transfer = decide_transfer(running, rules, self.active, self.fresh, agreed, cycle);
        Decision {
            judged,
            removed,
            dropped,
            started: started(&self.transfer, cycle),
            plan: plan(&self.transfer, rules.sweep),
        }
    }
}
