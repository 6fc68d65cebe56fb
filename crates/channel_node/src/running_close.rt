//! The end of a cycle.
ghost use Rattle.std.specs.Prelude.{◌≡◌, ◌<◌, ◌≤◌, ℕ, List, true, Some, All, length};
ghost use Rattle.context_blocks.specs.BlockSets.{blocks_where};
ghost use Rattle.guards_model.specs.Channels.{has};
ghost use Rattle.guards_model.specs.Controls.{closed_by};
ghost use Rattle.guards_model.specs.Missions.{is_rules};
ghost use Rattle.guards_nodes.specs.NodeStates.{DecidedValue};
ghost use Rattle.guards_nodes.specs.NodeSteps.{plan_in, after_close};
ghost use Rattle.channel_node.specs.Closing.{closed_value};
ghost use Rattle.channel_node.specs.Fits.{tags_fit};

use crate::parts::Ended;
use crate::running::Running;
use context_blocks::BlockSet;
use control_state::{Closed, Decision};
use dirty_tags::Plan;
use guards_base::{ChanSet, Rules};

impl Running {
    /// The blocks that the cycle copies: those that the tags of its transfer give, and none where no transfer runs.
    pub(crate) fn plan(&self, rules: &Rules) -> Plan
        requires { is_rules rules.now ≡ true }
        ensures plan { result ≡ plan_in rules.now self.now.held }
        ensures blocks { All (λ b. b < length self.now.context) result }
    {
        match &self.control.transfer {
            None => Plan::new(),
            Some(transfer) => transfer.tags.plan(rules.sweep),
        }
    }

    // Closes the cycle with the set of the blocks that its writes named.
    #[tactic(auto, unfolding(guards_model::specs::Channels::by_channel))]
    fn close_by(&mut self, rules: &Rules, written: &BlockSet) -> Closed
        requires rules { is_rules rules.now ≡ true }
        requires decided { (d : DecidedValue) × (self.old.decided ≡ Some d) }
        ensures state { (d : DecidedValue) → self.old.decided ≡ Some d →
            self.new ≡ after_close rules.now written.now d self.old }
        ensures joined { result.joined ≡
            (closed_by rules.now.last (plan_in rules.now self.old.held) written.now self.old.control).joined }
        ensures start { result.start ≡
            (closed_by rules.now.last (plan_in rules.now self.old.held) written.now self.old.control).start }
        ensures remaining { result.remaining ≡
            (closed_by rules.now.last (plan_in rules.now self.old.held) written.now self.old.control).remaining }
        ensures rest { result.rest ≡
            (closed_by rules.now.last (plan_in rules.now self.old.held) written.now self.old.control).rest }
        ensures context { self.new.context ≡ self.old.context }
        ensures few { length self.old.context ≤ 256 }
        ensures tags { tags_fit (length self.old.context) self.old.control.sweeping ≡ true }
    {
        let _ = self.context.len();
        let plan = self.plan(rules);
        let decided = self.decided.as_ref().unwrap();
        let decision = Decision {
            judged: decided.judged,
            removed: decided.removed,
            dropped: ChanSet::empty(),
            started: false,
            plan,
        };
        let closed = self.control.close_cycle(rules, &decision, written);
        self.heard = self.hearing;
        self.hearing = [0; 7];
        self.closed = Some(Ended::of(&closed));
        closed
    }

    /// Closes the cycle, whose writes named these blocks. It takes no memory.
    pub fn close_cycle(&mut self, rules: &Rules, written: &BlockSet) -> Closed
        requires rules { is_rules rules.now ≡ true }
        requires decided { (d : DecidedValue) × (self.old.decided ≡ Some d) }
        ensures state { (d : DecidedValue) (ws : List ℕ) → self.old.decided ≡ Some d →
            written.now ≡ blocks_where (has ws) →
            self.new ≡ after_close rules.now ws d self.old }
        ensures answer { (ws : List ℕ) → written.now ≡ blocks_where (has ws) →
            closed_value result ≡ closed_by rules.now.last (plan_in rules.now self.old.held) ws self.old.control }
        ensures context { self.new.context ≡ self.old.context }
    {
        self.close_by(rules, written)
    }
}
