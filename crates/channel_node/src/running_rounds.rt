//! The exchange of a cycle, and the decision.
ghost use Rattle.std.specs.Prelude.{◌≡◌, ◌≢◌, ◌≤◌, ◌+◌, true, [], length, take, IsTrue, IsOk, Some, OnOk, OnErr};
ghost use Rattle.std.specs.Option.{option_copied};
ghost use Rattle.guards_base.specs.Padding.{IsPadded};
ghost use Rattle.guards_model.specs.Channels.{has, tolerated_faults};
ghost use Rattle.guards_model.specs.Missions.{is_rules};
ghost use Rattle.guards_nodes.specs.NodeStates.{ExchangeTreeValue};
ghost use Rattle.guards_nodes.specs.NodeSteps.{Received, TreeStandsFor, agreed_from, after_source, after_exchange, after_decision, IsDecision};
ghost use Rattle.oral_messages.specs.Received.{IsExchangeInRange, items_of_frame};
ghost use Rattle.channel_node.specs.Trees.{IsTreeFor, has_places};

use crate::parts::Decided;
use crate::running::Running;
use crate::tree::RoundTree;
use control_state::Decision;
use guards_base::{Chan, Rules, SourceWord};
use icn_frames::Exchange;
use std::alloc::{AllocError, Global};

impl Running {
    /// Forms the source word of these sensor words, of which those past the width are 0, and begins the exchange. It
    /// takes no memory where the places of the last exchange suffice.
    pub fn source(
        &mut self,
        alloc: Global,
        me: Chan,
        width: u8,
        sensors: [i64; 4],
    ) -> Result<(), AllocError>
        requires mine { IsTrue (has self.old.control.active me) }
        requires some { 3 ≤ length self.old.control.active }
        requires padded { IsPadded 4 width sensors }
        ensures state { OnOk result (self.new ≡ after_source me width (take width sensors) self.old) }
        ensures refused { OnErr result (self.new ≡ self.old) }
        ensures kept { (t : ExchangeTreeValue) → self.old.tree ≡ Some t →
            has_places me self.old.control.active width t ≡ true → IsOk result }
    {
        let own = SourceWord {
            width,
            words: sensors,
            accuse: self.accused,
            heard: self.heard,
        };
        RoundTree::renew(&mut self.tree, alloc, me, self.control.active, width, own)?;
        self.decided = None;
        self.worked = None;
        self.closed = None;
        Ok(())
    }

    /// Keeps what was received in a round from a member.
    pub fn receive(&mut self, round: u8, from: Chan, frame: Option<&Exchange>)
        requires member { (t : ExchangeTreeValue) → self.old.tree ≡ Some t → IsTrue (has t.active from) }
        requires another { (t : ExchangeTreeValue) → self.old.tree ≡ Some t → from ≢ t.me }
        requires low { 1 ≤ round }
        requires high { (t : ExchangeTreeValue) → self.old.tree ≡ Some t → round ≤ tolerated_faults t.active + 1 }
        requires ranges { IsExchangeInRange (option_copied frame) round from }
        ensures state { (received : Received) → TreeStandsFor self.old.tree received → received round from ≡ [] →
            self.new ≡ after_exchange received round from (items_of_frame (option_copied frame.entry)) self.old }
        ensures held { self.new.held ≡ self.old.held }
    {
        let Some(mut tree) = self.tree.take() else {
            return;
        };
        tree.put(round, from, frame);
        self.tree = Some(tree);
    }

    /// Settles the words by what was received, and decides.
    pub fn decide(&mut self, rules: &Rules, cycle: u32) -> Decision
        requires rules { is_rules rules.now ≡ true }
        requires blocks { length self.old.context ≡ rules.now.blocks }
        requires tree { (t : ExchangeTreeValue) × (self.old.tree ≡ Some t) }
        ensures state { (received : Received) → TreeStandsFor self.old.tree received →
            self.new ≡ after_decision rules.now cycle received self.old }
        ensures answer { (received : Received) (t : ExchangeTreeValue) → self.old.tree ≡ Some t → IsTreeFor received t →
            IsDecision rules.now cycle self.old.control (agreed_from received t)
            result.judged result.removed result.dropped result.started result.plan }
        ensures context { self.new.context ≡ self.old.context }
    {
        let tree = self.tree.as_ref().unwrap();
        let agreed = tree.agreed();
        let inputs = tree.inputs(&agreed);
        let width = tree.width();
        let decision = self.control.decide(rules, cycle, &agreed);
        self.decided = Some(Decided {
            judged: decision.judged,
            removed: decision.removed,
            width,
            inputs,
        });
        decision
    }
}
