//! The tree of a member, with the members, the member itself and the width that it was begun for.
ghost use Rattle.std.specs.Prelude.{◌≡◌, ◌≢◌, ◌<◌, ◌≤◌, ◌+◌, ◌-◌, ◌++◌, ◌==◌, ◌&&◌, pos, true, false, [], length, replicate, Some, None, IsTrue, IsOk, IfOk, OnOk, OnErr, option_map};
ghost use Rattle.std.specs.Option.{option_copied};
ghost use Rattle.guards_model.specs.Channels.{Channel, has, place_or, tolerated_faults};
ghost use Rattle.guards_model.specs.Frames.{exchange_body};
ghost use Rattle.guards_model.specs.Voting.{inputs_of};
ghost use Rattle.guards_nodes.specs.NodeFrames.{exchange_in};
ghost use Rattle.guards_nodes.specs.NodeStates.{ExchangeTreeValue};
ghost use Rattle.guards_nodes.specs.NodeSteps.{Received, nothing_received, with_items, tree_of, tree_for, agreed_from};
ghost use Rattle.oral_messages.specs.Received.{IsExchangeInRange, items_of_frame};
ghost use Rattle.channel_node.specs.Trees.{IsTreeFor, word_from, has_places};

use guards_base::{Chan, ChanSet, SourceWord};
use icn_frames::Exchange;
use oral_messages::Tree;
use std::alloc::{AllocError, Global};
use std::marker::Model;
use voter::consolidate;

/// What a member holds in the exchange of a cycle.
#[derive(Drop)]
pub struct RoundTree {
    active: ChanSet,
    me: Chan,
    width: u8,
    tree: Tree,
}

impl Model for RoundTree {
    ghost use Rattle.std.specs.Prelude.{◌≡◌, ◌≤◌, length};
    ghost use Rattle.guards_nodes.specs.NodeStates.{ExchangeTreeValue};
    ghost use Rattle.channel_node.specs.Trees.{seen_tree, IsOfTree};

    ghost Value = { ExchangeTreeValue };

    ghost view = { λ t. seen_tree t.tree };

    ghost invariant = { λ t. IsOfTree t.active t.me t.width t.tree };
}

impl RoundTree {
    /// The tree with the own word alone. It takes all memory of the tree.
    pub fn begin(
        alloc: Global,
        me: Chan,
        active: ChanSet,
        width: u8,
        own: SourceWord,
    ) -> Result<RoundTree, AllocError>
        requires mine { IsTrue (has active me) }
        requires some { 3 ≤ length active }
        requires narrow { width ≤ 4 }
        ensures { IfOk result (λ tree. tree ≡ tree_of active me width own nothing_received) }
    {
        let _ = active.flags();
        Ok(RoundTree {
            active,
            me,
            width,
            tree: Tree::begin(alloc, me, active, width, own)?,
        })
    }

    // Whether its places suffice for a cycle of this member.
    fn has_places(&self, me: Chan, active: ChanSet, width: u8) -> bool
        ensures { result ≡ has_places me active width self.now }
    {
        self.me == me && self.width == width && active.count() <= self.active.count()
    }

    // The tree of a later cycle in the same places: the own word alone.
    fn restart(&mut self, active: ChanSet, own: SourceWord)
        requires mine { IsTrue (has active self.old.me) }
        requires some { 3 ≤ length active }
        requires room { length active ≤ length self.old.active }
        ensures { self.new ≡ tree_of active self.old.me self.old.width own nothing_received }
    {
        let _ = active.flags();
        self.tree.restart(active, own);
        self.active = active;
    }

    /// The tree of a cycle, with the own word alone, in the places of the last one where they suffice: then it takes no
    /// memory. For want of memory the last one stays.
    pub fn renew(
        last: &mut Option<RoundTree>,
        alloc: Global,
        me: Chan,
        active: ChanSet,
        width: u8,
        own: SourceWord,
    ) -> Result<(), AllocError>
        requires mine { IsTrue (has active me) }
        requires some { 3 ≤ length active }
        requires narrow { width ≤ 4 }
        ensures state { OnOk result (last.new ≡ Some (tree_of active me width own nothing_received)) }
        ensures refused { OnErr result (last.new ≡ last.old) }
        ensures kept { (t : ExchangeTreeValue) → last.old ≡ Some t → has_places me active width t ≡ true → IsOk result }
    {
        if let Some(tree) = last {
            if tree.has_places(me, active, width) {
                tree.restart(active, own);
                return Ok(());
            }
        }
        let tree = RoundTree::begin(alloc, me, active, width, own)?;
        *last = Some(tree);
        Ok(())
    }

    /// Keeps what was received in a round from a member.
    pub fn put(&mut self, round: u8, from: Chan, frame: Option<&Exchange>)
        requires member { IsTrue (has self.old.active from) }
        requires another { from ≢ self.old.me }
        requires low { 1 ≤ round }
        requires high { round ≤ tolerated_faults self.old.active + 1 }
        requires ranges { IsExchangeInRange (option_copied frame) round from }
        ensures { (received : Received) → IsTreeFor received self.old → received round from ≡ [] →
            self.new ≡ tree_for (with_items round from (items_of_frame (option_copied frame.entry)) received) self.old }
    {
        self.tree.put(round, from, frame);
    }

    /// The width of the words.
    pub fn width(&self) -> u8
        ensures value { result ≡ self.now.width }
        ensures narrow { result ≤ 4 }
    {
        self.width
    }

    /// What this member tells in a round: none where there is no such round.
    pub fn exchange(&self, alloc: Global, round: u8) -> Result<Option<Exchange>, AllocError>
        ensures { (received : Received) → IsTreeFor received self.now →
            IfOk result (λ x. option_map (λ e. exchange_body e) x ≡ exchange_in received round self.now) }
    {
        if round >= 1 && round <= self.active.count().saturating_sub(1) / 3 + 1 {
            Ok(Some(self.tree.relay(alloc, round)?))
        } else {
            Ok(None)
        }
    }

    // The word of a channel, where it is a member.
    fn agreed_word(&self, source: Chan) -> Option<SourceWord>
        ensures agreed { (received : Received) → IsTreeFor received self.now →
            result ≡ word_from received self.now source }
        ensures passive { has self.now.active source ≡ false → result ≡ None }
    {
        if self.active.has(source) {
            self.tree.resolve(source)
        } else {
            None
        }
    }

    /// The word of each member, as this member settles it.
    pub fn agreed(&self) -> [Option<SourceWord>; 7]
        ensures agreed { (received : Received) → IsTreeFor received self.now → result ≡ agreed_from received self.now }
        ensures passive { (q : Channel) → q < 7 → has self.now.active q ≡ false → place_or result q None ≡ None }
    {
        [
            self.agreed_word(Chan::of(0)),
            self.agreed_word(Chan::of(1)),
            self.agreed_word(Chan::of(2)),
            self.agreed_word(Chan::of(3)),
            self.agreed_word(Chan::of(4)),
            self.agreed_word(Chan::of(5)),
            self.agreed_word(Chan::of(6)),
        ]
    }

    /// The inputs that these words give, with 0 past the width.
    pub fn inputs(&self, agreed: &[Option<SourceWord>; 7]) -> [i64; 4]
        requires { (q : Channel) → q < 7 → has self.now.active q ≡ false → place_or agreed.now q None ≡ None }
        ensures { result ≡ inputs_of self.now.width agreed.now ++ replicate (4 - self.now.width) (pos 0) }
    {
        consolidate(agreed, self.active, self.width)
    }
}
