//! A running channel.
ghost use Rattle.std.specs.Prelude.{◌≡◌, ◌<◌, ◌≤◌, true, length, slice_set, Option, Some, None};
ghost use Rattle.guards_model.specs.Controls.{first_control, transfer_in};
ghost use Rattle.guards_model.specs.Decisions.{request_code};
ghost use Rattle.guards_model.specs.Missions.{is_rules};
ghost use Rattle.guards_nodes.specs.NodeSteps.{first_running_value, with_damage, after_request};
ghost use Rattle.channel_node.specs.Fits.{are_codes};

use crate::parts::{Decided, Ended, Worked};
use crate::tree::RoundTree;
use context_blocks::Context;
use control_state::{Control, Transfer};
use guards_base::{Chan, ChanSet, Rules};
use std::marker::Model;

/// What a running channel holds from cycle to cycle, and how far it has come since its last source word.
#[derive(Drop)]
pub struct Running {
    pub(crate) context: Context,
    pub(crate) control: Control,
    pub(crate) accused: ChanSet,
    pub(crate) heard: [u8; 7],
    pub(crate) hearing: [u8; 7],
    pub(crate) tree: Option<RoundTree>,
    pub(crate) decided: Option<Decided>,
    pub(crate) worked: Option<Worked>,
    pub(crate) closed: Option<Ended>,
}

impl Model for Running {
    ghost use Rattle.std.specs.Prelude.{length};
    ghost use Rattle.guards_nodes.specs.NodeStates.{RunningValue};
    ghost use Rattle.channel_node.specs.Fits.{AreRunningParts};

    ghost Value = { RunningValue };

    ghost view = { λ r. record {
      held =
          record { context = r.context; control = r.control; accused = r.accused; heard = r.heard };
      progress = record {
        hearing = r.hearing;
        tree = r.tree;
        decided = r.decided;
        worked = r.worked;
        closed = r.closed;
      };
    } };

    ghost invariant = { λ r. AreRunningParts (length r.context) r.control.sweeping r.closed r.heard r.hearing };
}

// The code of a request: 2 where it has the start of the running transfer to its sender, and 1 for any other.
fn code_of(transfer: &Option<Transfer>, from: Chan, have: Option<u32>) -> u8
    ensures code { result ≡ request_code (transfer_in transfer.now) from (Some have) }
    ensures small { result ≤ 2 }
{
    let Some(start) = have else {
        return 1;
    };
    let Some(transfer) = transfer else {
        return 1;
    };
    if transfer.targets.has(from) && transfer.start == start {
        2
    } else {
        1
    }
}

// The codes with the one of a channel.
fn with_code(codes: [u8; 7], from: Chan, code: u8) -> [u8; 7]
    requires codes { are_codes codes ≡ true }
    requires small { code ≤ 2 }
    ensures set { result ≡ slice_set codes from code }
    ensures codes { are_codes result ≡ true }
{
    let mut codes = codes;
    codes[usize::from(from.index())] = code;
    codes
}

impl Running {
    /// Before the first cycle: all channels are active, and nothing was heard.
    #[tactic(auto, unfolding(guards_model::specs::Controls::first_control, guards_model::specs::Channels::by_channel))]
    pub fn first(rules: &Rules, initial: Context) -> Running
        requires { is_rules rules.now ≡ true }
        ensures { result ≡ first_running_value rules.now initial }
    {
        Running {
            context: initial,
            control: Control::first(rules),
            accused: ChanSet::empty(),
            heard: [0; 7],
            hearing: [0; 7],
            tree: None,
            decided: None,
            worked: None,
            closed: None,
        }
    }

    /// Lends the context.
    pub fn context(&self) -> &Context
        ensures { result.now ≡ self.now.context }
    {
        &self.context
    }

    /// Lends the control.
    pub fn control(&self) -> &Control
        ensures { result.now ≡ self.now.control }
    {
        &self.control
    }

    /// Sets a word of the context.
    pub fn damage(&mut self, block: u8, word: u8, value: i64)
        requires block { block < length self.old.context }
        requires word { word < 8 }
        ensures { self.new ≡ with_damage block word value self.old }
    {
        let mut words = self.context.get(block);
        words.words[usize::from(word)] = value;
        self.context.set_block(block, words);
    }

    /// Keeps the code of a request for the next source word.
    pub fn hear(&mut self, from: Chan, have: Option<u32>)
        ensures { self.new ≡ after_request from have self.old }
    {
        let code = code_of(&self.control.transfer, from, have);
        self.hearing = with_code(self.hearing, from, code);
    }
}
