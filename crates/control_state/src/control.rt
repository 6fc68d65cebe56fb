//! The control and what its calls answer.
ghost use Rattle.std.specs.Prelude.{◌≡◌, true};
ghost use Rattle.guards_model.specs.Controls.{first_control};
ghost use Rattle.guards_model.specs.Missions.{is_rules};

use alpha_count::Alpha;
use dirty_tags::{Plan, Tags};
use guards_base::{ChanSet, Rules};
use std::marker::Model;

/// A transfer of the context to channels that are being restored.
#[derive(Drop)]
pub struct Transfer {
    pub targets: ChanSet,
    /// The cycle in which it started.
    pub start: u32,
    pub tags: Tags,
}

impl Model for Transfer {
    ghost use Rattle.guards_model.specs.Controls.{SweepingValue};

    ghost Value = { SweepingValue };

    ghost view = { λ t. record { transfer = record { targets = t.targets; start = t.start }; tags = t.tags } };
}

/// What a channel carries from cycle to cycle.
#[derive(Drop)]
pub struct Control {
    /// The channels whose words count.
    pub active: ChanSet,
    /// The alpha-count of each channel.
    pub alphas: [Alpha; 7],
    /// The channels that joined in the cycle before.
    pub fresh: ChanSet,
    /// The transfer that runs.
    pub transfer: Option<Transfer>,
}

impl Model for Control {
    ghost use Rattle.guards_model.specs.Controls.{ControlValue};

    ghost Value = { ControlValue };

    ghost view = { λ k. record { active = k.active; fresh = k.fresh; counts = k.alphas; sweeping = k.transfer } };
}

/// What a channel decides in a cycle.
#[derive(Drop)]
pub struct Decision {
    /// The channels that are judged errant.
    pub judged: ChanSet,
    /// The channels that leave the active set at the cycle's end.
    pub removed: ChanSet,
    /// The targets that the running transfer lost.
    pub dropped: ChanSet,
    /// Whether a transfer started in this cycle.
    pub started: bool,
    /// The blocks that this cycle copies, in order; none where no transfer runs.
    pub plan: Plan,
}

/// What closing a cycle answers.
#[derive(Drop)]
pub struct Closed {
    /// The targets that are declared joined.
    pub joined: ChanSet,
    /// The start of their transfer, and 0 where nobody joins.
    pub start: u32,
    /// How many blocks remain, where a transfer ran.
    pub remaining: Option<u16>,
    /// The blocks of the final frames, ascending; none where nobody joins.
    pub rest: Plan,
}

impl Control {
    /// The control of cycle 0: all channels are active, and nothing is held against them.
    pub fn first(rules: &Rules) -> Control
        requires { is_rules rules.now ≡ true }
        ensures { result ≡ first_control rules.now }
    {
        Control {
            active: ChanSet::below(rules.channels),
            alphas: [Alpha::zero(); 7],
            fresh: ChanSet::empty(),
            transfer: None,
        }
    }
}
