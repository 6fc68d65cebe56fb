//! What is known of a cycle that is finished.
use crate::ChanSet;
use std::marker::Model;

/// The number of the last finished cycle, who was active in it, and who was disturbed at its end.
#[derive(Clone, Copy, Debug, PartialEq, Eq)]
pub struct Settled {
    pub cycle: u32,
    pub active: ChanSet,
    pub disturbed: ChanSet,
}

impl Model for Settled {
    ghost use Rattle.guards_model.specs.Settled.{SettledValue};

    ghost Value = { SettledValue };

    ghost view = { λ s. record { cycle = s.cycle; active = s.active; disturbed = s.disturbed } };

    ghost inverse = { λ s. record { cycle = s.cycle; active = s.active; disturbed = s.disturbed } };
}
