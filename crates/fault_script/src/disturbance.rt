//! Who is disturbed in a cycle, and whether too many are.
ghost use Rattle.std.specs.Prelude.{◌≡◌, [], ◌∷◌};
ghost use Rattle.guards_model.specs.Channels.{union};
ghost use Rattle.guards_model.specs.Ledgers.{disturbed_by, limit_reached};

use crate::ledger::Ledger;
use guards_base::{Chan, ChanSet};

/// The active channels of a cycle, and those that are charged: a piece of theirs was not delivered as it was sent.
#[derive(Clone, Copy, Debug, PartialEq, Eq)]
pub struct Disturbance {
    active: ChanSet,
    charged: ChanSet,
}

impl Disturbance {
    /// Nobody is charged yet.
    pub fn begin(active: ChanSet) -> Disturbance
        ensures active { result.active ≡ active }
        ensures charged { result.charged ≡ [] }
    {
        Disturbance {
            active,
            charged: ChanSet::empty(),
        }
    }

    /// Charges a sender.
    pub fn charge(&mut self, from: Chan)
        ensures active { self.new.active ≡ self.old.active }
        ensures charged { self.new.charged ≡ union self.old.charged (from ∷ []) }
    {
        self.charged = self.charged.with(from);
    }

    /// The active channels that are not up, have a damage mark, or are charged.
    pub fn set(&self, ledger: &Ledger) -> ChanSet
        ensures { result ≡ disturbed_by self.now.active self.now.charged ledger.now }
    {
        ledger.disturbed(self.active, self.charged)
    }

    /// A third of the active channels or more are disturbed.
    pub fn reached(&self, ledger: &Ledger) -> bool
        ensures { result ≡ limit_reached self.now.active self.now.charged ledger.now }
    {
        u32::from(self.active.count()) <= 3 * u32::from(self.set(ledger).count())
    }
}
