//! The end of a cycle.
ghost use Rattle.std.specs.Prelude.{◌≡◌};
ghost use Rattle.guards_model.specs.Network.{Log};
ghost use Rattle.guards_model.specs.Rounds.{Steps};
ghost use Rattle.guards_world.specs.Passing.{world_after};
ghost use Rattle.icn_world.specs.Restored.{IsRestored};

use crate::restoring::SweepResult;
use crate::world::World;
use fault_script::Disturbance;
use guards_base::Settled;

impl World {
    // Ends the cycle: the switchboard closes, the removed channels rest, those that took a content run, and the ledger
    // and the count of cycles go on.
    pub(crate) fn end(&mut self, restored: &SweepResult, disturbance: &Disturbance)
        requires { (earlier : Log) × (current : Log) × (steps : Steps)
            × IsRestored restored.now earlier current steps self.old disturbance.now }
        ensures { (earlier current : Log) (steps : Steps) →
            IsRestored restored.now earlier current steps self.old disturbance.now →
            self.new ≡ world_after self.old.mission earlier current steps self.old.done self.old.carried }
    {
        let settled = Settled {
            cycle: self.done,
            active: self.switchboard.on(),
            disturbed: disturbance.set(&self.ledger),
        };
        let on = self.switchboard.close(&restored.sent);
        self.nodes.end(on, restored.taken);
        self.ledger.end_cycle(on, restored.taken);
        self.done += 1;
        self.settled = Some(settled);
    }
}
