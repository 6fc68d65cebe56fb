//! Laws of what arrives and of who has worked, each the contract of a function without a body.
ghost use Rattle.std.specs.Prelude.{ℕ};
ghost use Rattle.guards_model.specs.declared.Slot.{Slot};
ghost use Rattle.guards_model.specs.Slots.{round_number};
ghost use Rattle.guards_model.specs.Missions.{MissionValue};
ghost use Rattle.guards_model.specs.Network.{Log};
ghost use Rattle.guards_world.specs.NodeLists.{Bodies, AreOfRound};
ghost use Rattle.guards_world.specs.Arrivals.{AreArrivals, HaveWorked};

/// The exchanges that arrive in the slot of a round are of this round, and in the other slots none arrive.
pub fn rounds_arrive()
    ensures { (M : MissionValue) (L : Log) (n : ℕ) (slot : Slot) (got : Bodies) → AreArrivals M L n slot got →
        AreOfRound (round_number slot) got }
{}

/// Whatever the log holds, the channels that are up in the vote slot have a context after the writes.
pub fn have_worked()
    ensures { (M : MissionValue) (L : Log) (n : ℕ) → HaveWorked M L n }
{}
