//! The demo mission of a number.
#![tactic(auto)]

mod demo;
mod draws;
mod faults;
mod sensors;
mod tasks;

ghost use Rattle.std.specs.Prelude.{◌≡◌, ℕ};
ghost use Rattle.std.specs.List.{AllByRecursion};
ghost use Rattle.guards_model.specs.BusRules.{RuleValue, lose};
ghost use Rattle.guards_model.specs.Missions.{IsMission, bus_rules};
ghost use Rattle.demo_mission.specs.Demo.{demo_mission};

pub use demo::demo_mission;

/// Each demo mission is a mission.
pub fn demos_are_missions()
    ensures { (n : ℕ) → IsMission (demo_mission n) }
{}

/// The rules that a demo mission has for the bus lose pieces: none puts another in place of one.
pub fn demos_forge_nothing()
    ensures { (n : ℕ) → AllByRecursion (λ (rule : RuleValue). rule.act ≡ lose) (bus_rules (demo_mission n)) }
{}
