//! Laws of whole runs: how cycles make them, with an actuator and without one, what they tell, that over a scripted bus
//! their text is a function of their mission, and that they diagnose rightly. Each is the contract of a function
//! without a body.
#![tactic(auto)]

mod diagnosed;
mod driven;
mod exchanges;
mod scripted;

ghost use Rattle.std.specs.Prelude.{◌≡◌, ◌<◌, ◌-◌, ◌++◌, ◌∷◌, [], ℕ, Bool, None, Some, Result};
ghost use Rattle.guards_model.specs.Missions.{MissionValue, IsMission, bus_rules};
ghost use Rattle.guards_model.specs.Network.{Log, without_outputs, BusValue};
ghost use Rattle.guards_model.specs.Rounds.{Histories};
ghost use Rattle.guards_model.specs.Texts.{RecordValue, StopValue, text_of_parts, done_line, stop_line};
ghost use Rattle.guards_runs.specs.Cycles.{cycles_before, cycle_at};
ghost use Rattle.guards_runs.specs.Disturbed.{stop_in, stop_of};
ghost use Rattle.guards_world.specs.Worlds.{WorldValue, HaltValue, first_world};
ghost use Rattle.guards_world.specs.WorldCycle.{Carries, PassesCycle};
ghost use Rattle.world_laws.specs.Fronts.{CarriesUpToStop};
ghost use Rattle.run_laws.specs.Runs.{IsBetween, PassesOn, HasRunCycles, HasRunToStop, HasRunPart, last_texts, parts_so_far, run_text, short_text, with_head, with_unfinished};

pub use diagnosed::{cycles_that_ran_are_runs, runs_diagnose_rightly};
pub use driven::{
    cycles_drive_on, driven_cycles_ran, driven_runs_are_told, driven_runs_begin,
    told_texts_are_reports,
};
pub use exchanges::cycles_may_exchange;
use icn_bus::Bus;
pub use scripted::scripted_actings_end_alike;

/// A run begins with the first world of a mission, over a bus that has the mission's rules.
pub fn runs_begin<B: Bus>()
    ensures { (M : MissionValue) (bus : BusValue) → IsMission M → bus.script ≡ bus_rules M →
        IsBetween B.may M bus (first_world M) bus [] [] [] }
{}

/// A cycle of the world goes on with the run, stops it, or breaks it off; where memory runs out, nothing was carried
/// after a slot that stops the run.
pub fn cycles_pass_on<B: Bus>()
    ensures { (M : MissionValue) (start bus : BusValue) (w : WorldValue) (F L : Log)
        (histories : Histories) (result : Result RecordValue HaltValue) (new : WorldValue) (after : BusValue) →
        IsBetween B.may M start w bus F L histories → w.done < w.mission.cycles →
        PassesCycle B.may w.spent w bus result new after →
        CarriesUpToStop w bus result after → PassesOn B.may M start w F L histories result new after }
{}

/// Output entries leave a run where it is.
pub fn outputs_leave<B: Bus>()
    ensures { (M : MissionValue) (start : BusValue) (w : WorldValue) (bus after : BusValue) (F L outs : Log)
        (histories : Histories) →
        IsBetween B.may M start w bus F L histories → Carries B.may bus after outs → without_outputs outs ≡ [] →
        IsBetween B.may M start w after (F ++ outs) L histories }
{}

/// Between two cycles, those so far ran; and a run that stopped is one that broke off.
pub fn cycles_ran<B: Bus>()
    ensures whole { (M : MissionValue) (start bus : BusValue) (w : WorldValue) (F L : Log)
        (histories : Histories) → IsBetween B.may M start w bus F L histories → HasRunCycles M w.done L histories }
    ensures stopped { (M : MissionValue) (n : ℕ) (stop : StopValue) (L : Log) (histories : Histories) →
        HasRunToStop M n stop L histories → HasRunPart M n L histories }
{}

/// The text of a run that stopped nowhere is the head line, the parts of its cycles and the last line; where it
/// stopped, it is the parts of the cycles before, and the line of the stop.
pub fn runs_are_told()
    ensures whole { (trace : Bool) (M : MissionValue) (L : Log) (histories : Histories) →
        stop_of (cycles_before M L M.cycles) ≡ None →
        run_text trace M L histories
        ≡ text_of_parts (parts_so_far trace M histories (cycles_before M L M.cycles)) ++ done_line M.cycles }
    ensures stopped { (trace : Bool) (M : MissionValue) (L : Log) (histories : Histories) (n : ℕ) (stop : StopValue) →
        n < M.cycles →
        stop_of (cycles_before M L n) ≡ None → stop_in n (cycle_at M L n) ≡ Some stop →
        run_text trace M L (with_unfinished (M.cycles - n) histories)
        ≡ text_of_parts (parts_so_far trace M histories (cycles_before M L n)) ++ stop_line stop }
{}

/// The short text of a run that stopped nowhere is the head line, the parts of its last k cycles and the last line;
/// where it stopped, it is the head line, the parts of the last k cycles before, and the line of the stop.
pub fn short_runs_are_told()
    ensures whole { (k : ℕ) (trace : Bool) (M : MissionValue) (L : Log) (histories : Histories) →
        stop_of (cycles_before M L M.cycles) ≡ None →
        short_text k trace M L histories
        ≡ with_head M (last_texts k trace M histories (cycles_before M L M.cycles)) ++ done_line M.cycles }
    ensures stopped { (k : ℕ) (trace : Bool) (M : MissionValue) (L : Log) (histories : Histories) (n : ℕ)
        (stop : StopValue) → n < M.cycles →
        stop_of (cycles_before M L n) ≡ None → stop_in n (cycle_at M L n) ≡ Some stop →
        short_text k trace M L (with_unfinished (M.cycles - n) histories)
        ≡ with_head M (last_texts k trace M histories (cycles_before M L n)) ++ stop_line stop }
{}
