//! The events of a run say all of its log and of its rounds: what they deliver is the log, and each channel's steps in
//! a cycle are those of its history. So what holds for every list of events holds for every run. The definitions stand
//! in `specs/`.
ghost use Rattle.std.specs.Prelude.{◌≡◌, ℕ, [], true, false};
ghost use Rattle.guards_model.specs.declared.Slot.TheVariants.{Tasks};
ghost use Rattle.guards_model.specs.Channels.{Channel, has};
ghost use Rattle.guards_model.specs.Missions.{MissionValue, IsMission};
ghost use Rattle.guards_model.specs.Network.{Log};
ghost use Rattle.guards_model.specs.Rounds.{Steps, Histories, steps_of};
ghost use Rattle.guards_runs.specs.Cycles.{cycles_before, cycle_at};
ghost use Rattle.guards_runs.specs.Events.{events, cycle_events};
ghost use Rattle.guards_runs.specs.Promises.{HasRun};
ghost use Rattle.guards_runs.specs.Report.{channels_running_in};
ghost use Rattle.guards_laws.specs.Delivered.{delivered, steps_among};

/// What the events of a run's first cycles deliver is the log of these cycles, in order, with any histories beside it.
pub fn events_deliver_the_log()
    ensures { (M : MissionValue) (L : Log) (n : ℕ) (histories : Histories) → (run : HasRun M L n) →
        delivered (events M histories (cycles_before M L n)) ≡ run.before }
{}

/// The steps that a cycle's events have of a channel are those of its history where it works in the cycle, in their
/// order, and else there are none.
pub fn events_follow_the_histories()
    ensures works { (M : MissionValue) (L : Log) (n : ℕ) (steps : Steps) (p : Channel) → IsMission M →
        has (channels_running_in Tasks (cycle_at M L n)) p ≡ true →
        steps_among p (cycle_events M steps (cycles_before M L n) (cycle_at M L n)) ≡ steps_of steps p }
    ensures rests { (M : MissionValue) (L : Log) (n : ℕ) (steps : Steps) (p : Channel) → IsMission M →
        has (channels_running_in Tasks (cycle_at M L n)) p ≡ false →
        steps_among p (cycle_events M steps (cycles_before M L n) (cycle_at M L n)) ≡ [] }
{}
