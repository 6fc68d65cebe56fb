//! How a cycle of the world ends: it finishes, the run stops in it, or memory runs out.
ghost use Rattle.std.specs.Prelude.{◌≡◌, ◌<◌, ℕ, ◌++◌, length, Some, Ok, Err};
ghost use Rattle.std.specs.List.{AllByRecursion};
ghost use Rattle.guards_model.specs.declared.Slot.TheVariants.{Tasks, Switch};
ghost use Rattle.guards_model.specs.Slots.{slot_index, stage_after};
ghost use Rattle.guards_model.specs.Network.{Log};
ghost use Rattle.guards_model.specs.Records.{shown};
ghost use Rattle.guards_model.specs.Rounds.{Steps};
ghost use Rattle.guards_model.specs.Texts.{RecordValue, StopValue};
ghost use Rattle.guards_runs.specs.Cycles.{cycles_before, cycle_at};
ghost use Rattle.guards_runs.specs.Disturbed.{stop_in};
ghost use Rattle.guards_runs.specs.Report.{cycle_record};
ghost use Rattle.guards_world.specs.Worlds.{WorldValue, disturbed, no_memory};
ghost use Rattle.guards_world.specs.InCycle.{InCycle};
ghost use Rattle.guards_world.specs.WorldCycle.{AreFull, IsLinePadded, Ends};
ghost use Rattle.guards_world.specs.Passing.{world_after, IsStopIn, IsFront};

/// Where all slots of a cycle are done and the steps of all who worked are full, the world after it has finished the
/// cycle: the longer log stands for it, the cycle is sound, each channel that goes on running has its trail, and a
/// whole channel holds its replica with the final content put in. `w` is the world within the cycle that `old` has
/// begun.
pub fn cycles_finish()
    ensures { (old w new : WorldValue) (earlier current : Log) (steps : Steps) (part : RecordValue) →
        w.mission ≡ old.mission → w.done ≡ old.done →
        InCycle w.mission earlier current steps Switch (stage_after Switch) (stage_after Switch) w →
        AreFull w.mission (cycles_before w.mission (earlier ++ current) w.done)
        (cycle_at w.mission (earlier ++ current) w.done) steps →
        shown w.mission.rules.channels w.mission.width (length w.mission.outputs) part
        ≡ cycle_record w.mission steps w.done (cycle_at w.mission (earlier ++ current) w.done) →
        AllByRecursion (IsLinePadded w.mission) part.lines →
        new ≡ world_after w.mission earlier current steps w.done w.carried →
        Ends old earlier current (Ok part) new }
{}

/// Where the run stops in a slot, the cycle stopped there.
pub fn cycles_stop()
    ensures { (old w new : WorldValue) (earlier current : Log) (steps : Steps) (stop : StopValue) →
        w.mission ≡ old.mission → w.done ≡ old.done →
        IsStopIn w.mission earlier current w.done steps stop.slot →
        stop_in w.done (cycle_at w.mission (earlier ++ current) w.done) ≡ Some stop →
        (slot_index Tasks < slot_index stop.slot →
        AreFull w.mission (cycles_before w.mission (earlier ++ current) w.done)
        (cycle_at w.mission (earlier ++ current) w.done) steps) →
        new.mission ≡ w.mission → new.done ≡ w.done → new.spent ≡ Some (disturbed stop) →
        Ends old earlier current (Err (disturbed stop)) new }
{}

/// Where only a front of the cycle's due entries was carried, memory ran out in it.
pub fn cycles_run_out()
    ensures { (old w new : WorldValue) (earlier current : Log) →
        w.mission ≡ old.mission → w.done ≡ old.done → IsFront w.mission earlier current w.done →
        new.mission ≡ w.mission → new.done ≡ w.done → new.spent ≡ Some no_memory →
        Ends old earlier current (Err no_memory) new }
{}
