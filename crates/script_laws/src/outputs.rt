//! Output entries change no fact of a run.

ghost use Rattle.std.specs.Prelude.{◌≡◌, ℕ, List, false};
ghost use Rattle.std.specs.List.{AllByRecursion, list_any};
ghost use Rattle.guards_model.specs.BusRules.{RuleValue};
ghost use Rattle.guards_model.specs.ScriptedBus.{IsScripted};
ghost use Rattle.guards_model.specs.declared.Slot.TheVariants.{Switch, Vote};
ghost use Rattle.guards_model.specs.Channels.{Channel};
ghost use Rattle.guards_model.specs.Frames.{FrameValue};
ghost use Rattle.guards_model.specs.Missions.{MissionValue, FormatValue};
ghost use Rattle.guards_model.specs.Network.{Log, counting, ballot_of, actuator, without_outputs};
ghost use Rattle.guards_runs.specs.Cycles.{Cycle, cycles_before, cycle_at};
ghost use Rattle.guards_runs.specs.Disturbed.{halts, stop_of, stop_in};
ghost use Rattle.guards_runs.specs.SameFacts.{without_entries, HaveSameFacts};
ghost use Rattle.guards_model.specs.Actuators.{ballot_counting};
ghost use Rattle.guards_runs.specs.Outputs.{AreOutputsDue, is_output_charge, output_halts};

/// Whatever the log holds, the facts of its cycles are those of the log without the output entries, and it stops in the
/// same slot with the same sets.
pub fn outputs_change_no_fact()
    ensures facts { (M : MissionValue) (L : Log) (n : ℕ) →
        HaveSameFacts (cycles_before M L n) (cycles_before M (without_outputs L) n) }
    ensures cycle { (M : MissionValue) (L : Log) (n : ℕ) →
        without_entries (cycle_at M L n) ≡ without_entries (cycle_at M (without_outputs L) n) }
    ensures stop { (M : MissionValue) (L : Log) (n : ℕ) →
        stop_in n (cycle_at M L n) ≡ stop_in n (cycle_at M (without_outputs L) n) }
    ensures stops { (M : MissionValue) (L : Log) (n : ℕ) →
        stop_of (cycles_before M L n) ≡ stop_of (cycles_before M (without_outputs L) n) }
{}

/// A frame counts at the actuator as a vote frame counts, whatever else the format says.
pub fn outputs_count_as_votes()
    ensures { (format : FormatValue) (c : ℕ) (q : Channel) (f : FrameValue) →
        ballot_counting format.version format.outputs c q f ≡ ballot_of (counting format c Vote q actuator f) }
{}

/// Where no output entry charges anyone, the output slot stops a run just where the switch slot does.
pub fn uncharged_outputs_stop_nothing()
    ensures { (c : ℕ) (e : Cycle) (F : Log) → ((q : Channel) → list_any (is_output_charge c q) F ≡ false) →
        output_halts c e F ≡ halts c e Switch }
{}

/// Over a bus that does what the script says the output entries of two cycles with the same facts are the same.
pub fn scripted_outputs_are_alike()
    ensures { (rules : List RuleValue) (version c : ℕ) (e d : Cycle) (xs ys : Log) →
        without_entries e ≡ without_entries d → AreOutputsDue version c e xs → AreOutputsDue version c d ys →
        AllByRecursion (IsScripted rules) xs →
        AllByRecursion (IsScripted rules) ys → xs ≡ ys }
{}
