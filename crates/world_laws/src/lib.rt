//! Laws that tie the world to the facts of a run: the ledger, the stop, and the log that stands for the world from
//! cycle to cycle. Each is the contract of a function without a body.
#![tactic(auto)]

mod carried;
mod counts;
mod cycle;
mod ending;
mod fronts;
mod sends;
mod staying;

ghost use Rattle.std.specs.Prelude.{◌≡◌, ◌≤◌, ◌<◌, true, ℕ, [], ◌∷◌};
ghost use Rattle.std.specs.List.{list_any};
ghost use Rattle.guards_model.specs.declared.Slot.{Slot};
ghost use Rattle.guards_model.specs.declared.Slot.TheVariants.{Request, Switch};
ghost use Rattle.guards_model.specs.Slots.{up_to, on_bus};
ghost use Rattle.guards_model.specs.Channels.{Channel, ChannelSet, has};
ghost use Rattle.guards_model.specs.Missions.{MissionValue, IsMission};
ghost use Rattle.guards_model.specs.Modes.{is_joining};
ghost use Rattle.guards_model.specs.Network.{Log};
ghost use Rattle.guards_model.specs.Ledgers.{turned_joining, ledger_at_start, ledger_in_slot, ledger_at_end, disturbed_by, limit_reached};
ghost use Rattle.guards_runs.specs.Cycles.{this_cycle, cycles_before, cycle_at, active_set, mode_in, is_whole};
ghost use Rattle.guards_runs.specs.Disturbed.{is_charge, disturbed_channels, halts};
ghost use Rattle.guards_runs.specs.Promises.{IsRun};
ghost use Rattle.guards_world.specs.NodeFacts.{ledger_at};
ghost use Rattle.guards_world.specs.SlotSteps.{begins_to_join};
ghost use Rattle.guards_world.specs.Worlds.{WorldValue, StandsForWorld, first_world};
ghost use Rattle.guards_world.specs.InCycle.{ledger_in};

pub use carried::slots_end;
pub use counts::entries_fit;
pub use cycle::{
    pieces_arrive, rounds_settle_decisions, slots_are_carried, slots_are_entered, worlds_go_on,
};
pub use ending::{cycles_finish, cycles_run_out, cycles_stop};
pub use fronts::fronts_end_at_stops;
pub use sends::sends_are_due;
pub use staying::{channels_run, decisions_stay, full_stays, later_slots_follow, steps_come_later};

/// The ledger goes from cycle to cycle and from slot to slot as the facts say: it has their modes and their marks of
/// damage.
pub fn ledger_follows()
    ensures joins { (M : MissionValue) (L : Log) (n : ℕ) (q : Channel) → q < 7 →
        let past = cycles_before M L n in
        has (turned_joining (ledger_at M past) (ledger_at_start M.script (this_cycle past) (ledger_at M past))) q
        ≡ begins_to_join M past q }
    ensures enters { (M : MissionValue) (L : Log) (n : ℕ) →
        let past = cycles_before M L n in
        ledger_in_slot M.script (this_cycle past) Request
        (ledger_at_start M.script (this_cycle past) (ledger_at M past))
        ≡ ledger_in M (cycle_at M L n) Request }
    ensures goes_on { (M : MissionValue) (L : Log) (n : ℕ) (before slot : Slot) → up_to before slot ≡ true →
        on_bus slot ≡ true →
        ledger_in_slot M.script (this_cycle (cycles_before M L n)) slot (ledger_in M (cycle_at M L n) before)
        ≡ ledger_in M (cycle_at M L n) slot }
    ensures ends { (M : MissionValue) (L : Log) (n : ℕ) (on taken : ChannelSet) →
        let past = cycles_before M L n in
        let e = cycle_at M L n in
        ((q : Channel) → q < 7 → has on q ≡ has (active_set M (e ∷ past)) q) →
        ((q : Channel) → q < 7 → is_joining (mode_in e q Switch) ≡ true → has taken q ≡ is_whole q (e ∷ past)) →
        ledger_at_end on taken (ledger_in M e Switch) ≡ ledger_at M (e ∷ past) }
{}

/// With this ledger, and the channels whose pieces did not arrive as they were sent, the disturbed channels are those
/// of the facts, and the limit is reached exactly where the slot halts the run.
pub fn stops_are_found()
    ensures disturbed { (M : MissionValue) (L : Log) (n : ℕ) (slot : Slot) (charged : ChannelSet) → IsMission M →
        let e = cycle_at M L n in
        ((q : Channel) → q < 7 → has charged q ≡ list_any (is_charge n slot q) e.entries) →
        disturbed_by e.active charged (ledger_in M e slot) ≡ disturbed_channels n e slot }
    ensures halts { (M : MissionValue) (L : Log) (n : ℕ) (slot : Slot) (charged : ChannelSet) → IsMission M →
        let e = cycle_at M L n in
        ((q : Channel) → q < 7 → has charged q ≡ list_any (is_charge n slot q) e.entries) →
        limit_reached e.active charged (ledger_in M e slot) ≡ halts n e slot }
{}

/// The empty log stands for the world of a mission before its first cycle, and a log that stands for a world is a run
/// of the cycles that it has finished.
pub fn worlds_begin()
    ensures first { (M : MissionValue) → IsMission M → StandsForWorld (first_world M) [] }
    ensures runs { (w : WorldValue) (L : Log) → StandsForWorld w L → IsRun w.mission L w.done }
{}
