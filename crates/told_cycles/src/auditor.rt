//! The auditor, between two lines.
ghost use Rattle.std.specs.Prelude.{◌≡◌, ◌≤◌, ◌<◌, ◌&&◌, not, false, true, ℕ, [], ◌∷◌, length, map, take, Option, None, Some, unwrap_or, IfOk, bytes_eq};
ghost use Rattle.guards_model.specs.Channels.{ChannelSet, union};
ghost use Rattle.guards_model.specs.Decisions.{joined_of};
ghost use Rattle.guards_model.specs.Missions.{ActuatorValue, MissionValue};
ghost use Rattle.guards_model.specs.Records.{transfer_of_pair};
ghost use Rattle.guards_model.specs.Texts.{RecordValue};
ghost use Rattle.guards_audit.specs.Consistency as place;
ghost use Rattle.guards_audit.specs.Consistency.{after_cycle};
ghost use Rattle.guards_audit.specs.Lines.{channel_told, closed_record, cycle_told, done_told, end_told, head_told, out_told, is_empty, opened_record, steps_told};
ghost use Rattle.guards_audit.specs.Tests.{all_traced, comes_next, cycle_fits, first_fits, transfer_goes_on, removed_fits, same_number, says_fit, steps_fit, transfer_fits};
ghost use Rattle.guards_audit.specs.Told.{Told, number_remaining, rest_told, with_line};
ghost use Rattle.guards_audit.specs.Verdicts.{is_at_end};
ghost use Rattle.told_cycles.specs.declared.auditor.Place.TheVariants as at;
ghost use Rattle.told_cycles.specs.Standing.{EndsAmid, IsAmid, IsBetweenCycles, StandsAt, StandsSomewhere, SweepsClosed, Takes, context_amid, is_amid, is_awaiting, is_between_cycles, is_ended, is_head, shown_in};

use crate::counts::{counts_by, counts_of_line, counts_told, has_counts, judged_of};
use crate::lines::{are_same_words, says_same};
use crate::rules::{
    all_stay_rightly, are_all_done, block_count, channel_count, comes_next, everyone, is_head_of,
    is_same_number, joins, remaining_of, returning_of, starts_in, sweep_of,
};
use crate::sets::{are_same, both, either, within};
use crate::sweeps::{Plan, Sweeps};
use crate::work::{
    copies_told, first_words, has_width, run_line, teller_of, votes_fit, words_after, worker_of,
    writes_told,
};
use context_blocks::Context;
use guards_base::{Chan, ChanSet, ChannelLine, TraceLine};
use mission_type::Mission;
use native_calls::Calls;
use std::alloc::{AllocError, Global};

/// What was told of the running cycle: its transfer and plan, its first line, and whose lines and steps.
#[derive(Drop)]
pub struct Part {
    transfer: Option<(ChanSet, u32)>,
    plan: Plan,
    first: Option<ChannelLine>,
    lined: ChanSet,
    traced: ChanSet,
}

/// Where the next line stands.
#[derive(Clone, Copy)]
pub enum Place {
    Head,
    Between,
    Amid,
    Awaits,
    Over,
}

/// What the lines so far tell: the place, how many cycles were told, who is active in the next one, and of the last
/// one who joined, the counts and the transfer; what the cycles of that transfer planned and wrote; the context; the
/// words of an actuator; and the running cycle.
#[derive(Drop)]
pub struct Auditor {
    place: Place,
    done: u32,
    active: ChanSet,
    joined: ChanSet,
    counts: [u32; 7],
    transfer: Option<(ChanSet, u32)>,
    sweeps: Sweeps,
    context: Context,
    words: [i64; 8],
    part: Part,
}

/// A cycle of which nothing is told.
fn no_part() -> Part {
    Part {
        transfer: None,
        plan: Plan::new(),
        first: None,
        lined: ChanSet::empty(),
        traced: ChanSet::empty(),
    }
}

/// Where the line after a cycle's last one stands.
fn next_place(mission: &Mission) -> Place
    ensures none { mission.now.actuator ≡ None → result ≡ at.Between }
    ensures some { (actuator : ActuatorValue) → mission.now.actuator ≡ Some actuator → result ≡ at.Awaits }
{
    match mission.actuator() {
        Some(_) => Place::Awaits,
        None => Place::Between,
    }
}

impl Auditor {
    /// At the beginning of a trace.
    pub fn new(alloc: Global, mission: &Mission) -> Result<Auditor, AllocError>
        ensures { IfOk result (StandsAt mission.now place.at_head) }
    {
        let context = mission.start(alloc)?;
        Ok(Auditor {
            place: Place::Head,
            done: 0,
            active: everyone(mission),
            joined: ChanSet::empty(),
            counts: [0; 7],
            transfer: None,
            sweeps: Sweeps::none(block_count(mission)),
            context,
            words: first_words(mission),
            part: no_part(),
        })
    }

    /// Whether the trace is told to its end.
    pub fn is_over(&self) -> bool
        ensures { (M : MissionValue) (at : place.Place) → StandsAt M at self.now → result ≡ is_at_end at }
    {
        self.is_ended()
    }

    fn is_ended(&self) -> bool
        ensures { result ≡ is_ended self.now.place }
    {
        matches!(self.place, Place::Over)
    }

    fn is_head(&self) -> bool
        ensures { result ≡ is_head self.now.place }
    {
        matches!(self.place, Place::Head)
    }

    fn is_between(&self) -> bool
        ensures { result ≡ is_between_cycles self.now.place }
    {
        matches!(self.place, Place::Between)
    }

    fn is_awaiting(&self) -> bool
        ensures { result ≡ is_awaiting self.now.place }
    {
        matches!(self.place, Place::Awaits)
    }

    fn is_amid(&self) -> bool
        ensures { result ≡ is_amid self.now.place }
    {
        matches!(self.place, Place::Amid)
    }

    /// Takes a head line, and answers whether it fits.
    pub fn take_head(&mut self, mission: &Mission, channels: u8, cycles: u32) -> bool
        ensures { (at : place.Place) → StandsAt mission.now at self.old →
            Takes mission.now at (head_told channels cycles) self.new result }
    {
        if !self.is_head() {
            return false;
        }
        if !is_head_of(mission, channels, cycles) {
            return false;
        }
        self.place = Place::Between;
        true
    }

    /// Takes a last line.
    pub fn take_done(&mut self, mission: &Mission, cycles: u32) -> bool
        ensures { (at : place.Place) → StandsAt mission.now at self.old →
            Takes mission.now at (done_told cycles) self.new result }
    {
        if !self.is_between() {
            return false;
        }
        if !are_all_done(mission, self.done, cycles) {
            return false;
        }
        self.place = Place::Over;
        true
    }

    /// Whether a transfer goes on from the cycle before.
    fn goes_on(&self, targets: ChanSet, start: u32) -> bool
        ensures { (M : MissionValue) (told : Told) → IsBetweenCycles M told self.now →
            result ≡ transfer_goes_on told (record { targets = targets; start = start }) }
    {
        let Some((before, since)) = self.transfer else {
            return false;
        };
        both(
            self.joined.count() == 0,
            both(since == start, within(targets, before)),
        )
    }

    fn transfer_fits(&self, mission: &Mission, transfer: &Option<(ChanSet, u32)>) -> bool
        ensures { (told : Told) → IsBetweenCycles mission.now told self.now →
            result ≡ transfer_fits mission.now told self.now.active (transfer_of_pair transfer.now) }
    {
        let Some((targets, start)) = *transfer else {
            return true;
        };
        let passive = everyone(mission).difference(self.active);
        let count = targets.count();
        let some = both(1 <= count, count <= returning_of(mission));
        let running = either(start == self.done, self.goes_on(targets, start));
        both(some, both(within(targets, passive), running))
    }

    fn cycle_fits(
        &self,
        mission: &Mission,
        cycle: u32,
        active: ChanSet,
        transfer: &Option<(ChanSet, u32)>,
    ) -> bool
        ensures { (told : Told) → IsBetweenCycles mission.now told self.now →
            result ≡ cycle_fits mission.now told cycle active (transfer_of_pair transfer.now) }
    {
        let is_next = both(cycle < mission.cycles(), cycle == self.done);
        both(
            is_next,
            both(
                are_same(active, self.active),
                self.transfer_fits(mission, transfer),
            ),
        )
    }

    /// Opens a cycle.
    fn open(&mut self, mission: &Mission, transfer: Option<(ChanSet, u32)>)
        requires { (told : Told) × IsBetweenCycles mission.now told self.old }
        ensures { (told : Told) (cycle : ℕ) (active : ChannelSet) → IsBetweenCycles mission.now told self.old →
            cycle_fits mission.now told cycle active (transfer_of_pair transfer) ≡ true →
            StandsAt mission.now (place.amid told (opened_record cycle active (transfer_of_pair transfer))) self.new }
    {
        mission.prove_mission();
        self.sweeps.restart_if(starts_in(&transfer, self.done));
        let plan = self.sweeps.plan(sweep_of(mission, &transfer));
        self.part = Part {
            transfer,
            plan,
            first: None,
            lined: ChanSet::empty(),
            traced: ChanSet::empty(),
        };
        self.place = Place::Amid;
    }

    /// Takes the line with which a cycle begins.
    pub fn take_cycle(
        &mut self,
        mission: &Mission,
        cycle: u32,
        active: ChanSet,
        transfer: Option<(ChanSet, u32)>,
    ) -> bool
        requires { StandsSomewhere mission.now self.old }
        ensures { (at : place.Place) → StandsAt mission.now at self.old →
            Takes mission.now at (cycle_told cycle active (transfer_of_pair transfer)) self.new result }
    {
        if !self.is_between() {
            return false;
        }
        if !self.cycle_fits(mission, cycle, active, &transfer) {
            return false;
        }
        self.open(mission, transfer);
        true
    }

    /// Whether the first line of a cycle fits; the cycle's writes are done on its inputs.
    fn first_fits<C: Calls>(&mut self, mission: &Mission, line: &ChannelLine, natives: &C) -> bool
        requires { length self.old.context ≡ mission.now.rules.blocks }
        ensures fits { (told : Told) (r : RecordValue) → IsAmid mission.now told r self.old → r.lines ≡ [] →
            result ≡ first_fits mission.now told r (shown_in mission.now line.now) }
        ensures context { (told : Told) (r : RecordValue) → IsAmid mission.now told r self.old → r.lines ≡ [] →
            self.new
            ≡ record self.old {
              context =
                  context_amid mission.now told (with_line r (shown_in mission.now line.now));
            } }
    {
        mission.prove_sizes();
        let judged = judged_of(line);
        let counts = counts_by(mission, self.active, self.joined, judged, &self.counts);
        run_line(mission, self.done, &mut self.context, line, natives);
        let fits = both(has_width(mission, line), within(judged, self.active));
        let follows = both(
            has_counts(line, &counts, channel_count(mission)),
            votes_fit(mission, &self.context, line),
        );
        both(fits, follows)
    }

    /// Whether what a line says fits.
    fn says_fit<C: Calls>(&mut self, mission: &Mission, line: &ChannelLine, natives: &C) -> bool
        requires { length self.old.context ≡ mission.now.rules.blocks }
        ensures fits { (told : Told) (r : RecordValue) → IsAmid mission.now told r self.old →
            result ≡ says_fit mission.now told r (shown_in mission.now line.now) }
        ensures context { (told : Told) (r : RecordValue) → IsAmid mission.now told r self.old →
            self.new
            ≡ record self.old {
              context =
                  context_amid mission.now told (with_line r (shown_in mission.now line.now));
            } }
    {
        if let Some(first) = &self.part.first {
            return says_same(mission, line, first);
        }
        self.first_fits(mission, line, natives)
    }

    fn line_comes_next(&self, chan: Chan) -> bool
        ensures { (M : MissionValue) (told : Told) (r : RecordValue) → IsAmid M told r self.now →
            result ≡ (is_empty r.traces && comes_next r.active (map (λ line. line.channel) r.lines) chan) }
    {
        both(
            self.part.traced.count() == 0,
            comes_next(self.active, self.part.lined, chan),
        )
    }

    /// Notes a line of a channel.
    fn note_line(&mut self, line: ChannelLine)
        ensures { self.new
            ≡ record self.old {
              part = record self.old.part {
                lined = union self.old.part.lined (line.channel
                    ∷ []);
                first = Some (unwrap_or self.old.part.first line);
              };
            } }
    {
        self.part.lined = self.part.lined.with(teller_of(&line));
        if self.part.first.is_some() {
            drop(line);
        } else {
            self.part.first = Some(line);
        }
    }

    /// Takes the line of a channel.
    pub fn take_channel<C: Calls>(
        &mut self,
        mission: &Mission,
        line: ChannelLine,
        natives: &C,
    ) -> bool
        requires { StandsSomewhere mission.now self.old }
        ensures { (at : place.Place) → StandsAt mission.now at self.old →
            Takes mission.now at (channel_told (shown_in mission.now line)) self.new result }
    {
        mission.prove_sizes();
        let chan = teller_of(&line);
        let _below = chan.index();
        if !self.is_amid() {
            return false;
        }
        if !self.line_comes_next(chan) {
            return false;
        }
        if !self.says_fit(mission, &line, natives) {
            return false;
        }
        self.note_line(line);
        true
    }

    fn steps_fit(&self, mission: &Mission, trace: &TraceLine) -> bool
        ensures { (told : Told) (r : RecordValue) → IsAmid mission.now told r self.now →
            result ≡ steps_fit mission.now told r trace.now }
    {
        let comes = both(
            self.part.first.is_some(),
            comes_next(self.active, self.part.traced, worker_of(trace)),
        );
        let writes = writes_told(trace) == mission.table().steps(self.done);
        let copies = copies_told(trace) == self.part.plan.len();
        both(comes, both(writes, copies))
    }

    /// Takes the line of a channel's steps.
    pub fn take_steps(&mut self, mission: &Mission, trace: &TraceLine) -> bool
        ensures { (at : place.Place) → StandsAt mission.now at self.old →
            Takes mission.now at (steps_told trace.now) self.new result }
    {
        let chan = worker_of(trace);
        let _below = chan.index();
        if !self.is_amid() {
            return false;
        }
        if !self.steps_fit(mission, trace) {
            return false;
        }
        self.part.traced = self.part.traced.with(chan);
        true
    }

    /// Whether a cycle may end with these removed.
    fn may_end(&self, mission: &Mission, removed: ChanSet) -> bool
        ensures { (told : Told) (r : RecordValue) → IsAmid mission.now told r self.now →
            result ≡ ((not (is_empty r.lines) && all_traced r) && removed_fits mission.now r removed) }
    {
        let Some(first) = &self.part.first else {
            return false;
        };
        mission.prove_sizes();
        let counts = counts_told(first, channel_count(mission));
        let left = self.active.difference(removed).count();
        let stay = both(
            3 <= left,
            all_stay_rightly(mission, self.active, removed, &counts),
        );
        both(
            within(self.part.lined, self.part.traced),
            both(within(removed, self.active), stay),
        )
    }

    /// Notes what the cycle planned and wrote.
    fn close_sweeps(&mut self, mission: &Mission)
        requires { 0 < self.old.sweeps.blocks }
        ensures same { self.new ≡ record self.old { sweeps = self.new.sweeps } }
        ensures closed { (told : Told) (r : RecordValue) → IsAmid mission.now told r self.old →
            SweepsClosed mission.now told r self.new.sweeps }
    {
        let written = mission.table().distinct_blocks(self.done);
        self.sweeps
            .close(self.done, self.part.plan.as_slice(), &written);
    }

    /// Whether the rest of a cycle's last line fits what remains.
    fn rest_fits(&self, mission: &Mission, joined: ChanSet, remaining: Option<u16>) -> bool
        requires { self.now.sweeps.blocks ≤ 256 }
        ensures { (told : Told) (r : RecordValue) → transfer_of_pair self.now.part.transfer ≡ r.transfer →
            SweepsClosed mission.now told r self.now.sweeps →
            result ≡ (same_number remaining (number_remaining mission.now told r.transfer)
            && bytes_eq joined (joined_of mission.now.rules.last r.transfer (rest_told mission.now told r.transfer))) }
    {
        let transfer = &self.part.transfer;
        let rest = self.sweeps.remaining();
        both(
            is_same_number(remaining, remaining_of(transfer, rest)),
            are_same(joined, joins(mission, transfer, rest)),
        )
    }

    /// Ends a cycle: the next one begins with what its first line told.
    fn end<C: Calls>(&mut self, mission: &Mission, removed: ChanSet, joined: ChanSet, natives: &C)
        requires done { self.old.done < 2000 }
        requires context { length self.old.context ≡ mission.now.rules.blocks }
        ensures { (told : Told) (r : RecordValue) (left : Option ℕ) → EndsAmid mission.now told r self.old →
            is_empty r.lines ≡ false →
            StandsAt mission.now (after_cycle mission.now.actuator (closed_record r removed joined left ∷ told))
            self.new }
    {
        mission.prove_sizes();
        self.words = words_after(mission, &self.context, &self.words, natives);
        self.counts = counts_of_line(&self.part.first, channel_count(mission));
        self.joined = joined;
        self.transfer = self.part.transfer;
        self.active = self.active.difference(removed).union(joined);
        self.done += 1;
        self.place = next_place(mission);
    }

    /// Takes the line with which a cycle ends.
    pub fn take_end<C: Calls>(
        &mut self,
        mission: &Mission,
        removed: ChanSet,
        joined: ChanSet,
        remaining: Option<u16>,
        natives: &C,
    ) -> bool
        requires { StandsSomewhere mission.now self.old }
        ensures { (at : place.Place) → StandsAt mission.now at self.old →
            Takes mission.now at (end_told removed joined remaining) self.new result }
    {
        mission.prove_mission();
        mission.prove_sizes();
        if !self.is_amid() {
            return false;
        }
        if !self.may_end(mission, removed) {
            return false;
        }
        self.close_sweeps(mission);
        if !self.rest_fits(mission, joined, remaining) {
            return false;
        }
        self.end(mission, removed, joined, natives);
        true
    }

    /// Takes the line of an actuator's words.
    pub fn take_out(&mut self, mission: &Mission, words: &[i64; 8]) -> bool
        ensures { (at : place.Place) → StandsAt mission.now at self.old →
            Takes mission.now at (out_told (take (length mission.now.outputs) words.now)) self.new result }
    {
        mission.prove_sizes();
        let outputs = mission.outputs().len();
        if !self.is_awaiting() {
            return false;
        }
        if !are_same_words(&words[..outputs], &self.words[..outputs]) {
            return false;
        }
        self.place = Place::Between;
        true
    }
}
