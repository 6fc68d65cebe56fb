//! What the lines so far told.
ghost use Rattle.std.specs.Prelude.{◌≡◌, ◌≤◌, ◌==◌, ◌&&◌, true, length, take, nat_le, None, IfOk};
ghost use Rattle.guards_model.specs.Missions.{within};
ghost use Rattle.guards_model.specs.Records.{shown_line, transfer_of_pair};
ghost use Rattle.guards_audit.specs.Lines.{if_there, channel_told, cycle_told, done_told, end_told, head_told, out_told, steps_told, stop_told};
ghost use Rattle.run_audit.specs.Values.{IsInUse, line_value};
ghost use Rattle.report_story.specs.Places.{story_after, at_first, begun_story, line_comes_next, ended_story, filled, fits_mission, is_story_amid, is_between, is_story_ended, is_story_head, line_fits, sizes_fit, suits_story, with_story_line, story_words_fit};

use guards_base::{Chan, ChanSet, ChannelLine, Slot};
use picture_marks::{CycleFacts, End};
use run_audit::{Line, Sizes};
use std::alloc::{AllocError, Global};
use std::marker::Model;

/// How many cycles a mission has, and the sizes of the lines of its reports.
#[derive(Clone, Copy)]
pub struct RunSizes {
    pub cycles: u32,
    pub sizes: Sizes,
}

/// Where the next line stands.
#[derive(Clone, Copy)]
pub enum Stage {
    /// Before the first line.
    Head,
    /// Between two cycles.
    Between,
    /// After the last line of a cycle, where the words of an actuator may follow.
    Ended,
    /// In a cycle.
    Amid,
    /// After the last line.
    Over,
}

/// What the lines so far told.
#[derive(Drop)]
pub struct Reader {
    pub stage: Stage,
    pub channels: u8,
    pub cycles: u32,
    pub sizes: Option<Sizes>,
    pub told: Vec<CycleFacts>,
    /// What was told of the last cycle that has begun.
    pub last: CycleFacts,
    pub ending: End,
}

impl Model for Reader {
    ghost use Rattle.report_story.specs.Places.{StoryPlace};

    ghost Value = { StoryPlace };

    ghost view = { λ r. record {
      stage = r.stage;
      channels = r.channels;
      cycles = r.cycles;
      sizes = r.sizes;
      told = r.told.items;
      last = r.last;
      ending = r.ending;
    } };
}

/// A cycle of which nothing is told but its first line, and what the cycle before told of its transfer and its joins.
fn begun(
    cycle: u32,
    active: ChanSet,
    transfer: Option<(ChanSet, u32)>,
    before: Option<(ChanSet, u32)>,
    arrived: ChanSet,
) -> CycleFacts
    ensures { result ≡ begun_story cycle active (transfer_of_pair transfer) before arrived }
{
    CycleFacts {
        cycle,
        active,
        transfer,
        before,
        arrived,
        ran: ChanSet::empty(),
        judged: ChanSet::empty(),
        counts: [0; 7],
        votes: [None; 8],
        removed: ChanSet::empty(),
        joined: ChanSet::empty(),
        remaining: None,
    }
}

/// The first counts, and 0 in the other places.
fn filled_counts(counts: &[u32; 7], channels: u8) -> [u32; 7]
    requires { channels ≤ 7 }
    ensures { result ≡ filled 7 0 (take channels counts.now) }
{
    let count = usize::from(channels);
    let mut filled = [0; 7];
    filled[..count].copy_from_slice(&counts[..count]);
    filled
}

/// The first votes, and none in the other places.
fn filled_votes(votes: &[Option<i64>; 8], outputs: u8) -> [Option<i64>; 8]
    requires { outputs ≤ 8 }
    ensures { result ≡ filled 8 None (take outputs votes.now) }
{
    let count = usize::from(outputs);
    let mut filled = [None; 8];
    filled[..count].copy_from_slice(&votes[..count]);
    filled
}

/// A cycle's facts with a channel's line.
fn with_line(facts: &CycleFacts, line: &ChannelLine, sizes: Sizes) -> CycleFacts
    requires { IsInUse sizes }
    ensures { result ≡ with_story_line facts.now (shown_line sizes.channels sizes.width sizes.outputs line.now) }
{
    let ran = facts.ran.with(line.chan);
    let first = facts.ran.count() == 0;
    CycleFacts {
        cycle: facts.cycle,
        active: facts.active,
        transfer: facts.transfer,
        before: facts.before,
        arrived: facts.arrived,
        ran,
        judged: if first { line.judged } else { facts.judged },
        counts: if first {
            filled_counts(&line.alphas, sizes.channels)
        } else {
            facts.counts
        },
        votes: if first {
            filled_votes(&line.votes, sizes.outputs)
        } else {
            facts.votes
        },
        removed: facts.removed,
        joined: facts.joined,
        remaining: facts.remaining,
    }
}

/// A cycle's facts with its last line.
fn ended(
    facts: &CycleFacts,
    removed: ChanSet,
    joined: ChanSet,
    remaining: Option<u16>,
) -> CycleFacts
    ensures { result ≡ ended_story facts.now removed joined remaining }
{
    CycleFacts {
        cycle: facts.cycle,
        active: facts.active,
        transfer: facts.transfer,
        before: facts.before,
        arrived: facts.arrived,
        ran: facts.ran,
        judged: facts.judged,
        counts: facts.counts,
        votes: facts.votes,
        removed,
        joined,
        remaining,
    }
}

fn is_head(stage: Stage) -> bool
    ensures { result ≡ is_story_head stage }
{
    matches!(stage, Stage::Head)
}

fn is_between(stage: Stage) -> bool
    ensures { result ≡ is_between stage }
{
    matches!(stage, Stage::Between | Stage::Ended)
}

fn is_ended(stage: Stage) -> bool
    ensures { result ≡ is_story_ended stage }
{
    matches!(stage, Stage::Ended)
}

fn is_amid(stage: Stage) -> bool
    ensures { result ≡ is_story_amid stage }
{
    matches!(stage, Stage::Amid)
}

/// Whether the lines have these sizes, once one was there.
fn sizes_fit(sizes: Option<Sizes>, now: Sizes) -> bool
    requires { IsInUse now }
    ensures { result ≡ sizes_fit sizes now.width now.outputs }
{
    match sizes {
        Some(sizes) => now.width == sizes.width && now.outputs == sizes.outputs,
        None => true,
    }
}

/// Whether so many of the words are as many as the lines have.
fn words_fit(sizes: Option<Sizes>, words: &[i64; 8], outputs: u8) -> bool
    requires { outputs ≤ 8 }
    ensures { result ≡ story_words_fit sizes (take outputs words.now) }
{
    match sizes {
        Some(sizes) => words[..usize::from(outputs)].len() == usize::from(sizes.outputs),
        None => false,
    }
}

fn comes_next(facts: &CycleFacts, channel: Chan) -> bool
    ensures { result ≡ line_comes_next facts.now channel }
{
    facts.active.has(channel) && !facts.ran.has(channel)
}

fn is_channel_count(channels: u8) -> bool
    ensures { result ≡ within 3 7 channels }
{
    channels >= 3 && channels <= 7
}

fn is_cycle_count(cycles: u32) -> bool
    ensures { result ≡ within 1 2000 cycles }
{
    cycles >= 1 && cycles <= 2_000
}

fn is_block_count(remaining: Option<u16>) -> bool
    ensures { result ≡ if_there (λ n. nat_le n 256) remaining }
{
    match remaining {
        Some(count) => count <= 256,
        None => true,
    }
}

fn prove_inputs(inputs: &[i64; 4], width: u8)
    requires { width ≤ 4 }
    ensures { length (take width inputs.now) ≡ width }
{}

fn prove_votes(votes: &[Option<i64>; 8], outputs: u8)
    requires { outputs ≤ 8 }
    ensures { length (take outputs votes.now) ≡ outputs }
{}

fn prove_counts(counts: &[u32; 7], channels: u8)
    requires { channels ≤ 7 }
    ensures { length (take channels counts.now) ≡ channels }
{}

/// A channel's line shows as many inputs, votes and counts as it was read with.
fn prove_lengths(line: &ChannelLine, sizes: Sizes)
    requires { IsInUse sizes }
    ensures inputs { length (take sizes.width line.now.inputs) ≡ sizes.width }
    ensures votes { length (take sizes.outputs line.now.votes) ≡ sizes.outputs }
    ensures counts { length (take sizes.channels line.now.counts) ≡ sizes.channels }
{
    prove_inputs(&line.inputs, sizes.width);
    prove_votes(&line.votes, sizes.outputs);
    prove_counts(&line.alphas, sizes.channels);
}

/// Whether a line may be one of a report of the mission, where that is known.
pub(crate) fn fits_mission(known: Option<RunSizes>, line: &Line, sizes: Sizes) -> bool
    requires { IsInUse sizes }
    ensures { result ≡ fits_mission known (line_value sizes line.now) }
{
    let Some(known) = known else {
        return true;
    };
    match line {
        Line::Head { channels, cycles } => {
            *channels == known.sizes.channels && *cycles == known.cycles
        }
        Line::Channel(line) => {
            prove_lengths(line, sizes);
            sizes.width == known.sizes.width && sizes.outputs == known.sizes.outputs
        }
        _ => true,
    }
}

impl Reader {
    /// Before the first line.
    pub(crate) fn new(alloc: Global) -> Reader
        ensures { result ≡ at_first }
    {
        Reader {
            stage: Stage::Head,
            channels: 3,
            cycles: 0,
            sizes: None,
            told: Vec::new(alloc),
            last: begun(0, ChanSet::empty(), None, None, ChanSet::empty()),
            ending: End::Cut,
        }
    }

    /// Whether no line was told.
    pub(crate) fn is_at_head(&self) -> bool
        ensures { result ≡ is_story_head self.now.stage }
    {
        is_head(self.stage)
    }

    fn take_head(&mut self, channels: u8, cycles: u32) -> bool
        ensures fits { result ≡ suits_story self.old (head_told channels cycles) }
        ensures told { result ≡ true → self.new ≡ story_after self.old (head_told channels cycles) }
    {
        let fits = is_head(self.stage) && is_channel_count(channels) && is_cycle_count(cycles);
        if fits {
            self.stage = Stage::Between;
            self.channels = channels;
            self.cycles = cycles;
            self.sizes = None;
        }
        fits
    }

    fn take_cycle(&mut self, cycle: u32, active: ChanSet, transfer: Option<(ChanSet, u32)>) -> bool
        ensures fits { result ≡ suits_story self.old (cycle_told cycle active (transfer_of_pair transfer)) }
        ensures told { result ≡ true →
            self.new ≡ story_after self.old (cycle_told cycle active (transfer_of_pair transfer)) }
    {
        let fits = is_between(self.stage)
            && cycle as usize == self.told.len()
            && cycle < self.cycles;
        if fits {
            self.stage = Stage::Amid;
            let before = self.last.transfer;
            let arrived = self.last.joined;
            self.last = begun(cycle, active, transfer, before, arrived);
        }
        fits
    }

    fn has_sizes(&self, sizes: Sizes) -> bool
        requires { IsInUse sizes }
        ensures { result ≡ (sizes_fit self.now.sizes sizes.width sizes.outputs && sizes.channels == self.now.channels) }
    {
        sizes_fit(self.sizes, sizes) && sizes.channels == self.channels
    }

    /// Whether a channel's line has the sizes of the lines before, and is of a channel that comes next.
    fn fits_line(&self, line: &ChannelLine, sizes: Sizes) -> bool
        requires { IsInUse sizes }
        ensures value { result ≡ line_fits self.now (shown_line sizes.channels sizes.width sizes.outputs line.now) }
        ensures channels { result ≡ true → sizes.channels ≡ self.now.channels }
    {
        prove_lengths(line, sizes);
        self.has_sizes(sizes) && comes_next(&self.last, line.chan)
    }

    fn fits_channel(&self, line: &ChannelLine, sizes: Sizes) -> bool
        requires { IsInUse sizes }
        ensures value { result ≡ suits_story self.now
            (channel_told (shown_line sizes.channels sizes.width sizes.outputs line.now)) }
        ensures channels { result ≡ true → sizes.channels ≡ self.now.channels }
    {
        is_amid(self.stage) && self.fits_line(line, sizes)
    }

    fn take_channel(&mut self, line: &ChannelLine, sizes: Sizes) -> bool
        requires { IsInUse sizes }
        ensures fits { result ≡ suits_story self.old
            (channel_told (shown_line sizes.channels sizes.width sizes.outputs line.now)) }
        ensures told { result ≡ true →
            self.new ≡ story_after self.old
            (channel_told (shown_line sizes.channels sizes.width sizes.outputs line.now)) }
    {
        prove_lengths(line, sizes);
        let fits = self.fits_channel(line, sizes);
        if fits {
            self.sizes = Some(sizes);
            self.last = with_line(&self.last, line, sizes);
        }
        fits
    }

    fn take_end(
        &mut self,
        removed: ChanSet,
        joined: ChanSet,
        remaining: Option<u16>,
    ) -> Result<bool, AllocError>
        ensures fits { IfOk result (λ fits. fits ≡ suits_story self.old (end_told removed joined remaining)) }
        ensures told { IfOk result
            (λ fits. fits ≡ true → self.new ≡ story_after self.old (end_told removed joined remaining)) }
    {
        let fits = is_amid(self.stage) && is_block_count(remaining);
        if fits {
            self.stage = Stage::Ended;
            self.told
                .push(ended(&self.last, removed, joined, remaining))?;
            self.last = ended(&self.last, removed, joined, remaining);
        }
        Ok(fits)
    }

    fn take_out(&mut self, words: &[i64; 8], outputs: u8) -> bool
        requires { outputs ≤ 8 }
        ensures fits { result ≡ suits_story self.old (out_told (take outputs words.now)) }
        ensures told { result ≡ true → self.new ≡ story_after self.old (out_told (take outputs words.now)) }
    {
        let fits = is_ended(self.stage) && words_fit(self.sizes, words, outputs);
        if fits {
            self.stage = Stage::Between;
        }
        fits
    }

    fn take_done(&mut self, cycles: u32) -> bool
        ensures fits { result ≡ suits_story self.old (done_told cycles) }
        ensures told { result ≡ true → self.new ≡ story_after self.old (done_told cycles) }
    {
        let fits = is_between(self.stage)
            && cycles == self.cycles
            && self.told.len() == self.cycles as usize;
        if fits {
            self.stage = Stage::Over;
            self.ending = End::Done;
        }
        fits
    }

    /// Takes a stop, and answers whether it may come here.
    pub(crate) fn take_stop(
        &mut self,
        cycle: u32,
        slot: Slot,
        set: ChanSet,
        active: ChanSet,
    ) -> bool
        ensures fits { result ≡ suits_story self.old
            (stop_told (record { cycle = cycle; slot = slot; set = set; active = active })) }
        ensures told { result ≡ true →
            self.new ≡ story_after self.old
            (stop_told (record { cycle = cycle; slot = slot; set = set; active = active })) }
    {
        let fits = is_between(self.stage)
            && cycle as usize == self.told.len()
            && cycle < self.cycles;
        if fits {
            self.stage = Stage::Over;
            self.ending = End::Stop {
                cycle,
                slot,
                set,
                active,
            };
        }
        fits
    }

    /// Takes a line that has these sizes, and answers whether it may come here.
    pub(crate) fn take(&mut self, line: &Line, sizes: Sizes) -> Result<bool, AllocError>
        requires { IsInUse sizes }
        ensures fits { IfOk result (λ fits. fits ≡ suits_story self.old (line_value sizes line.now)) }
        ensures told { IfOk result (λ fits. fits ≡ true → self.new ≡ story_after self.old (line_value sizes line.now)) }
    {
        match line {
            Line::Head { channels, cycles } => Ok(self.take_head(*channels, *cycles)),
            Line::Cycle {
                cycle,
                active,
                transfer,
            } => Ok(self.take_cycle(*cycle, *active, *transfer)),
            Line::Channel(line) => Ok(self.take_channel(line, sizes)),
            Line::Steps(_) => Ok(is_amid(self.stage)),
            Line::End {
                removed,
                joined,
                remaining,
            } => self.take_end(*removed, *joined, *remaining),
            Line::Out { words } => Ok(self.take_out(words, sizes.outputs)),
            Line::Done { cycles } => Ok(self.take_done(*cycles)),
        }
    }
}
