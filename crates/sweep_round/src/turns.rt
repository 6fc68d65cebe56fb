//! A round, step by step.
ghost use Rattle.std.specs.Prelude.{◌≡◌, ◌+◌, ◌^◌, ◌<◌, ◌≤◌, [], ◌∷◌, ◌++◌, length, map, All, MatchBool, IfOk, IfErr};
ghost use Rattle.guards_model.specs.declared.Actor.TheVariants.{Task, Sweep};
ghost use Rattle.guards_model.specs.Records.{step_number};
ghost use Rattle.ctx_lock.specs.History.{times};
ghost use Rattle.task_table.specs.Tables.{table_writes};
ghost use Rattle.sweep_round.specs.Replay.{origin_of, actors_of, IsReplay, AreMade};

use crate::ending::Finishing;
use crate::start::RoundStart;
use crate::trail::{Finished, Trail};
use context_blocks::Context;
use ctx_lock::{Actor, Turned};
use dirty_tags::Plan;
use frame_pipe::Feed;
use guards_base::{Bytes, Refused};
use icn_frames::BlockCopy;
use native_calls::Calls;
use std::alloc::Global;
use task_table::Table;

/// A round under way. It has all the memory that its steps need.
#[derive(Drop)]
pub struct Round<'a, C: Calls> {
    context: Context,
    start: Context,
    table: &'a Table,
    natives: &'a C,
    cycle: u32,
    inputs: [i64; 4],
    plan: Plan,
    feed: Feed,
    history: Bytes,
    // How many writes there are, and how many writes and copies were made.
    due: usize,
    writes: usize,
    copies: usize,
    ghost due_is: { (due ≡ length (table_writes table.now cycle)) × (due ≤ 256) },
    ghost few: { (length (table_writes table.now cycle) < 2 ^ 32) × (length plan < 2 ^ 32) },
    ghost replay: { IsReplay (origin_of start table.now cycle inputs plan) (actors_of history.items) context
        feed.producer.end.past },
    ghost made: { AreMade (origin_of start table.now cycle inputs plan) (actors_of history.items) writes copies },
    ghost numbers: { history.items ≡ map step_number (actors_of history.items) },
    ghost steps: { length history.items ≡ writes + copies },
    ghost room: { due + length plan ≤ length history.items + history.spare },
    ghost blocks: { (length context ≡ table.now.blocks) × (length start ≡ table.now.blocks)
        × All (λ b. b < table.now.blocks) plan },
    ghost pipe: { (copies ≡ length feed.producer.end.past) × (length plan ≤ feed.producer.capacity) },
}

impl<'a, C: Calls> Round<'a, C> {
    ghost use Rattle.frame_pipe.specs.Pipes.{feed_name, sent, capacity};
    ghost use Rattle.sweep_round.specs.Rounds.{start_origin, due_steps, round_start, round_history, IsReplayed};

    /// A round of which no step was made. It keeps a copy of the context, to give it back. For want of memory the
    /// context comes back as it was.
    pub fn begin(
        alloc: Global,
        ctx: Context,
        table: &'a Table,
        natives: &'a C,
        cycle: u32,
        inputs: [i64; 4],
        plan: Plan,
        feed: Feed,
    ) -> Result<Round<'a, C>, Refused<Context>>
        requires blocks { length ctx ≡ table.now.blocks }
        requires planned { All (λ b. b < length ctx) plan }
        requires fresh { sent feed ≡ [] }
        requires room { length plan ≤ capacity feed }
        ensures start { IfOk result
            (λ r. round_start r ≡ record {
              context = ctx;
              table = table.now;
              cycle = cycle;
              inputs = inputs;
              plan = plan;
              pipe = feed_name feed;
            }) }
        ensures empty { IfOk result (λ r. round_history r ≡ []) }
        ensures refused { IfErr result (λ e. e.value ≡ ctx) }
    {
        let due = table.steps(cycle);
        let mut history = Bytes::new(alloc);
        let reserved = history.reserve(due + plan.len());
        let copied = ctx.copy(alloc);
        match (reserved, copied) {
            (Ok(()), Ok(start)) => Ok(Round {
                context: ctx,
                start,
                table,
                natives,
                cycle,
                inputs,
                plan,
                feed,
                history,
                due,
                writes: 0,
                copies: 0,
            }),
            _ => Err(Refused { value: ctx }),
        }
    }

    /// Does the next write, and appends it to the history. It answers false exactly where no write is left, and then
    /// nothing changes. It takes no memory.
    pub fn write_step(&mut self) -> bool
        ensures start { round_start self.new ≡ round_start self.old }
        ensures replay { IsReplayed self.new }
        ensures stepped { MatchBool result
            ((round_history self.new ≡ round_history self.old ++ Task ∷ [])
            × (times Task (round_history self.old) < due_steps (round_start self.old) Task))
            ((self.new ≡ self.old) × (due_steps (round_start self.old) Task ≤ times Task (round_history self.old))) }
    {
        if self.writes >= self.due {
            return false;
        }
        self.table.apply_write(
            self.cycle,
            self.writes,
            &mut self.context,
            &self.inputs,
            self.natives,
        );
        self.writes += 1;
        self.history.push_reserved(0);
        true
    }

    /// Puts a copy of the next planned block into the pipe, from the context as it stands, and appends it to the
    /// history. It answers false exactly where no copy is left, and then nothing changes. It takes no memory.
    pub fn sweep_step(&mut self) -> bool
        ensures start { round_start self.new ≡ round_start self.old }
        ensures replay { IsReplayed self.new }
        ensures stepped { MatchBool result
            ((round_history self.new ≡ round_history self.old ++ Sweep ∷ [])
            × (times Sweep (round_history self.old) < due_steps (round_start self.old) Sweep))
            ((self.new ≡ self.old) × (due_steps (round_start self.old) Sweep ≤ times Sweep (round_history self.old))) }
    {
        if self.copies >= self.plan.len() {
            return false;
        }
        let block = self.plan.get(self.copies);
        let words = self.context.get(block);
        self.feed.put(BlockCopy { block, words });
        self.copies += 1;
        self.history.push_reserved(1);
        true
    }

    // The context that the round started from, the one that its steps made, the feed and the steps.
    fn into_parts(self) -> (Context, Context, Feed, Bytes)
        ensures opening { result.0 ≡ self.entry.start }
        ensures last { result.1 ≡ self.entry.context }
        ensures feed { result.2 ≡ self.entry.feed }
        ensures steps { result.3 ≡ self.entry.history }
    {
        let Round {
            context,
            start,
            table: _,
            natives: _,
            cycle: _,
            inputs: _,
            plan: _,
            feed,
            history,
            due: _,
            writes: _,
            copies: _,
        } = self;
        (start, context, feed, history)
    }

    /// The context that the round started from. It takes no memory.
    pub fn give_up(self) -> Context
        ensures { result ≡ (round_start self.entry).context }
    {
        let (opening, _, _, _) = self.into_parts();
        opening
    }
}

impl<'a, C: Calls + Sync> Turned for Round<'a, C> {
    ghost use Rattle.sweep_round.specs.Rounds.{due_steps, round_start, round_history};

    type Origin = RoundStart;

    ghost origin = { round_start };

    ghost history = { round_history };

    ghost due = { due_steps };

    fn step(&mut self, actor: Actor) -> bool {
        match actor {
            Actor::Task => self.write_step(),
            Actor::Sweep => self.sweep_step(),
        }
    }

    ghost few = { λ r. elim [ Task ↦ r.few.0 | Sweep ↦ r.few.1 ] };
}

impl<'a, C: Calls + Sync> Finishing for Round<'a, C> {
    ghost use Rattle.sweep_round.specs.Rounds.{round_start, round_history};
    ghost use Rattle.sweep_round.specs.Endings.{IsFinished};

    ghost finished = { λ r f. IsFinished (round_start r) (round_history r) f };

    ghost opening = { λ r. (round_start r).context };

    fn finish(self) -> Finished {
        let cycle = self.cycle;
        let (_, last, feed, steps) = self.into_parts();
        Finished {
            context: last,
            feed,
            history: Trail { cycle, steps },
        }
    }

    fn hand_back(self) -> Context {
        self.give_up()
    }
}
