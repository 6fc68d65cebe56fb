//! The gate: the actuator's words, and how they move.
ghost use Rattle.std.specs.Prelude.{◌≡◌, ◌≤◌, ◌-◌, ◌++◌, ◌≤ℤ◌, pos, take, length, replicate, is_some};
ghost use Rattle.guards_model.specs.Channels.{channels_where, place_or};
ghost use Rattle.guards_model.specs.Contexts.{word_of};
ghost use Rattle.guards_base.specs.Padding.{padded};
ghost use Rattle.guards_model.specs.Actuators.{moved, words_moved, AreForward};
ghost use Rattle.output_gate.specs.Gates.{moved_towards};

use crate::limiter::Limit;
use guards_base::{Ballot, Chan, ChanSet, set_by};
use std::marker::Model;
use voter::vote;

/// The words of an actuator, with a step for each.
#[derive(Debug, Drop)]
pub struct OutputGate {
    steps: [i64; 8],
    pub(crate) words: Ballot,
}

impl Model for OutputGate {
    ghost use Rattle.std.specs.Prelude.{take, length};
    ghost use Rattle.guards_model.specs.Actuators.{AreForward};
    ghost use Rattle.output_gate.specs.Gates.{GateValue};

    ghost Value = { GateValue };

    ghost view = { λ g. record { steps = take (length g.words) g.steps; words = g.words } };

    ghost invariant = { λ g. AreForward g.steps };
}

// A word after a move towards the wanted one, if there is one.
fn moved<Q: Limit>(limit: &Q, step: i64, last: i64, wanted: Option<i64>) -> i64
    requires { pos 0 ≤ℤ step }
    ensures { result ≡ moved step last wanted }
{
    match wanted {
        None => last,
        Some(wanted) => limit.limit(last, wanted, step),
    }
}

// The word at a place, or 0 past the end.
fn word_at(words: &[i64], place: usize) -> i64
    ensures { result ≡ word_of words.now place }
{
    words.get(place).copied().unwrap_or(0)
}

// The words after a move, and 0 past them.
fn moved_words<Q: Limit>(
    limit: &Q,
    outputs: u8,
    steps: &[i64; 8],
    last: &[i64],
    wanted: &[Option<i64>; 8],
) -> [i64; 8]
    requires few { outputs ≤ 8 }
    requires forward { AreForward steps.now }
    ensures { result ≡ moved_towards steps.now last.now wanted.now outputs ++ replicate (8 - outputs) (pos 0) }
{
    let mut words = [0; 8];
    for place in 0..usize::from(outputs) {
        words[place] = moved(
            limit,
            word_at(steps, place),
            word_at(last, place),
            wanted[place],
        );
    }
    words
}

// The channels whose ballots are there.
fn there(frames: &[Option<Ballot>; 7]) -> ChanSet
    ensures { result ≡ channels_where (λ q. is_some (place_or frames.now q None)) }
{
    set_by(
        |c: Chan| -> bool
            ensures { result ≡ is_some (place_or frames.entry.now c None) }
        { frames[usize::from(c.index())].is_some() },
    )
}

// The number of words of a ballot.
pub(crate) fn count_of(ballot: &Ballot) -> u8
    ensures value { result ≡ length ballot.now }
    ensures least { 1 ≤ result }
    ensures most { result ≤ 8 }
{
    ballot.count
}

// The words of an actuator after a move.
fn next_words<Q: Limit>(
    limit: &Q,
    steps: &[i64; 8],
    words: &Ballot,
    frames: &[Option<Ballot>; 7],
) -> Ballot
    requires { AreForward steps.now }
    ensures value { result ≡ words_moved (take (length words.now) steps.now) words.now frames.now }
    ensures same { length result ≡ length words.now }
{
    let outputs = count_of(words);
    let wanted = vote(frames, there(frames), outputs);
    let next = moved_words(limit, outputs, steps, words.in_use(), &wanted);
    Ballot::of(&next[..usize::from(outputs)])
}

impl OutputGate {
    /// A gate of so many outputs, with a step and a first word for each.
    pub fn new(outputs: u8, steps: [i64; 8], start: [i64; 8]) -> OutputGate
        requires least { 1 ≤ outputs }
        requires most { outputs ≤ 8 }
        requires forward { AreForward steps }
        ensures { result ≡ record { steps = take outputs steps; words = take outputs start } }
    {
        OutputGate {
            steps,
            words: Ballot::of(&start[..usize::from(outputs)]),
        }
    }

    /// The words. Places past the outputs are 0.
    pub fn words(&self) -> [i64; 8]
        ensures { result ≡ padded 8 self.now.words }
    {
        self.words.words
    }

    /// Moves each word by the limiter towards the word that strictly more than half of the ballots that are there hold
    /// in its place. Where there is none, it stays.
    pub fn apply<Q: Limit>(&mut self, frames: &[Option<Ballot>; 7], limit: &Q)
        ensures { self.new ≡ record self.old { words = words_moved self.old.steps self.old.words frames.now } }
    {
        self.words = next_words(limit, &self.steps, &self.words, frames);
    }
}
