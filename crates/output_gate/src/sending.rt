//! What the channels' lines send to the actuator.
ghost use Rattle.std.specs.Prelude.{◌≡◌, ◌≤◌, ◌<◌, [], ◌∷◌, not, true, pos, IsTrue, map, replicate, unwrap_or, slice_set, IfOk, OnErr, option_map, if◌then◌else◌};
ghost use Rattle.std.specs.List.{list_all};
ghost use Rattle.guards_model.specs.Channels.{channels_where, has, union};
ghost use Rattle.guards_model.specs.Frames.{between, in_range, words_in_range};
ghost use Rattle.guards_model.specs.Words.{is_word};
ghost use Rattle.guards_runs.specs.Disturbed.{differs_from};
ghost use Rattle.guards_model.specs.Actuators.{ballot_counting, ballot_spelled, of_count, output_frame};
ghost use Rattle.output_gate.specs.Sending.{AreFewSent, HasSentLine, HasTaken, line_words, TakenValue};

use guards_base::{Ballot, Bytes, Chan, ChanSet, ChannelLine, Slot};
use icn_bus::Bus;
use icn_frames::{Body, Frame, decode, encode};
use std::alloc::{AllocError, Global};
use std::marker::Model;

/// The address of the actuator.
const ACTUATOR: u8 = 8;

// Each i64 is a word.
fn is_a_word(word: i64)
    ensures { is_word word ≡ true }
{}

fn words_are_words(words: &[i64])
    ensures { list_all is_word words.now ≡ true }
{
    match words {
        [] => {}
        [word, rest @ ..] => {
            is_a_word(*word);
            words_are_words(rest);
        }
    }
}

// Each ballot of the type has words in range.
fn is_a_ballot(ballot: &Ballot)
    ensures { words_in_range 1 8 ballot.now ≡ true }
{
    let _count = ballot.count;
    words_are_words(ballot.in_use());
}

// A vote frame.
fn frame_of(version: u8, sender: Chan, cycle: u32, ballot: Ballot) -> Frame
    requires { IsTrue (between 1 2 version) }
    ensures value { result ≡ output_frame version cycle sender ballot }
    ensures range { IsTrue (in_range result) }
{
    is_a_ballot(&ballot);
    let _number = sender.index();
    Frame {
        version,
        sender,
        cycle,
        body: Body::Vote(ballot),
    }
}

// A vote, 0 where there is none.
fn vote_or_zero(vote: Option<i64>) -> i64
    ensures { result ≡ unwrap_or vote (pos 0) }
{
    vote.unwrap_or(0)
}

// The votes, 0 where there is none.
fn votes_or_zeros(votes: &[Option<i64>; 8]) -> [i64; 8]
    ensures { result ≡ map (λ v. unwrap_or v (pos 0)) votes.now }
{
    let mut words = [0; 8];
    for place in 0..8usize {
        words[place] = vote_or_zero(votes[place]);
    }
    words
}

// The words of a line's votes, 0 where there is none.
fn words_of(line: &ChannelLine, outputs: u8) -> Ballot
    requires least { 1 ≤ outputs }
    requires most { outputs ≤ 8 }
    ensures { result ≡ line_words outputs line.now }
{
    let words = votes_or_zeros(&line.votes);
    Ballot::of(&words[..usize::from(outputs)])
}

// A ballot that has so many words.
fn of_count(ballot: Ballot, outputs: u8) -> Option<Ballot>
    ensures { result ≡ of_count outputs ballot }
{
    if ballot.in_use().len() == usize::from(outputs) {
        Some(ballot)
    } else {
        None
    }
}

// The ballot of a frame, where it counts.
fn ballot_counting(
    version: u8,
    outputs: u8,
    cycle: u32,
    from: Chan,
    frame: &Frame,
) -> Option<Ballot>
    ensures { result ≡ ballot_counting version outputs cycle from frame.now }
{
    if frame.version == version && frame.sender.index() == from.index() && frame.cycle == cycle {
        match &frame.body {
            Body::Vote(ballot) => of_count(*ballot, outputs),
            Body::Request(_)
            | Body::Exchange(_)
            | Body::Sweep(_)
            | Body::Final(_)
            | Body::Switch(_) => None,
        }
    } else {
        None
    }
}

// The ballot that a piece spells, where it counts.
fn ballot_spelled(
    alloc: Global,
    version: u8,
    outputs: u8,
    cycle: u32,
    from: Chan,
    piece: &Option<Bytes>,
) -> Result<Option<Ballot>, AllocError>
    ensures { IfOk result (λ ballot. ballot
        ≡ ballot_spelled version outputs cycle from (option_map (λ bytes. bytes.items) piece.now)) }
{
    match piece {
        None => Ok(None),
        Some(bytes) => match decode(alloc, bytes.as_slice())? {
            None => Ok(None),
            Some(frame) => Ok(ballot_counting(version, outputs, cycle, from, &frame)),
        },
    }
}

// Whether a piece was delivered as sent.
fn is_as_sent(sent: &[u8], piece: &Option<Bytes>) -> bool
    ensures { result ≡ not (differs_from sent.now (option_map (λ bytes. bytes.items) piece.now)) }
{
    match piece {
        None => false,
        Some(bytes) => sent == bytes.as_slice(),
    }
}

// What came of a line's frame.
#[derive(Drop)]
struct Sending {
    as_sent: bool,
    ballot: Option<Ballot>,
}

// Carries the frame of a line.
fn send_line<B: Bus>(
    alloc: Global,
    bus: &mut B,
    version: u8,
    outputs: u8,
    cycle: u32,
    line: &ChannelLine,
) -> Result<Sending, AllocError>
    requires known { IsTrue (between 1 2 version) }
    requires least { 1 ≤ outputs }
    requires most { outputs ≤ 8 }
    ensures script { (B.seen bus.new).script ≡ (B.seen bus.old).script }
    ensures sent { IfOk result
        (λ sending. HasSentLine B.may (B.seen bus.old).script (B.seen bus.old).log (B.seen bus.new).log
        version outputs cycle line.now sending.as_sent sending.ballot) }
    ensures some { OnErr result (AreFewSent B.may (B.seen bus.old).script (B.seen bus.old).log (B.seen bus.new).log
        version outputs cycle (line.now ∷ [])) }
{
    let frame = frame_of(version, line.chan, cycle, words_of(line, outputs));
    let sent = encode(alloc, &frame)?;
    let piece = bus.carry(cycle, Slot::Output, line.chan, ACTUATOR, sent.as_slice())?;
    let ballot = ballot_spelled(alloc, version, outputs, cycle, line.chan, &piece)?;
    Ok(Sending {
        as_sent: is_as_sent(sent.as_slice(), &piece),
        ballot,
    })
}

// What the actuator takes: a ballot of each channel, if it counts, and who is disturbed.
#[derive(Drop)]
pub(crate) struct Taken {
    pub(crate) frames: [Option<Ballot>; 7],
    pub(crate) disturbed: ChanSet,
}

impl Model for Taken {
    ghost use Rattle.output_gate.specs.Sending.{TakenValue};

    ghost Value = { TakenValue };

    ghost view = { λ taken. record { frames = taken.frames; disturbed = taken.disturbed } };
}

impl Taken {
    // Nothing of anyone.
    fn none(disturbed: ChanSet) -> Taken
        ensures value { result ≡ record { frames = replicate 7 None; disturbed = disturbed } }
        ensures set { disturbed ≡ channels_where (has disturbed) }
    {
        let _members = disturbed.flags();
        Taken {
            frames: [None; 7],
            disturbed,
        }
    }

    // With what came of a channel's frame.
    fn with(mut self, from: Chan, sending: Sending) -> Taken
        ensures low { from < 7 }
        ensures value { result ≡ record {
          frames = slice_set self.frames from sending.ballot;
          disturbed = (if sending.as_sent then self.disturbed else union self.disturbed (from ∷ []));
        } }
    {
        self.frames[usize::from(from.index())] = sending.ballot;
        if !sending.as_sent {
            self.disturbed = self.disturbed.with(from);
        }
        self
    }
}

// Carries the frames of lines, in order, and takes what comes of them beside those that are disturbed.
pub(crate) fn send_lines<B: Bus>(
    alloc: Global,
    bus: &mut B,
    version: u8,
    outputs: u8,
    cycle: u32,
    disturbed: ChanSet,
    lines: &[ChannelLine],
) -> Result<Taken, AllocError>
    requires known { IsTrue (between 1 2 version) }
    requires least { 1 ≤ outputs }
    requires most { outputs ≤ 8 }
    ensures script { (B.seen bus.new).script ≡ (B.seen bus.old).script }
    ensures sent { IfOk result (HasTaken B.may (B.seen bus.old).script (B.seen bus.old).log (B.seen bus.new).log
        version outputs cycle disturbed lines.now) }
    ensures some { OnErr result (AreFewSent B.may (B.seen bus.old).script (B.seen bus.old).log (B.seen bus.new).log
        version outputs cycle lines.now) }
{
    let Some((line, rest)) = lines.split_first() else {
        return Ok(Taken::none(disturbed));
    };
    let sending = send_line(alloc, bus, version, outputs, cycle, line)?;
    let others = send_lines(alloc, bus, version, outputs, cycle, disturbed, rest)?;
    Ok(others.with(line.chan, sending))
}
