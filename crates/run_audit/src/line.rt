//! Lines of a trace, read from their letters.
ghost use Rattle.std.specs.Prelude.{◌≡◌, ◌≤◌, true, ℕ, ℤ, List, take, ◌∷◌, Option, IfOk};
ghost use Rattle.std.specs.List.{join_with_byte};
ghost use Rattle.guards_model.specs.Channels.{ChannelSet};
ghost use Rattle.guards_model.specs.Records.{transfer_of_pair};
ghost use Rattle.guards_model.specs.Texts.{TextValue, LineValue, TraceValue, head_line, out_line, done_line};
ghost use Rattle.guards_model.specs.Transfers.{TransferValue};
ghost use Rattle.guards_audit.specs.Lines.{ReportLine, head_told, cycle_told, channel_told, steps_told, end_told, out_told, done_told, opened_record, closed_record, line_spelling};
ghost use Rattle.run_audit.specs.Pieces.{lacks};
ghost use Rattle.run_audit.specs.Values.{IsInUse, IsReadAs, IsReadFrom, Reads, fields, first_word, is_formed, line_value};

use crate::pieces::{
    channel, counts, inputs, number, piece, remaining, set, small_number, steps, transfer, votes,
    words,
};
use guards_base::{ChanSet, ChannelLine, CycleRecord, Lines, Text, TraceLine, Traces};
use report_text::{channel_line, cycle_line, end_line, head, trace_line, write_end, write_out};
use std::alloc::{AllocError, Global};
use std::str;

/// How many channels, inputs and outputs a mission's lines have.
#[derive(Clone, Copy)]
pub struct Sizes {
    pub channels: u8,
    pub width: u8,
    pub outputs: u8,
}

/// What a line says.
#[derive(Drop)]
pub enum Line {
    Head {
        channels: u8,
        cycles: u32,
    },
    Cycle {
        cycle: u32,
        active: ChanSet,
        transfer: Option<(ChanSet, u32)>,
    },
    Channel(ChannelLine),
    Steps(TraceLine),
    End {
        removed: ChanSet,
        joined: ChanSet,
        remaining: Option<u16>,
    },
    Out {
        words: [i64; 8],
    },
    Done {
        cycles: u32,
    },
}

/// The field after a label, and what follows it.
fn labelled<'a>(text: &'a str) -> (&'a str, &'a str)
    ensures { (label first : TextValue) (rest : List TextValue) → lacks 32 label ≡ true → lacks 32 first ≡ true →
        text.now ≡ join_with_byte 32 (label ∷ first ∷ rest) →
        (result.0.now ≡ first) × (result.1.now ≡ join_with_byte 32 rest) }
{
    let (_label, rest) = piece(text, ' ');
    piece(rest, ' ')
}

fn head_in(text: &str) -> Option<Line>
    ensures read { (s : Sizes) (channels cycles : ℕ) → IsReadAs s text.now result (head_told channels cycles) }
    ensures formed { (s : Sizes) → is_formed s result ≡ true }
{
    let (channels, rest) = labelled(text);
    let (cycles, _rest) = labelled(rest);
    Some(Line::Head {
        channels: small_number(channels),
        cycles: number(cycles),
    })
}

fn cycle_in(text: &str) -> Option<Line>
    ensures read { (s : Sizes) (c : ℕ) (active : ChannelSet) (running : Option TransferValue) →
        IsReadAs s text.now result (cycle_told c active running) }
    ensures formed { (s : Sizes) → is_formed s result ≡ true }
{
    let (cycle, rest) = piece(text, ' ');
    let (active, rest) = labelled(rest);
    let (running, _rest) = labelled(rest);
    Some(Line::Cycle {
        cycle: number(cycle),
        active: set(active),
        transfer: transfer(running),
    })
}

fn channel_in(text: &str, sizes: Sizes) -> Option<Line>
    requires { IsInUse sizes }
    ensures read { (l : LineValue) → IsReadAs sizes text.now result (channel_told l) }
    ensures formed { is_formed sizes result ≡ true }
{
    let (chan, rest) = piece(text, ' ');
    let (words, rest) = labelled(rest);
    let (cast, rest) = labelled(rest);
    let (judged, rest) = labelled(rest);
    let (alphas, _rest) = labelled(rest);
    let Some(chan) = channel(chan) else {
        return None;
    };
    let _below = chan.index();
    Some(Line::Channel(ChannelLine {
        chan,
        inputs: inputs(words, sizes.width),
        votes: votes(cast, sizes.outputs),
        judged: set(judged),
        alphas: counts(alphas, sizes.channels),
    }))
}

fn steps_in(alloc: Global, text: &str) -> Result<Option<Line>, AllocError>
    ensures read { IfOk result (λ read. (s : Sizes) (t : TraceValue) → IsReadAs s text.now read (steps_told t)) }
    ensures formed { IfOk result (λ read. (s : Sizes) → is_formed s read ≡ true) }
{
    let (chan, rest) = piece(text, ' ');
    let (letters, _rest) = piece(rest, ' ');
    let Some(chan) = channel(chan) else {
        return Ok(None);
    };
    let steps = steps(alloc, letters)?;
    Ok(Some(Line::Steps(TraceLine { chan, steps })))
}

fn end_in(text: &str) -> Option<Line>
    ensures read { (s : Sizes) (removed joined : ChannelSet) (left : Option ℕ) →
        IsReadAs s text.now result (end_told removed joined left) }
    ensures formed { (s : Sizes) → is_formed s result ≡ true }
{
    let (removed, rest) = labelled(text);
    let (joined, rest) = labelled(rest);
    let (left, _rest) = labelled(rest);
    Some(Line::End {
        removed: set(removed),
        joined: set(joined),
        remaining: remaining(left),
    })
}

fn out_in(text: &str, sizes: Sizes) -> Option<Line>
    requires { IsInUse sizes }
    ensures read { (ws : List ℤ) → IsReadAs sizes text.now result (out_told ws) }
    ensures formed { is_formed sizes result ≡ true }
{
    let (listed, _rest) = piece(text, ' ');
    Some(Line::Out {
        words: words(listed, sizes.outputs),
    })
}

fn done_in(text: &str) -> Option<Line>
    ensures read { (s : Sizes) (cycles : ℕ) → IsReadAs s text.now result (done_told cycles) }
    ensures formed { (s : Sizes) → is_formed s result ≡ true }
{
    let (cycles, _rest) = piece(text, ' ');
    Some(Line::Done {
        cycles: number(cycles),
    })
}

/// The line of a text without its line end, by its first word.
fn line_in(alloc: Global, text: &str, sizes: Sizes) -> Result<Option<Line>, AllocError>
    requires { IsInUse sizes }
    ensures read { IfOk result (λ read. (line : ReportLine) →
        IsReadFrom sizes (first_word line ∷ fields line) text.now line read) }
    ensures formed { IfOk result (λ read. is_formed sizes read ≡ true) }
{
    let (word, rest) = piece(text, ' ');
    match word {
        "guards" => Ok(head_in(rest)),
        "cycle" => Ok(cycle_in(rest)),
        "ch" => Ok(channel_in(rest, sizes)),
        "trace" => steps_in(alloc, rest),
        "end" => Ok(end_in(rest)),
        "out" => Ok(out_in(rest, sizes)),
        "done" => Ok(done_in(rest)),
        _ => Ok(None),
    }
}

/// A record with the first or the last line alone.
fn record(
    alloc: Global,
    cycle: u32,
    active: ChanSet,
    transfer: Option<(ChanSet, u32)>,
    removed: ChanSet,
    joined: ChanSet,
    remaining: Option<u16>,
) -> CycleRecord
    ensures { result ≡ closed_record (opened_record cycle active (transfer_of_pair transfer)) removed joined remaining }
{
    CycleRecord {
        cycle,
        active,
        transfer,
        lines: Lines::new(alloc),
        traces: Traces::new(alloc),
        removed,
        joined,
        remaining,
    }
}

fn head_text(alloc: Global, channels: u8, cycles: u32) -> Result<Text, AllocError>
    ensures { IfOk result (λ text. text ≡ head_line channels cycles) }
{
    let mut text = Text::new(alloc);
    head(alloc, &mut text, channels, cycles)?;
    Ok(text)
}

fn done_text(alloc: Global, cycles: u32) -> Result<Text, AllocError>
    ensures { IfOk result (λ text. text ≡ done_line cycles) }
{
    let mut text = Text::new(alloc);
    write_end(alloc, &mut text, cycles)?;
    Ok(text)
}

fn cycle_text(
    alloc: Global,
    cycle: u32,
    active: ChanSet,
    transfer: Option<(ChanSet, u32)>,
) -> Result<Text, AllocError>
    ensures { IfOk result (λ text. text ≡ line_spelling (cycle_told cycle active (transfer_of_pair transfer))) }
{
    let none = ChanSet::empty();
    let part = record(alloc, cycle, active, transfer, none, none, None);
    Ok(Text::from_string(cycle_line(alloc, &part)?))
}

fn end_text(
    alloc: Global,
    removed: ChanSet,
    joined: ChanSet,
    remaining: Option<u16>,
) -> Result<Text, AllocError>
    ensures { IfOk result (λ text. text ≡ line_spelling (end_told removed joined remaining)) }
{
    let none = ChanSet::empty();
    let part = record(alloc, 0, none, None, removed, joined, remaining);
    Ok(Text::from_string(end_line(alloc, &part)?))
}

fn out_text(alloc: Global, words: &[i64; 8], outputs: u8) -> Result<Text, AllocError>
    requires { outputs ≤ 8 }
    ensures { IfOk result (λ text. text ≡ out_line (take outputs words.now)) }
{
    let mut text = Text::new(alloc);
    write_out(alloc, &mut text, words, outputs)?;
    Ok(text)
}

/// The one spelling of a line.
fn spelling(alloc: Global, line: &Line, sizes: Sizes) -> Result<Text, AllocError>
    requires { IsInUse sizes }
    ensures { IfOk result (λ text. text ≡ line_spelling (line_value sizes line.now)) }
{
    match line {
        Line::Head { channels, cycles } => head_text(alloc, *channels, *cycles),
        Line::Cycle {
            cycle,
            active,
            transfer,
        } => cycle_text(alloc, *cycle, *active, *transfer),
        Line::Channel(line) => Ok(Text::from_string(channel_line(
            alloc,
            line,
            sizes.channels,
            sizes.width,
            sizes.outputs,
        )?)),
        Line::Steps(trace) => Ok(Text::from_string(trace_line(alloc, trace)?)),
        Line::End {
            removed,
            joined,
            remaining,
        } => { end_text(alloc, *removed, *joined, *remaining) }
        Line::Out { words } => out_text(alloc, words, sizes.outputs),
        Line::Done { cycles } => done_text(alloc, *cycles),
    }
}

/// The line that a text spells, with its line end.
pub fn read_line(alloc: Global, bytes: &[u8], sizes: Sizes) -> Result<Option<Line>, AllocError>
    requires { IsInUse sizes }
    ensures { IfOk result (Reads sizes bytes.now) }
{
    let Ok(text) = str::from_utf8(bytes) else {
        return Ok(None);
    };
    let Some(body) = text.strip_suffix('\n') else {
        return Ok(None);
    };
    let Some(line) = line_in(alloc, body, sizes)? else {
        return Ok(None);
    };
    let spelled = spelling(alloc, &line, sizes)?;
    if spelled.as_str() == text {
        return Ok(Some(line));
    }
    Ok(None)
}
