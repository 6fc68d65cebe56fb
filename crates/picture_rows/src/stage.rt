//! Calls of the picture's program over a source and a sink in memory.
use guards_base::{Bytes, Numbers, Text, Words};
use guards_io::{MemSink, MemSource};
use picture_run::picture;
use std::alloc::{AllocError, Global};
use std::str::from_utf8;

const ROOM: usize = 1_048_576;

/// What a call is handed.
#[derive(Clone, Copy)]
pub struct Call<'a> {
    /// The words after the program's name, with spaces between them.
    pub words: &'a str,
    /// What the source gives.
    pub input: &'a str,
    /// How many bytes the source gives, and the sink takes, at once.
    pub step: usize,
    /// The calls of the source that fail, by their numbers from 0.
    pub failing_reads: &'a [u32],
    /// The calls of the sink that fail.
    pub failing_writes: &'a [u32],
}

/// What came of a call.
#[derive(Drop)]
pub struct Ended {
    pub status: u8,
    /// What the sink took.
    pub text: String,
}

impl Ended {
    /// Whether the call ended with this status, and the sink took this.
    pub fn is(&self, status: u8, text: &str) -> bool {
        self.status == status && self.text.as_str() == text
    }
}

/// A mission and its report as one input.
pub fn stream(alloc: Global, mission: &str, report: &str) -> Result<String, AllocError> {
    format!(in alloc; "{mission}--- trace\n{report}")
}

/// A call with no words over a source that gives all at once and a sink that takes all at once.
pub fn smooth<'a>(input: &'a str) -> Call<'a> {
    Call {
        words: "",
        input,
        step: ROOM,
        failing_reads: &[],
        failing_writes: &[],
    }
}

fn words_of(alloc: Global, line: &str) -> Result<Words, AllocError> {
    let mut words = Words::new(alloc);
    for word in line.split_whitespace() {
        words.push(Text::from_str(alloc, word)?)?;
    }
    Ok(words)
}

/// Makes a call of the program.
pub fn drawn(alloc: Global, call: &Call) -> Result<Ended, AllocError> {
    let words = words_of(alloc, call.words)?;
    let bytes = Bytes::from_slice(alloc, call.input.as_bytes())?;
    let failing_reads = Numbers::from_slice(alloc, call.failing_reads)?;
    let failing_writes = Numbers::from_slice(alloc, call.failing_writes)?;
    let mut src = MemSource::new(bytes, call.step.max(1), failing_reads);
    let mut out = MemSink::new(alloc, ROOM, call.step.max(1), failing_writes)?;
    let status = picture(alloc, &words, &mut src, &mut out).code();
    let text = from_utf8(out.bytes()).unwrap_or("bytes that are no text");
    Ok(Ended {
        status,
        text: String::from_str(alloc, text)?,
    })
}
