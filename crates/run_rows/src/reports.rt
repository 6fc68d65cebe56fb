//! How the program tells a worked mission.
use crate::stage::Ended;
use icn_bus::Entry;
use std::alloc::{AllocError, Global};
use worked_missions::Row;

// What stands behind a key at the head of a line.
fn value_of<'a>(mission: &'a str, key: &str) -> &'a str {
    for line in mission.lines() {
        let (word, value) = line.split_once(" = ").unwrap_or(("", ""));
        if word == key {
            return value;
        }
    }
    ""
}

// What is told around the cycles of a run, and its status.
#[derive(Drop)]
struct Frame {
    head: String,
    last: String,
    status: u8,
}

// A run that stops has no last line of its own.
fn frame_of(alloc: Global, row: &Row, mission: &str) -> Result<Frame, AllocError> {
    let channels = value_of(mission, "channels");
    let cycles = value_of(mission, "cycles");
    let head = format!(in alloc; "guards channels {channels} cycles {cycles}\n")?;
    let done = row.done;
    let is_done = format!(in alloc; "{done}")?.as_str() == cycles;
    let (last, status) = if is_done {
        (format!(in alloc; "done {done}\n")?, 0)
    } else {
        (String::new(alloc), 7)
    };
    Ok(Frame { head, last, status })
}

// What is told between the first line and the last one.
fn within<'a>(frame: &Frame, text: &'a str) -> Option<&'a str> {
    text.strip_prefix(frame.head.as_str())?
        .strip_suffix(frame.last.as_str())
}

// Whether the text is the head line, the cycles of the row, and the last line.
fn is_told(alloc: Global, row: &Row, frame: &Frame, text: &str) -> Result<bool, AllocError> {
    match within(frame, text) {
        Some(cycles) => row.is_told(alloc, cycles),
        None => Ok(false),
    }
}

/// What came of a run of the row's mission that is not as the row says.
pub fn mistake(
    alloc: Global,
    row: &Row,
    mission: &str,
    ended: &Ended,
    log: &[Entry],
) -> Result<Option<&'static str>, AllocError> {
    let frame = frame_of(alloc, row, mission)?;
    if ended.status != frame.status {
        return Ok(Some("the status"));
    }
    if !is_told(alloc, row, &frame, ended.text.as_str())? {
        return Ok(Some("the text"));
    }
    if ended.entries as u64 != row.carried {
        return Ok(Some("the entries that were carried"));
    }
    if !row.has_votes(log) {
        return Ok(Some("the vote frames"));
    }
    Ok(None)
}
