//! What a worked mission is, and how its text is written down.
use crate::missions::{COUNT, FILTER, GATE, SEVEN, SUM};
use crate::parts::part;
use crate::texts::{has_lines, unfolded};
use crate::votes::is_told_sent;
use icn_bus::Entry;
use std::alloc::{AllocError, Global};

/// A worked mission: a base with changes, the entries of its script, and what comes of it.
///
/// It is a row of a table: its name, and lines that each begin with a word.
///
/// - `base` names the mission that it changes. A `change` has a text of it and, behind a bar, what stands in its place;
/// there ¶
///   stands for the end of a line.
/// - A `fault` is an entry of the script with a comma after it, `faults` the name of a part with some.
/// - `done` says how many cycles finish, `carried` how many entries are carried.
/// - `part` names a part of the text that the records of the cycles tell, with the line of a stop, and `said` is a line
/// of it. Where
///   there is a `line`, the text has just these lines among others, in this order.
/// - A `vote` is a vote frame with one word that is sent: its version, its sender, its cycle and its word.
#[derive(Clone, Copy)]
pub struct Row<'a> {
    pub name: &'a str,
    /// How many cycles finish.
    pub done: u32,
    /// How many entries are carried.
    pub carried: u64,
    lines: &'a str,
}

// The mission that a name stands for.
fn base_of(name: &str) -> &'static str {
    if name == "COUNT" {
        return COUNT;
    }
    if name == "FILTER" {
        return FILTER;
    }
    if name == "GATE" {
        return GATE;
    }
    if name == "SEVEN" {
        return SEVEN;
    }
    SUM
}

// What stands behind a word at the head of the first such line; nothing where there is none.
fn behind<'a>(lines: &'a str, word: &str) -> &'a str {
    for line in lines.lines() {
        let (key, value) = line.split_once(' ').unwrap_or((line, ""));
        if key == word {
            return value;
        }
    }
    ""
}

// What a line adds to the script.
fn faults_in(line: &str) -> &str {
    let (key, value) = line.split_once(' ').unwrap_or((line, ""));
    if key == "fault" {
        return value;
    }
    if key == "faults" {
        return part(value);
    }
    ""
}

// Appends what a line adds to the text that is told.
fn push_told(text: &mut String, line: &str) -> Result<(), AllocError> {
    let (key, value) = line.split_once(' ').unwrap_or((line, ""));
    if key == "part" {
        return text.push_str(part(value));
    }
    if key == "said" || key == "line" {
        text.push_str(value)?;
        return text.push('\n');
    }
    Ok(())
}

// Whether a text is the wanted one, or else has its lines.
fn is_as_wanted(text: &str, wanted: &str, is_whole: bool) -> bool {
    if is_whole {
        text == wanted
    } else {
        has_lines(text, wanted)
    }
}

impl<'a> Row<'a> {
    /// The row that a text of a table tells.
    pub fn of(text: &'a str) -> Row<'a> {
        let (name, lines) = text.split_once('\n').unwrap_or((text, ""));
        let done = behind(lines, "done").parse::<u32>().unwrap_or(0);
        let carried = behind(lines, "carried").parse::<u64>().unwrap_or(0);
        Row {
            name,
            done,
            carried,
            lines,
        }
    }

    // The entries of the script.
    fn faults(&self, alloc: Global) -> Result<String, AllocError> {
        let mut faults = String::new(alloc);
        for line in self.lines.lines() {
            faults.push_str(faults_in(line))?;
        }
        Ok(faults)
    }

    // The base with its changes.
    fn base(&self, alloc: Global) -> Result<String, AllocError> {
        let mut text = String::from_str(alloc, base_of(behind(self.lines, "base")))?;
        for line in self.lines.lines() {
            if let Some(change) = line.strip_prefix("change ") {
                let (old, new) = change.split_once('|').unwrap_or((change, ""));
                text = text.replace(alloc, old, new)?;
            }
        }
        text.replace(alloc, "¶", "\n")
    }

    /// The text of the mission.
    pub fn mission(&self, alloc: Global) -> Result<String, AllocError> {
        let faults = self.faults(alloc)?;
        let base = self.base(alloc)?;
        format!(in alloc; "fault = [{faults}]\n{base}")
    }

    // The text that is told, or those of its lines that the row names. A line of several channels stands for one of
    // each.
    fn folded(&self, alloc: Global) -> Result<String, AllocError> {
        let mut text = String::new(alloc);
        for line in self.lines.lines() {
            push_told(&mut text, line)?;
        }
        Ok(text)
    }

    /// Whether the row tells of this text.
    pub fn is_told(&self, alloc: Global, text: &str) -> Result<bool, AllocError> {
        let folded = self.folded(alloc)?;
        let wanted = unfolded(alloc, &folded)?;
        let is_whole = behind(self.lines, "line").is_empty();
        Ok(is_as_wanted(text, &wanted, is_whole))
    }

    /// Whether the votes of the row were sent.
    pub fn has_votes(&self, log: &[Entry]) -> bool {
        let mut is_sent_each = true;
        for line in self.lines.lines() {
            if let Some(vote) = line.strip_prefix("vote ") {
                is_sent_each = is_sent_each && is_told_sent(log, vote);
            }
        }
        is_sent_each
    }
}
