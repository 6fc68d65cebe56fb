//! Texts in which like lines stand once, and the lines of a report.
use std::alloc::{AllocError, Global};

/// The text in which each first text of a change has given way to the second.
pub fn changed(alloc: Global, base: &str, changes: &[(&str, &str)]) -> Result<String, AllocError> {
    let mut text = String::from_str(alloc, base)?;
    for (old, new) in changes {
        text = text.replace(alloc, *old, new)?;
    }
    Ok(text)
}

// Appends a line, or the lines of all channels that it names.
fn push_line(alloc: Global, text: &mut String, line: &str) -> Result<(), AllocError> {
    let (word, rest) = line.split_once(' ').unwrap_or((line, ""));
    if word != "ch" && word != "trace" {
        return text.push_str(&format!(in alloc; "{line}\n")?);
    }
    let (channels, says) = rest.split_once(' ').unwrap_or((rest, ""));
    for channel in channels.split(',') {
        text.push_str(&format!(in alloc; "{word} {channel} {says}\n")?)?;
    }
    Ok(())
}

/// The text in which a line of several channels, as `ch 0,1 in 5`, stands once for each of them.
pub fn unfolded(alloc: Global, folded: &str) -> Result<String, AllocError> {
    let mut text = String::new(alloc);
    for line in folded.lines() {
        push_line(alloc, &mut text, line)?;
    }
    Ok(text)
}

/// Whether the text has the lines, in their order.
pub fn has_lines(text: &str, lines: &str) -> bool {
    let mut wanted = lines.lines();
    let mut next = wanted.next();
    for line in text.lines() {
        if next == Some(line) {
            next = wanted.next();
        }
    }
    next.is_none()
}

// The line of a round with its copies before its writes, since how they interleave is free.
fn push_sorted(alloc: Global, text: &mut String, line: &str) -> Result<(), AllocError> {
    let (front, steps) = line.rsplit_once(' ').unwrap_or((line, ""));
    let copies = steps.replace(alloc, "T", "")?;
    let writes = steps.replace(alloc, "S", "")?;
    text.push_str(&format!(in alloc; "{front} {copies}{writes}\n")?)
}

/// The text of a traced run without the lines of rounds, and these lines, each with its copies before its writes.
pub fn parted(alloc: Global, told: &str) -> Result<(String, String), AllocError> {
    let mut text = String::new(alloc);
    let mut rounds = String::new(alloc);
    for line in told.lines() {
        if line.starts_with("trace ") {
            push_sorted(alloc, &mut rounds, line)?;
        } else {
            text.push_str(&format!(in alloc; "{line}\n")?)?;
        }
    }
    Ok((text, rounds))
}
