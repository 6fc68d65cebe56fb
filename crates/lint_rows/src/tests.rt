use crate::rows::ROWS;
use guards_base::{Bytes, Numbers, Text, Words};
use guards_io::{MemSink, MemSource};
use lint_run::lint;
use std::alloc::{AllocError, Global};
use std::str::from_utf8;
use std::test::Fail;

const ROOM: usize = 1_048_576;

// The status and the text of a call.
fn call(alloc: Global, words: &Words, mission: &str) -> Result<String, AllocError> {
    let mut src = MemSource::new(
        Bytes::from_slice(alloc, mission.as_bytes())?,
        ROOM,
        Numbers::new(alloc),
    );
    let mut out = MemSink::new(alloc, ROOM, ROOM, Numbers::new(alloc))?;
    let status = lint(alloc, words, &mut src, &mut out).code();
    let text = from_utf8(out.bytes()).unwrap_or("bytes that are no text");
    format!(in alloc; "{status}\n{text}")
}

#[test]
fn just_these_lines_are_written(rt: HostRuntime) -> Result<(), Fail> {
    let alloc = rt.alloc();
    let none = Words::new(alloc);
    let mut count = 0u32;
    for row in ROWS.split("====\n") {
        let (mission, wanted) = row.split_once("----\n").unwrap_or(("", ""));
        let told = call(alloc, &none, mission)?;
        assert_eq!(rt; told.as_str(), wanted);
        count = count.wrapping_add(1);
    }
    assert_eq!(rt; count, 8);
    Ok(())
}

#[test]
fn words_are_refused(rt: HostRuntime) -> Result<(), Fail> {
    let alloc = rt.alloc();
    let mut words = Words::new(alloc);
    words.push(Text::from_str(alloc, "check")?)?;
    let told = call(alloc, &words, "")?;
    assert_eq!(rt; told.as_str(), "2\nusage: guards_lint\n");
    Ok(())
}
