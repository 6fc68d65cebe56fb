//! A mission with every key but the actuator's, and what is answered where texts in it are replaced.

use mission_text::{Cause, ReadFault, read};
use std::alloc::Global;
use std::test::Fail;

// A mission with every key but the actuator's.
pub(crate) const MISSION: &str = "outputs = [\"b0.0\", \" ( b1.2 ) \"]
table = [[\"sum\", \"keep\"], [], [\"keep\"]]
sensors = [[[1, 2], [3, 4], [5, 6]], [[-1, -2], [-3, -4], [-5, -6]]]
[core]
channels = 3
cycles = 4
blocks = 2
width = 2
keep = 100
threshold = 70000
return_after = 1
sweep = 2
final = 1
version = 2
decay = \"subtract\"
decrement = 5
returning = 1
[[init]]
block = 1
words = [1, 2, 3, 4, 5, 6, 7, 8]
[[task]]
name = \"sum\"
writes = [{ block = 0, w0 = \"b0.0 + in0\", w7 = \"cycle\" }]
[[task]]
name = \"keep\"
writes = [{ block = 1, w3 = \"sat(in1, -5, 5)\" }]
[[fault]]
kind = \"crash\"
cycle = 1
slot = \"round1\"
channel = 2
[[fault]]
kind = \"restart\"
cycle = 2
channel = 2
[[fault]]
kind = \"damage\"
cycle = 0
channel = 0
block = 1
word = 7
value = -9
[[fault]]
kind = \"lose\"
cycle = 3
slot = \"vote\"
from = 1
to = 0
[[fault]]
kind = \"forge\"
cycle = 3
slot = \"output\"
from = 2
bytes = \"00ff\"
";

fn cause_name(cause: Cause) -> &'static str {
    match cause {
        Cause::NotToml => "not-toml",
        Cause::Missing => "missing",
        Cause::WrongType => "wrong-type",
        Cause::OutOfRange => "out-of-range",
        Cause::Unknown => "unknown",
        Cause::Duplicate => "duplicate",
        Cause::BadExpr => "bad-expr",
    }
}

// `read`, or the cause, the path and the place.
pub(crate) fn answer(alloc: Global, bytes: &[u8]) -> Result<String, Fail> {
    match read(alloc, bytes) {
        Ok(_) => Ok(String::from_str(alloc, "read")?),
        Err(ReadFault::Bad(why)) => {
            let cause = cause_name(why.cause);
            let path = why.path.as_str();
            match why.at {
                None => Ok(format!(in alloc; "{cause} {path}")?),
                Some(at) => Ok(format!(in alloc; "{cause} {path} at {at}")?),
            }
        }
        Err(ReadFault::Memory) => Err("out of memory".into()),
    }
}

// The answer to the mission after changes, `OLD|NEW` or `OLD|NEW|OLD|NEW`, in which ¶ stands for the end of a line.
fn answer_after(alloc: Global, changes: &str) -> Result<String, Fail> {
    let changes = changes.replace(alloc, "¶", "\n")?;
    let mut text = String::from_str(alloc, MISSION)?;
    let mut old = None;
    for part in changes.split('|') {
        old = match old {
            None => Some(part),
            Some(old) => {
                text = text.replace(alloc, old, part)?;
                None
            }
        };
    }
    answer(alloc, text.as_bytes())
}

// How many rows there are, and each whose answer is another. A row is a line of changes and the answer, with | between
// them.
pub(crate) fn told(alloc: Global, rows: &str) -> Result<String, Fail> {
    let mut others = String::new(alloc);
    for row in rows.lines() {
        let (changes, want) = row.rsplit_once('|').ok_or("a row without an answer")?;
        let got = answer_after(alloc, changes)?;
        if got.as_str() != want {
            others.push_str(&format!(in alloc; "; {row}: {got}")?)?;
        }
    }
    Ok(format!(in alloc; "{} rows{others}", rows.lines().count())?)
}
