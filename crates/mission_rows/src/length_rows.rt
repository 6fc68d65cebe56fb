//! Lengths and counts.

use crate::answers::{answer, told};
use std::alloc::Global;
use std::test::Fail;

const LENGTHS: &str =
    "writes = [{ block = 1, w3 = \"sat(in1, -5, 5)\" }]|writes = [|{ block = 1, w3 = \"1\" }, |16|{ block = 1, w3 = \"1\" }]|out-of-range task[1].writes
writes = [{ block = 1, w3 = \"sat(in1, -5, 5)\" }]|writes = [|{ block = 1, w3 = \"1\" }, |15|{ block = 1, w3 = \"1\" }]|read
w3 = \"sat(in1, -5, 5)\"|w3 = \"| |1099|1\"|read
w3 = \"sat(in1, -5, 5)\"|w3 = \"| |1100|1\"|bad-expr task[1].writes[0].w3 at 1100
w3 = \"sat(in1, -5, 5)\"|w3 = \"|x|1101|\"|bad-expr task[1].writes[0].w3 at 1100
table = [[\"sum\", \"keep\"], [], [\"keep\"]]|table = [[], [|\"sum\", |16|\"sum\"]]|out-of-range table[1]
table = [[\"sum\", \"keep\"], [], [\"keep\"]]|table = [[], [|\"sum\", |15|\"sum\"]]|read
sensors = [[[1, 2], [3, 4], [5, 6]], [[-1, -2], [-3, -4], [-5, -6]]]|sensors = [|[[1, 2], [3, 4], [5, 6]], |63|[[1, 2], [3, 4], [5, 6]]]|read
sensors = [[[1, 2], [3, 4], [5, 6]], [[-1, -2], [-3, -4], [-5, -6]]]|sensors = [|[[1, 2], [3, 4], [5, 6]], |64|[[1, 2], [3, 4], [5, 6]]]|out-of-range sensors
bytes = \"00ff\"¶|bytes = \"00ff\"¶|[[fault]]¶kind = \"restart\"¶cycle = 0¶channel = 0¶|1019||read
bytes = \"00ff\"¶|bytes = \"00ff\"¶|[[fault]]¶kind = \"restart\"¶cycle = 0¶channel = 0¶|1020||out-of-range fault
bytes = \"00ff\"¶|bytes = \"|00|4300|\"¶|read
bytes = \"00ff\"¶|bytes = \"|00|4301|\"¶|out-of-range fault[4].bytes
";

// The rows that rows `OLD|FRONT|ONE|COUNT|BACK|ANSWER` stand for: OLD gives way to so many copies of ONE between FRONT
// and BACK.
fn with_copies(alloc: Global, rows: &str) -> Result<String, Fail> {
    let mut text = String::new(alloc);
    for row in rows.lines() {
        let (old, rest) = row.split_once('|').ok_or("no old text")?;
        let (front, rest) = rest.split_once('|').ok_or("no front")?;
        let (one, rest) = rest.split_once('|').ok_or("nothing to copy")?;
        let (count, back) = rest.split_once('|').ok_or("no count")?;
        text.push_str(&format!(in alloc; "{old}|{front}")?)?;
        for _ in 0..count.parse::<u16>().unwrap_or(0) {
            text.push_str(one)?;
        }
        text.push_str(&format!(in alloc; "{back}\n")?)?;
    }
    Ok(text)
}

#[test]
fn lengths(rt: HostRuntime) -> Result<(), Fail> {
    assert_eq!(rt;
        told(rt.alloc(), with_copies(rt.alloc(), LENGTHS)?.as_str())?.as_str(),
        "13 rows"
    );
    Ok(())
}

// The head of a mission without tasks, rows and blocks of its own, after the keys in front.
const HEAD: &str = "outputs = [\"b0.0\"]
sensors = [[[1], [2], [3]]]
[core]
channels = 3
cycles = 1
blocks = 256
width = 1
";

// The answer to a mission with so many tasks and so many elements of `init`.
fn counted(alloc: Global, front: &str, tasks: usize, blocks: usize) -> Result<String, Fail> {
    let mut text = String::from_str(alloc, front)?;
    text.push_str(HEAD)?;
    for block in 0..blocks {
        let element = format!(in alloc;
            "[[init]]\nblock = {block}\nwords = [0, 0, 0, 0, 0, 0, 0, 9]\n"
        )?;
        text.push_str(element.as_str())?;
    }
    for task in 0..tasks {
        let element = format!(in alloc;
            "[[task]]\nname = \"t{task}\"\nwrites = [{{ block = 255, w0 = \"1\" }}]\n"
        )?;
        text.push_str(element.as_str())?;
    }
    answer(alloc, text.as_bytes())
}

#[test]
fn counts_of_tasks_and_blocks(rt: HostRuntime) -> Result<(), Fail> {
    for (front, tasks, blocks, want) in [
        ("table = [[\"t0\", \"t63\"]]\n", 64, 256, "read"),
        (
            "table = [[\"t0\", \"t63\"]]\n",
            65,
            256,
            "out-of-range task",
        ),
        (
            "table = [[\"t0\", \"t63\"]]\n",
            64,
            257,
            "out-of-range init",
        ),
        (
            "table = [[\"t0\", \"t63\"]]\n",
            63,
            0,
            "unknown table[0][1]",
        ),
        ("table = [[]]\ntask = []\n", 0, 0, "out-of-range task"),
        ("table = [[]]\ninit = []\n", 1, 0, "read"),
    ] {
        assert_eq!(rt;
            counted(rt.alloc(), front, tasks, blocks)?.as_str(),
            want,
            "{front} {tasks} {blocks}"
        );
    }
    Ok(())
}
