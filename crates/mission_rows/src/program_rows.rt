//! The keys `init`, `task` and `table`.

use crate::answers::told;
use std::test::Fail;

const INIT: &str = "block = 1¶words|words|missing init[0].block
block = 1¶words|block = -1¶words|out-of-range init[0].block
block = 1¶words|block = 2¶words|out-of-range init[0].block
block = 1¶words|block = \"1\"¶words|wrong-type init[0].block
words = [1, 2, 3, 4, 5, 6, 7, 8]¶||missing init[0].words
words = [1, 2, 3, 4, 5, 6, 7, 8]|words = 1|wrong-type init[0].words
words = [1, 2, 3, 4, 5, 6, 7, 8]|words = [1, 2, 3, 4, 5, 6, 7]|out-of-range init[0].words
words = [1, 2, 3, 4, 5, 6, 7, 8]|words = [1, 2, 3, 4, 5, 6, 7, 8, 9]|out-of-range init[0].words
words = [1, 2, 3, 4, 5, 6, 7, 8]|words = [1, 2, 3, 4, 5, 6.5, 7, 8]|wrong-type init[0].words[5]
words = [1, 2, 3, 4, 5, 6, 7, 8]|words = [1, 2, 3, 4, 5, 6, 7, 8]¶word = 1|unknown init[0]
words = [1, 2, 3, 4, 5, 6, 7, 8]|words = [1, 2, 3, 4, 5, 6, 7, 8]¶[[init]]¶block = 1¶words = 3|duplicate init[1].block
words = [1, 2, 3, 4, 5, 6, 7, 8]|words = [1, 2, 3, 4, 5, 6, 7, 8]¶[[init]]¶block = 0¶words = [0, 0, 0, 0, 0, 0, 0, 0]|read
[[init]]¶block = 1¶words = [1, 2, 3, 4, 5, 6, 7, 8]¶||read
[[init]]|[init]|wrong-type init
";

#[test]
fn init(rt: HostRuntime) -> Result<(), Fail> {
    assert_eq!(rt; told(rt.alloc(), INIT)?.as_str(), "14 rows");
    Ok(())
}

const TASK: &str = "name = \"sum\"¶||missing task[0].name
name = \"sum\"|name = 1|wrong-type task[0].name
name = \"sum\"|name = \"\"|out-of-range task[0].name
name = \"sum\"|name = \"Sum\"|out-of-range task[0].name
name = \"sum\"|name = \"s-m\"|out-of-range task[0].name
name = \"sum\"|name = \"1um\"|out-of-range task[0].name
name = \"sum\"|name = \"aaaaaaaaaaaaaaaaaaaaaaaaaaaaaaaaa\"|out-of-range task[0].name
name = \"sum\"|name = \"aaaaaaaaaaaaaaaaaaaaaaaaaaaaaaaa\"|unknown table[0][0]
name = \"keep\"¶writes = [{ block = 1, w3 = \"sat(in1, -5, 5)\" }]|name = \"sum\"¶writes = 5|duplicate task[1].name
name = \"keep\"¶writes|name = \"keep\"¶rest = 1¶writes|unknown task[1]
writes = [{ block = 1, w3 = \"sat(in1, -5, 5)\" }]¶||missing task[1].writes
writes = [{ block = 1, w3 = \"sat(in1, -5, 5)\" }]|writes = 1|wrong-type task[1].writes
writes = [{ block = 1, w3 = \"sat(in1, -5, 5)\" }]|writes = [1]|wrong-type task[1].writes[0]
writes = [{ block = 1, w3 = \"sat(in1, -5, 5)\" }]|writes = []|out-of-range task[1].writes
writes = [{ block = 1, w3 = \"sat(in1, -5, 5)\" }]|writes = [{ w3 = \"1\" }]|missing task[1].writes[0].block
writes = [{ block = 1, w3 = \"sat(in1, -5, 5)\" }]|writes = [{ block = 256, w3 = \"1\" }]|out-of-range task[1].writes[0].block
writes = [{ block = 1, w3 = \"sat(in1, -5, 5)\" }]|writes = [{ block = 2, w3 = \"1\" }]|out-of-range task[1].writes[0].block
writes = [{ block = 1, w3 = \"sat(in1, -5, 5)\" }]|writes = [{ block = -1, w3 = \"1\" }]|out-of-range task[1].writes[0].block
writes = [{ block = 1, w3 = \"sat(in1, -5, 5)\" }]|writes = [{ block = 1 }]|missing task[1].writes[0]
writes = [{ block = 1, w3 = \"sat(in1, -5, 5)\" }]|writes = [{ block = 1, w8 = \"1\" }]|unknown task[1].writes[0]
writes = [{ block = 1, w3 = \"sat(in1, -5, 5)\" }]|writes = [{ block = 1, w3 = 1 }]|wrong-type task[1].writes[0].w3
[[task]]¶name = \"sum\"¶writes = [{ block = 0, w0 = \"b0.0 + in0\", w7 = \"cycle\" }]¶[[task]]¶name = \"keep\"¶writes = [{ block = 1, w3 = \"sat(in1, -5, 5)\" }]¶||missing task
[[task]]¶name = \"sum\"¶writes = [{ block = 0, w0 = \"b0.0 + in0\", w7 = \"cycle\" }]¶[[task]]¶name = \"keep\"¶writes = [{ block = 1, w3 = \"sat(in1, -5, 5)\" }]¶|[task]¶|wrong-type task
";

#[test]
fn task(rt: HostRuntime) -> Result<(), Fail> {
    assert_eq!(rt; told(rt.alloc(), TASK)?.as_str(), "23 rows");
    Ok(())
}

const EXPRESSIONS: &str = "w3 = \"sat(in1, -5, 5)\"|w3 = \"\"|bad-expr task[1].writes[0].w3 at 0
w3 = \"sat(in1, -5, 5)\"|w3 = \"in2\"|bad-expr task[1].writes[0].w3 at 2
w3 = \"sat(in1, -5, 5)\"|w3 = \"b2.0\"|bad-expr task[1].writes[0].w3 at 1
w3 = \"sat(in1, -5, 5)\"|w3 = \"b0.8\"|bad-expr task[1].writes[0].w3 at 3
w3 = \"sat(in1, -5, 5)\"|w3 = \"1 +\"|bad-expr task[1].writes[0].w3 at 3
w3 = \"sat(in1, -5, 5)\"|w3 = \"1 2\"|bad-expr task[1].writes[0].w3 at 2
w3 = \"sat(in1, -5, 5)\"|w3 = \"sat(1, 2)\"|bad-expr task[1].writes[0].w3 at 8
w3 = \"sat(in1, -5, 5)\"|w3 = \"9223372036854775808\"|bad-expr task[1].writes[0].w3 at 18
w3 = \"sat(in1, -5, 5)\"|w3 = \"b00.0\"|bad-expr task[1].writes[0].w3 at 2
w3 = \"sat(in1, -5, 5)\"|w3 = \"x\"|bad-expr task[1].writes[0].w3 at 0
w3 = \"sat(in1, -5, 5)\"|w3 = \"1+1+1+1+1+1+1+1+1+1+1+1+1+1+1+1+1+1+1+1+1+1+1+1+1+1+1+1+1+1+1+1+1\"|bad-expr task[1].writes[0].w3 at 65
w3 = \"sat(in1, -5, 5)\"|w3 = \"1+1+1+1+1+1+1+1+1+1+1+1+1+1+1+1\"|read
w3 = \"sat(in1, -5, 5)\"|w3 = \"1+1+1+1+1+1+1+1+1+1+1+1+1+1+1+1+1\"|bad-expr task[1].writes[0].w3 at 33
";

#[test]
fn expressions(rt: HostRuntime) -> Result<(), Fail> {
    assert_eq!(rt; told(rt.alloc(), EXPRESSIONS)?.as_str(), "13 rows");
    Ok(())
}

const TABLE: &str = "table = [[\"sum\", \"keep\"], [], [\"keep\"]]¶||missing table
table = [[\"sum\", \"keep\"], [], [\"keep\"]]|table = 1|wrong-type table
table = [[\"sum\", \"keep\"], [], [\"keep\"]]|table = [1]|wrong-type table[0]
table = [[\"sum\", \"keep\"], [], [\"keep\"]]|table = [[\"sum\", 1]]|wrong-type table[0][1]
table = [[\"sum\", \"keep\"], [], [\"keep\"]]|table = [[\"sum\"], [\"add\"]]|unknown table[1][0]
table = [[\"sum\", \"keep\"], [], [\"keep\"]]|table = []|out-of-range table
table = [[\"sum\", \"keep\"], [], [\"keep\"]]|table = [[], [], [], [], [], [], [], [], [], [], [], [], [], [], [], []]|read
table = [[\"sum\", \"keep\"], [], [\"keep\"]]|table = [[], [], [], [], [], [], [], [], [], [], [], [], [], [], [], [], []]|out-of-range table
";

#[test]
fn table(rt: HostRuntime) -> Result<(), Fail> {
    assert_eq!(rt; told(rt.alloc(), TABLE)?.as_str(), "8 rows");
    Ok(())
}
