//! Which of two faults is answered.

use crate::answers::told;
use std::test::Fail;

const THE_FIRST_OF_TWO_FAULTS_IS_ANSWERED: &str =
    "outputs = [|outputs = [[|channels = 3|channels = 8|not-toml -
[[init]]|[[inits]]|channels = 3|channels = 8|unknown -
channels = 3|channels = 8|keep = 100|kept = 100|unknown core
channels = 3|channels = 8|cycles = 4|cycles = 0|out-of-range core.channels
channels = 3¶||cycles = 4|cycles = true|missing core.channels
cycles = 4¶||channels = 3|channels = 9|out-of-range core.channels
blocks = 2|blocks = 0|width = 2|width = 0|out-of-range core.blocks
returning = 1|returning = 3|decrement = 5|decrement = -1|out-of-range core.decrement
version = 2|version = 3|decay = \"subtract\"|decay = 1|out-of-range core.version
final = 1|final = 65|block = 1¶words|block = 2¶words|out-of-range core.final
block = 1¶words|block = 2¶words|[1, 2, 3, 4, 5, 6, 7, 8]|[1]|out-of-range init[0].block
[1, 2, 3, 4, 5, 6, 7, 8]|[1, 2, true]|name = \"sum\"|name = 1|out-of-range init[0].words
name = \"sum\"|name = \"Sum\"|w0 = \"b0.0 + in0\"|w0 = \"x\"|out-of-range task[0].name
w0 = \"b0.0 + in0\"|w0 = \"x\"|w7 = \"cycle\"|w7 = 1|bad-expr task[0].writes[0].w0 at 0
block = 0, w0|block = 300, w0|w7 = \"cycle\"|w8 = \"cycle\"|unknown task[0].writes[0]
block = 0, w0|block = 300, w0|w7 = \"cycle\"|w7 = \"cycles\"|out-of-range task[0].writes[0].block
block = 0, w0|block = 2, w0|w7 = \"cycle\"|w7 = \"cycles\"|bad-expr task[0].writes[0].w7 at 5
block = 0, w0|block = 2, w0|[\"sum\", \"keep\"]|[\"sum\", \"kept\"]|unknown table[0][1]
block = 0, w0|block = 2, w0|[[\"sum\", \"keep\"], [], [\"keep\"]]|[]|out-of-range task[0].writes[0].block
[[\"sum\", \"keep\"], [], [\"keep\"]]|[]|\"b0.0\", \" ( b1.2 ) \"||out-of-range table
\"b0.0\", \" ( b1.2 ) \"|\"x\"|[[1, 2], [3, 4], [5, 6]]|[]|bad-expr outputs[0] at 0
\"b0.0\", \" ( b1.2 ) \"|\"b0.0\", \"cycle\"|sensors = |sensor = |unknown -
[[1, 2], [3, 4], [5, 6]]|[]|[[-1, -2], [-3, -4], [-5, -6]]|1|out-of-range sensors[0]
[3, 4]|[3]|[5, 6]|5|out-of-range sensors[0][1]
[[1, 2], [3, 4], [5, 6]]|[[1, 2], [3, 4], [5, 6.5]]|kind = \"crash\"|kind = \"crush\"|wrong-type sensors[0][2][1]
kind = \"crash\"|kind = \"crush\"|slot = \"round1\"|slut = \"round1\"|unknown fault[0].kind
slot = \"round1\"|slut = \"round1\"|channel = 2¶[[fault]]¶kind = \"restart\"|[[fault]]¶kind = \"restart\"|unknown fault[0]
cycle = 1¶|cycle = -1¶|slot = \"round1\"|slot = \"round4\"|out-of-range fault[0].cycle
cycle = 1¶|cycle = 9¶|slot = \"round1\"|slot = \"round4\"|unknown fault[0].slot
cycle = 1¶|cycle = 9¶|bytes = \"00ff\"|bytes = \"0\"|out-of-range fault[4].bytes
cycle = 2¶channel = 2|cycle = 9¶channel = 9|from = 1|from = 6|out-of-range fault[1].cycle
block = 1¶word = 7|block = 9¶word = 9|to = 0|to = 5|out-of-range fault[2].block
";

#[test]
fn the_first_of_two_faults_is_answered(rt: HostRuntime) -> Result<(), Fail> {
    assert_eq!(rt;
        told(rt.alloc(), THE_FIRST_OF_TWO_FAULTS_IS_ANSWERED)?.as_str(),
        "32 rows"
    );
    Ok(())
}
