//! A small mission, and its nodes before the first cycle.
ghost use Rattle.std.specs.Prelude.{◌≡◌, IfOk, IfSome};

use channel_node::Node;
use guards_base::Chan;
use mission_text::read;
use mission_type::Mission;
use native_calls::{Calls, Code, middle, ramp, saturated};
use std::alloc::{AllocError, Global};

// Four channels with the sensor words 5 to 8, and three blocks. Each cycle adds the input to the first word, which is
// the output. A count falls to its half, and a channel is removed at a count of 2. A transfer copies two blocks in a
// cycle, and a final frame has one at most.
const MISSION: &str = "outputs = [\"b0.0\"]
table = [[\"sum\"]]
sensors = [[[5], [6], [7], [8]]]
[core]
channels = 4
cycles = 20
blocks = 3
width = 1
sweep = 2
final = 1
[[init]]
block = 1
words = [11, 0, 0, 0, 0, 0, 0, 0]
[[init]]
block = 2
words = [22, 0, 0, 0, 0, 0, 0, 0]
[[task]]
name = \"sum\"
writes = [{ block = 0, w0 = \"b0.0 + in0\" }]
";

/// The operations as they are.
pub struct Plain;

impl Calls for Plain {
    fn call(&self, code: Code, a: i64, b: i64, c: i64) -> i64 {
        match code {
            Code::Sat => saturated(a, b, c),
            Code::Mid => middle(a, b, c),
            Code::Ramp => ramp(a, b, c),
        }
    }
}

/// The small mission.
pub fn mission(alloc: Global) -> Option<Mission> {
    read(alloc, MISSION.as_bytes()).ok()
}

/// The node of a channel before the first cycle.
pub fn first(alloc: Global, mission: &Mission, number: u8) -> Result<Option<Node>, AllocError>
    ensures { IfOk result (λ found. IfSome found (λ node. node.rules ≡ mission.now.rules)) }
{
    let Some(me) = Chan::new(number) else {
        return Ok(None);
    };
    if me.index() >= mission.rules().channels {
        return Ok(None);
    }
    let node = Node::first(alloc, me, mission)?;
    Ok(Some(node))
}

/// A word of the node's context, where it runs.
pub fn word(node: &Node, block: u8) -> Option<i64> {
    let context = node.context()?;
    if u16::from(block) < context.len() {
        Some(context.get(block).words[0])
    } else {
        None
    }
}
