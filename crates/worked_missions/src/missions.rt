//! The missions that the rows change, and entries of their scripts.

/// Four channels sum their sensors over two cycles.
pub const SUM: &str = "outputs = [\"b0.0\"]
table = [[\"sum\"]]
sensors = [[[5], [5], [5], [5]]]
[core]
channels = 4
cycles = 2
blocks = 1
width = 1
[[task]]
name = \"sum\"
writes = [{ block = 0, w0 = \"b0.0 + in0\" }]
";

/// Five channels count over twelve cycles. A transfer copies three of eight blocks a cycle, and the last two at once.
pub const COUNT: &str = "outputs = [\"b0.0\"]
table = [[\"count\"]]
sensors = [[[5], [5], [5], [5], [5]]]
[core]
channels = 5
cycles = 12
blocks = 8
width = 1
threshold = 6553600
sweep = 3
final = 2
[[task]]
name = \"count\"
writes = [{ block = 0, w0 = \"b0.0 + 1\" }]
";

/// A filter of the first order over the sensors, kept within -100 to 100, and an output that follows it by at most 5 a
/// cycle. The second of four channels reads far too much.
pub const FILTER: &str = "outputs = [\"b0.0\", \"b0.1\"]
table = [[\"smooth\", \"follow\"]]
sensors = [
    [[80], [5000], [80], [81]],
    [[120], [5000], [118], [120]],
    [[-40], [5000], [-41], [-40]],
]
[core]
channels = 4
cycles = 9
blocks = 2
width = 1
[[task]]
name = \"smooth\"
writes = [{ block = 0, w0 = \"b0.0 + (sat(in0, -100, 100) - b0.0) / 4\" }]
[[task]]
name = \"follow\"
writes = [{ block = 0, w1 = \"ramp(b0.1, b0.0, 5)\", w2 = \"mid(in0, b0.0, b0.1)\" }]
";

/// A gate is shut (0), opens (1 to 3), stands open (4) and shuts again (5 to 7). The first input asks it to open, the
/// second tells that the way is clear. The second output counts how often it stood open.
pub const GATE: &str = "outputs = [\"b1.0\", \"b1.1\"]
table = [[\"step\"], [\"step\", \"count\"]]
sensors = [
    [[1, 1], [1, 1], [1, 1], [1, 1], [1, 1]],
    [[0, 1], [0, 1], [0, 1], [0, 1], [0, 1]],
    [[0, 0], [0, 0], [1, 0], [0, 0], [0, 0]],
]
[core]
channels = 5
cycles = 24
blocks = 3
width = 2
[[init]]
block = 1
words = [0, 0, 0, 0, 0, 0, 0, 0]
[[task]]
name = \"step\"
writes = [{ block = 1, w0 = \"pick(b1.0, pick(4 - b1.0, b1.0 + 1, pick(5 - b1.0, pick(in1, 5, 4), (b1.0 + 1) % 8)), pick(in0, 1, 0))\" }]
[[task]]
name = \"count\"
writes = [
    { block = 2, w0 = \"pick(b1.0 - 3, pick(5 - b1.0, 1, 0), 0)\" },
    { block = 1, w1 = \"b1.1 + b2.0\" },
]
";

/// Seven channels with four sensor words each and eight outputs: sums, products, quotients and remainders.
pub const SEVEN: &str =
    "outputs = [\"b0.0\", \"b0.1\", \"b0.2\", \"b0.3\", \"b1.0\", \"b1.1\", \"b1.2\", \"b1.3\"]
table = [[\"sums\"], [\"sums\", \"products\"]]
sensors = [
    [[1, 10, 100, 1000], [2, 20, 200, 2000], [3, 30, 300, 3000], [4, 40, 400, 4000], [5, 50, 500, 5000], [6, 60, 600, 6000], [-7, -70, -700, -7000]],
    [[7, 3, 9, 1], [7, 3, 9, 1], [7, 3, 9, 1], [7, 3, 9, 1], [0, 0, 0, 0], [0, 0, 0, 0], [99, 99, 99, 99]],
]
[core]
channels = 7
cycles = 10
blocks = 4
width = 4
sweep = 2
final = 1
[[task]]
name = \"sums\"
writes = [{ block = 0, w0 = \"b0.0 + in0\", w1 = \"b0.1 + in1\", w2 = \"b0.2 - in2\", w3 = \"b0.3 + in3 * cycle\" }]
[[task]]
name = \"products\"
writes = [{ block = 1, w0 = \"b0.0 * b0.1\", w1 = \"b0.2 / (b0.0 + 1)\", w2 = \"b0.3 % 7\", w3 = \"-b1.0\" }]
";
