//! Missions, and what is written of them.

/// Rows with a line `====` between them: a mission, a line `----`, and the status and the lines that are wanted. Each
/// kind of line stands in one of them, and is missing in another.
pub const ROWS: &str = "outputs = [\"b0.0\"]
table = [[\"t\"]]
sensors = [[[1], [1], [1], [1]]]
[core]
channels = 4
cycles = 10
blocks = 2
width = 1
sweep = 2
final = 1
threshold = 131071
[[task]]
name = \"t\"
writes = [{ block = 0, w0 = \"b0.0 + in0\" }]
----
0
note core.keep a channel that is judged errant once in 3 cycles is never removed for it
note core.sweep a transfer that starts in row 0 takes 1 cycles
====
outputs = [\"b0.0\", \"b1.7\"]
table = [[\"t\"]]
sensors = [[[1, 2], [1, 2], [1, 2], [1, 2]]]
[core]
channels = 4
cycles = 10
blocks = 2
width = 2
[[task]]
name = \"t\"
writes = [{ block = 0, w0 = \"mid(b0.1, -b1.0, 9)\", w2 = \"pick(in0, cycle, 7)\" }]
[[init]]
block = 1
words = [5, 0, 0, 0, 0, 0, 0, 0]
----
1
warning core.keep a channel that is judged errant once in 2 cycles is never removed for it
note core.sweep a transfer that starts in row 0 takes 1 cycles
warning outputs no output depends on b0.2: damage there shows in no vote
warning outputs[1] b1.7 is written by no task of the table
warning sensors in1 is read by no task of the table
warning task b0.1 is read and never written
====
outputs = [\"b0.0\"]
table = [[\"a\"], [\"b\", \"d\"], [\"c\"]]
sensors = [[[1], [1], [1], [1]]]
[core]
channels = 4
cycles = 10
blocks = 6
width = 1
sweep = 2
final = 1
threshold = 131071
[[task]]
name = \"a\"
writes = [{ block = 0, w0 = \"pick(b0.1, b5.7, 0)\" }]
[[task]]
name = \"b\"
writes = [{ block = 0, w1 = \"b1.2 - 1\" }]
[[task]]
name = \"c\"
writes = [{ block = 1, w2 = \"in0\" }]
[[task]]
name = \"d\"
writes = [{ block = 2, w3 = \"b2.3 + b0.0\" }, { block = 5, w7 = \"cycle\", w6 = \"b5.7\" }]
----
1
warning core no bound of a join is promised: a row writes 3 blocks, sweep is 2 and final is 1
note core.keep a channel that is judged errant once in 3 cycles is never removed for it
note core.sweep a transfer that starts in row 0 takes 7 cycles
note core.sweep a transfer that starts in row 1 takes 6 cycles
note core.sweep a transfer that starts in row 2 takes 8 cycles
warning outputs no output depends on b2.3: damage there shows in no vote
warning outputs no output depends on b5.6: damage there shows in no vote
====
outputs = [\"b0.0\"]
table = [[\"a\"]]
sensors = [[[1], [1], [1]]]
[core]
channels = 3
cycles = 4
blocks = 4
width = 1
sweep = 1
final = 0
version = 2
decay = \"subtract\"
decrement = 16384
[[task]]
name = \"a\"
writes = [{ block = 0, w0 = \"in0\" }]
[[fault]]
kind = \"damage\"
cycle = 1
channel = 2
block = 0
word = 0
value = 7
----
1
warning core no bound of a join is promised: a row writes 1 blocks, sweep is 1 and final is 0
note core.keep a channel that is judged errant once in 5 cycles is never removed for it
warning core.sweep a transfer that starts in row 0 does not end in 2000 cycles
warning fault in cycle 1 the script names 1 of 3 channels, a third or more
====
outputs = [\"b0.0\"]
table = [[\"a\"]]
sensors = [[[1], [1], [1], [1]]]
[core]
channels = 4
cycles = 20
blocks = 2
width = 1
threshold = 131071
[[task]]
name = \"a\"
writes = [{ block = 0, w0 = \"b0.0 + in0\" }]
[[fault]]
kind = \"crash\"
cycle = 2
slot = \"vote\"
channel = 1
[[fault]]
kind = \"lose\"
cycle = 3
slot = \"round3\"
from = 0
to = 1
[[fault]]
kind = \"crash\"
cycle = 4
slot = \"request\"
channel = 1
[[fault]]
kind = \"restart\"
cycle = 6
channel = 2
[[fault]]
kind = \"damage\"
cycle = 8
channel = 1
block = 1
word = 7
value = -1
[[fault]]
kind = \"restart\"
cycle = 8
channel = 1
[[fault]]
kind = \"crash\"
cycle = 8
slot = \"final\"
channel = 1
[[fault]]
kind = \"restart\"
cycle = 9
channel = 1
[[fault]]
kind = \"lose\"
cycle = 11
slot = \"round2\"
from = 0
to = 1
[[fault]]
kind = \"lose\"
cycle = 11
slot = \"switch\"
from = 3
to = 7
[[fault]]
kind = \"forge\"
cycle = 12
slot = \"vote\"
from = 2
to = 7
bytes = \"00ff\"
[[fault]]
kind = \"lose\"
cycle = 13
slot = \"tasks\"
from = 2
[[fault]]
kind = \"lose\"
cycle = 14
slot = \"output\"
from = 2
to = 8
----
1
note core.keep a channel that is judged errant once in 3 cycles is never removed for it
note core.sweep a transfer that starts in row 0 takes 1 cycles
warning fault in cycle 11 the script names 2 of 4 channels, a third or more
warning fault no effect: crash of channel 1 in cycle 4, which is down
warning fault no effect: restart of channel 2 in cycle 6, which is not down
warning fault no effect: damage of channel 1 in cycle 8, which is down
warning fault no effect: frames of channel 0 in cycle 3, none such in slot round3
warning fault no effect: frames of channel 2 in cycle 12, none such in slot vote
warning fault no effect: frames of channel 2 in cycle 13, none such in slot tasks
warning fault no effect: frames of channel 2 in cycle 14, none such in slot output
====
outputs = [\"b0.0\"]
table = [[\"a\"]]
sensors = [[[1], [1], [1], [1]]]
[core]
channels = 4
cycles = 20
blocks = 2
width = 1
threshold = 65536
keep = 65536
[actuator]
step = [1]
[[task]]
name = \"a\"
writes = [{ block = 0, w0 = \"b0.0 + in0\" }]
[[fault]]
kind = \"lose\"
cycle = 14
slot = \"output\"
from = 2
to = 8
----
0
note core.sweep a transfer that starts in row 0 takes 1 cycles
====
outputs = [\"b0.0\"]
table = [[\"b\"], [\"d\", \"b\"]]
sensors = [[[1], [1], [1], [1]]]
[core]
channels = 4
cycles = 10
blocks = 2
width = 1
threshold = 131071
[[task]]
name = \"a\"
writes = [{ block = 0, w3 = \"b0.3 + 1\" }]
[[task]]
name = \"b\"
writes = [{ block = 0, w0 = \"b0.0 + in0 + b0.1\" }]
[[task]]
name = \"bb\"
writes = [{ block = 1, w0 = \"cycle\" }]
[[task]]
name = \"d\"
writes = [{ block = 0, w1 = \"b0.3\" }]
----
1
note core.keep a channel that is judged errant once in 3 cycles is never removed for it
note core.sweep a transfer that starts in row 0 takes 1 cycles
note core.sweep a transfer that starts in row 1 takes 1 cycles
warning task b0.3 is read and never written
warning task[0] stands in no row of the table
warning task[2] stands in no row of the table
====
outputs = [\"b0.0\"]
----
3
mission: missing core
";
