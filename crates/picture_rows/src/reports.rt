//! Reports, and what their pictures say.

/// Five channels: one is judged, removed, restored and joins; another is removed and dropped from its transfer.
pub const RESTORED: &str = "guards channels 5 cycles 7
cycle 0 active 0,1,2,3,4 transfer -
ch 0 in 5 vote 1 judged 4 alpha 0,0,0,0,65536
ch 1 in 5 vote 1 judged 4 alpha 0,0,0,0,65536
ch 2 in 5 vote 1 judged 4 alpha 0,0,0,0,65536
ch 3 in 5 vote 1 judged 4 alpha 0,0,0,0,65536
end removed 4 joined - remaining -
cycle 1 active 0,1,2,3 transfer 4@1
ch 0 in 5 vote 2 judged - alpha 0,0,0,0,0
ch 1 in 5 vote 2 judged - alpha 0,0,0,0,0
ch 2 in 5 vote 2 judged - alpha 0,0,0,0,0
ch 3 in 5 vote 2 judged - alpha 0,0,0,0,0
end removed - joined - remaining 3
cycle 2 active 0,1,2,3 transfer 4@1
ch 0 in 5 vote 2 judged 3 alpha 0,0,0,70000,0
ch 1 in 5 vote 2 judged 3 alpha 0,0,0,70000,0
ch 2 in 5 vote 2 judged 3 alpha 0,0,0,70000,0
end removed 3 joined 4 remaining 0
cycle 3 active 0,1,2,4 transfer 3@3
ch 0 in 5 vote -7 judged - alpha 0,0,0,0,0
ch 1 in 5 vote -7 judged - alpha 0,0,0,0,0
ch 2 in 5 vote -7 judged - alpha 0,0,0,0,0
ch 4 in 5 vote -7 judged - alpha 0,0,0,0,0
end removed - joined - remaining 3
out 0
cycle 4 active 0,1,2,4 transfer -
ch 0 in 5 vote -7 judged - alpha 0,0,0,0,0
ch 1 in 5 vote -7 judged - alpha 0,0,0,0,0
ch 2 in 5 vote -7 judged - alpha 0,0,0,0,0
ch 4 in 5 vote -7 judged - alpha 0,0,0,0,0
end removed - joined - remaining -
stop cycle 5 slot sweep disturbed 0,1 active 0,1,2,4
";

/// What its picture says of each span, one a line.
pub const RESTORED_TITLES: &str = "channel 0 runs, cycles 0 to 4
channel 3 runs, cycles 0 to 1
channel 3 is active and has no line, cycle 2
channel 3 is being restored since cycle 3, cycle 3
channel 3 is switched off, cycle 4
channel 4 is active and has no line, cycle 0
channel 4 is being restored since cycle 1, cycles 1 to 2
channel 4 runs, cycles 3 to 4
channel 4 is judged errant, cycle 0
channel 3 is judged errant, cycle 2
channel 4 has a count of 65536/65536, cycle 0
channel 4 has a count of 0/65536, cycles 1 to 4
channel 3 has a count of 70000/65536, cycle 2
channel 4 is removed at the end of cycle 0, cycle 0
channel 3 is removed at the end of cycle 2, cycle 2
channel 4 joins at the end of cycle 2, cycle 2
channel 3 is dropped from the transfer before cycle 4, cycle 4
the transfer has 3 blocks left, cycle 1
the transfer has 0 blocks left, cycle 2
the transfer has 3 blocks left, cycle 3
output 0 is 1, cycle 0
output 0 is 2, cycles 1 to 2
output 0 is -7, cycles 3 to 4
channel 0 is disturbed at the stop
channel 1 is disturbed at the stop
not in the report
guards: 5 channels, 7 cycles; stopped in cycle 5, slot sweep: 2 of 4 disturbed";

/// The elements of that picture, each with how many of it there are, and one of each sign and state in the legend.
pub const RESTORED_COUNTS: &str = "3 <use href='#removed' x=
2 <use href='#joined' x=
2 <use href='#dropped' x=
3 <rect class='judged' x=
3 <rect class='disturbed' x=
1 <line class='stop'
2 <rect class='void' x=
1 <text class='name' x='2000' y='9750'>channel 0</text>";

/// A mission whose reports have the sizes of that report.
pub const MISSION: &str = "outputs = [\"b0.0\"]
table = [[\"count\"]]
sensors = [[[5], [5], [5], [5], [5]]]
[core]
channels = 5
cycles = 7
blocks = 8
width = 1
threshold = 131072
final = 2
[[task]]
name = \"count\"
writes = [{ block = 0, w0 = \"b0.0 + 1\" }]
";

/// What the picture says besides with that mission before the report.
pub const LIMIT_TITLES: &str = "channel 0 has a threshold of 131072/65536, cycles 0 to 4
channel 4 has a threshold of 131072/65536, cycles 0 to 4
the transfer has room for 2 blocks in a final frame, cycles 1 to 3";

/// The elements of that picture: a threshold for each channel, a final frame, and one in the legend. The counts are as
/// high as the threshold at most, and 3 blocks are as high as their row.
pub const LIMIT_COUNTS: &str = "7 <rect class='limit' x=
1 <rect class='limit' x='12800' y='10450' width='72570' height='100'>
1 <rect class='limit' x='27314' y='32150' width='43542' height='100'>
1 >threshold 131072/65536, final frame 2 blocks</text>";

/// The same with a threshold of 6553600: it is more than four times as high as any count.
pub const FAR_COUNTS: &str = "2 <rect class='limit' x=
1 >threshold 6553600/65536 (above the bars), final frame 2 blocks</text>";

/// Changes of the mission, and what is told then.
pub const MISSION_CHANGES: &str = "[core]|[core|mission: not-toml -
channels = 5|channels = 2|mission: out-of-range core.channels
final = 2|last = 2|mission: unknown core
cycles = 7|cycles = 8|report: line 1
outputs = [\"b0.0\"]|outputs = [\"b0.0\", \"b0.1\"]|report: line 3
writes = [{ block = 0, w0 = \"b0.0 + 1\" }]|writes = [{ block = 0 }]|mission: missing task[0].writes[0]";

/// Three channels, two cycles, two outputs.
pub const QUIET: &str = "guards channels 3 cycles 2
cycle 0 active 0,1,2 transfer -
ch 0 in 1,2 vote 3,4 judged - alpha 0,0,0
trace 0 T
ch 1 in 1,2 vote 3,4 judged - alpha 0,0,0
trace 1 T
ch 2 in 1,2 vote 3,4 judged - alpha 0,0,0
trace 2 T
end removed - joined - remaining -
cycle 1 active 0,1,2 transfer -
ch 0 in 1,2 vote 3,5 judged - alpha 0,0,0
ch 1 in 1,2 vote 3,5 judged - alpha 0,0,0
ch 2 in 1,2 vote 3,5 judged - alpha 0,0,0
end removed - joined - remaining -
done 2
";

/// Changes of that report: the line that may not come then, what stands there, and what is written in its place.
pub const CHANGES: &str = "1|guards channels 3 cycles 2|guards channels 2 cycles 2
1|guards channels 3|guards  channels 3
2|cycle 0 active|cycle 1 active
3|ch 0 in 1,2 vote 3,4 judged - alpha 0,0,0|ch 0 in 1,2 vote 3,4 judged - alpha 0,0
4|trace 0 T|trace 0
5|ch 1 in 1,2 vote 3,4|ch 0 in 1,2 vote 3,4
5|ch 1 in 1,2 vote 3,4|ch 1 in 1,2 vote 3
10|cycle 1 active|cycle 2 active
11|ch 0 in 1,2 vote 3,5|ch 3 in 1,2 vote 3,5
15|done 2|done 3
16|done 2|done 2\\ndone 2";
