//! Missions in which channels are removed, restored and joined.
use crate::rows::Row;

/// The rounds of the mission in which channel 4 crashes and returns, cycle by cycle: the channels that work, and their
/// copies and writes.
pub const ROUNDS: &str = "trace 0,1,2,3 T
trace 0,1,2,3 T
trace 0,1,2,3 T
trace 0,1,2,3 SSST
trace 0,1,2,3 SSST
trace 0,1,2,3 SSST
trace 0,1,2,3,4 T
trace 0,1,2,3,4 T
trace 0,1,2,3,4 T
trace 0,1,2,3,4 T
trace 0,1,2,3,4 T
trace 0,1,2,3,4 T
";

/// The rows, with § between them. A channel that ran the cycle of its join again would vote 8 in cycle 6 in place of 7.
pub const ROWS: &str = "a channel crashes and returns
base COUNT
faults crash and return
done 12
carried 702
part away
part first sweeps
part joined
part five from 6
part five from 8
vote 1 4 6 7
§one silent sweep sender and a short final frame change nothing
base COUNT
faults crash and return
fault { kind = 'lose', cycle = 4, slot = 'sweep', from = 0 },
fault { kind = 'forge', cycle = 5, slot = 'final', from = 0, bytes = '00' },
done 12
carried 702
part away
part first sweeps
part joined
part five from 6
part five from 8
vote 1 4 6 7
§a join in the first cycle of the transfer
base COUNT
change blocks = 8|blocks = 2
change sweep = 3|sweep = 1
faults crash and return
done 12
carried 736
part away
part joined at once
part five from 6
part five from 8
vote 1 4 6 7
§a transfer that never fits
base COUNT
change cycles = 12|cycles = 53
change \"b0.0 + 1\" }|\"b0.0 + 1\" }, { block = 1, w0 = \"b1.0 + 1\" }, { block = 2, w0 = \"b2.0 + 1\" }, { block = 3, w0 = \"b3.0 + 1\" }
faults crash and return
done 53
carried 2564
line cycle 3 active 0,1,2,3 transfer 4@3
line end removed - joined - remaining 8
line end removed - joined - remaining 6
line end removed - joined - remaining 4
line cycle 6 active 0,1,2,3 transfer 4@3
line end removed - joined - remaining 4
line cycle 7 active 0,1,2,3 transfer 4@3
line end removed - joined - remaining 4
line cycle 29 active 0,1,2,3 transfer 4@3
line end removed - joined - remaining 4
line cycle 52 active 0,1,2,3 transfer 4@3
line ch 0,1,2,3 in 5 vote 53 judged - alpha 0,0,0,0,0
line end removed - joined - remaining 4
§a transfer is aborted and started anew
base COUNT
faults crash and return
fault { kind = 'crash', cycle = 3, slot = 'round1', channel = 4 },
fault { kind = 'restart', cycle = 4, channel = 4 },
done 12
carried 668
part away
part first sweeps
part started anew
part five from 8
§a channel joins that is not whole
base COUNT
change cycles = 12|cycles = 11
faults crash and return
fault { kind = 'crash', cycle = 4, slot = 'round1', channel = 4 },
fault { kind = 'restart', cycle = 5, channel = 4 },
done 11
carried 572
part away
part first sweeps
part joined
part not whole
§damage is found by votes
base COUNT
change cycles = 12|cycles = 11
change threshold = 6553600|threshold = 131072
fault { kind = 'damage', cycle = 1, channel = 2, block = 0, word = 0, value = 100 },
done 11
carried 597
part damaged
vote 1 2 1 101
vote 1 2 2 102
vote 1 2 3 103
vote 1 2 10 11
§a join with frames of version 2
base COUNT
change final = 2|final = 2¶version = 2¶decay = 'subtract'
faults crash and return
done 12
carried 702
part away
part first sweeps
part joined
part five from 6
part five from 8
vote 2 4 6 7
§two channels return in one transfer
base COUNT
change channels = 5|channels = 7
change [[5], [5], [5], [5], [5]]|[[5], [5], [5], [5], [5], [5], [5]]
change final = 2|final = 2¶returning = 2
faults crash of two
done 12
carried 1714
part two away
part two swept
part two joined
part seven from 9
vote 1 5 6 7
vote 1 6 6 7
§one of two is dropped from a transfer
base COUNT
change channels = 5|channels = 7
change [[5], [5], [5], [5], [5]]|[[5], [5], [5], [5], [5], [5], [5]]
change final = 2|final = 2¶returning = 2
faults crash of two
fault { kind = 'crash', cycle = 3, slot = 'round1', channel = 6 },
fault { kind = 'restart', cycle = 8, channel = 6 },
done 12
carried 1268
part two away
part two swept
part one dropped
§two channels return one after the other
base COUNT
change channels = 5|channels = 7
change [[5], [5], [5], [5], [5]]|[[5], [5], [5], [5], [5], [5], [5]]
faults crash of two
done 12
carried 1499
part two away
part one after the other
part seven from 9
";

/// The mission in which channel 4 crashes, is removed and joins again: the first row.
pub fn crash_and_return() -> Row<'static> {
    let (first, _) = ROWS.split_once('§').unwrap_or((ROWS, ""));
    Row::of(first)
}
