//! Missions in which channels agree on words, vote, judge and are removed.

/// The rows, with § between them.
pub const ROWS: &str = "two cycles without faults
base SUM
done 2
carried 80
part sums
vote 1 0 1 10
§a word that differs at one receiver is outvoted
base SUM
change [[5], [5], [5], [5]]|[[1], [9], [9], [7]]
change cycles = 2|cycles = 1
faults nine to two
done 1
carried 40
part middle seven
§a tie is agreed as missing
base SUM
change [[5], [5], [5], [5]]|[[1], [9], [9], [7]]
change cycles = 2|cycles = 1
faults nine to one
fault { kind = 'lose', cycle = 0, slot = 'round1', from = 3, to = 2 },
done 1
carried 40
part middle nine
§lost relays of one channel change nothing
base SUM
fault { kind = 'lose', cycle = 0, slot = 'round2', from = 1 },
done 2
carried 80
part sums
§a lost vote frame of one of four changes nothing
base SUM
fault { kind = 'lose', cycle = 0, slot = 'vote', from = 2, to = 0 },
done 2
carried 80
part sums
§a channel that is up is restarted in vain
base SUM
fault { kind = 'restart', cycle = 0, channel = 1 },
done 2
carried 80
part sums
§seven channels bear two disturbed ones
base SUM
change channels = 4|channels = 7
change [[5], [5], [5], [5]]|[[10], [10], [10], [10], [10], [10], [10]]
change cycles = 2|cycles = 1
faults two disturbed
done 1
carried 175
part one silent
§three disturbed of seven stop the run
base SUM
change channels = 4|channels = 7
change [[5], [5], [5], [5]]|[[10], [10], [10], [10], [10], [10], [10]]
change cycles = 2|cycles = 1
faults two disturbed
fault { kind = 'lose', cycle = 0, slot = 'vote', from = 4, to = 0 },
done 0
carried 168
said stop cycle 0 slot vote disturbed 4,5,6 active 0,1,2,3,4,5,6
§one disturbed of three stops the run
base SUM
change channels = 4|channels = 3
change [[5], [5], [5], [5]]|[[5], [5], [5]]
fault { kind = 'lose', cycle = 0, slot = 'vote', from = 2, to = 0 },
done 0
carried 12
said stop cycle 0 slot vote disturbed 2 active 0,1,2
§two disturbed of four stop the run in its first round
base SUM
fault { kind = 'lose', cycle = 0, slot = 'round1', from = 0, to = 1 },
fault { kind = 'lose', cycle = 0, slot = 'round1', from = 1, to = 0 },
done 0
carried 12
said stop cycle 0 slot round1 disturbed 0,1 active 0,1,2,3
§counts that decay are rounded down
base COUNT
change cycles = 12|cycles = 5
change threshold = 6553600|threshold = 131072¶keep = 32767
faults three silent
done 5
carried 325
part multiplied
§counts that decay by subtraction
base COUNT
change cycles = 12|cycles = 5
change threshold = 6553600|threshold = 131072¶keep = 32767
change keep = 32767|keep = 32767¶version = 2¶decay = 'subtract'¶decrement = 16384
faults three silent
done 5
carried 325
part subtracted
§three channels remain
base SUM
change cycles = 2|cycles = 3¶threshold = 65536
fault { kind = 'lose', cycle = 0, slot = 'vote', from = 1 },
fault { kind = 'lose', cycle = 1, slot = 'round1', from = 0 },
done 3
carried 95
part three remain
§the middle word is the input
base SUM
change [[5], [5], [5], [5]]|[[1], [9], [5], [7]]
done 2
carried 80
part sums
";
