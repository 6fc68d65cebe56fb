//! What several rows have in common, by its name: parts of texts, and entries of scripts.

/// The parts, with § between them: a name, what it is, and then its lines. In a text a line of several channels stands
/// for one of each.
const PARTS: &str = "sums: Four channels sum up fives.
cycle 0 active 0,1,2,3 transfer -
ch 0,1,2,3 in 5 vote 5 judged - alpha 0,0,0,0
end removed - joined - remaining -
cycle 1 active 0,1,2,3 transfer -
ch 0,1,2,3 in 5 vote 10 judged - alpha 0,0,0,0
end removed - joined - remaining -
§nine to two: Channel 3 sends channel 2 the word 9 in place of 7.
{ kind = 'forge', cycle = 0, slot = 'round1', from = 3, to = 2, bytes = '4701020300000000010101010000000000000009000000' },
§middle seven: The words are 1, 7, 9 and 9.
cycle 0 active 0,1,2,3 transfer -
ch 0,1,2,3 in 7 vote 7 judged - alpha 0,0,0,0
end removed - joined - remaining -
§nine to one: Channel 3 sends channel 1 the word 9 in place of 7.
{ kind = 'forge', cycle = 0, slot = 'round1', from = 3, to = 1, bytes = '4701020300000000010101010000000000000009000000' },
§middle nine: The words are 1, 9 and 9, and one is missing.
cycle 0 active 0,1,2,3 transfer -
ch 0,1,2,3 in 9 vote 9 judged 3 alpha 0,0,0,65536
end removed - joined - remaining -
§two disturbed: Channel 5 tells nothing. Channel 6 tells four others the word 100, and relays nothing.
{ kind = 'lose', cycle = 0, slot = 'round1', from = 5 },
{ kind = 'lose', cycle = 0, slot = 'round2', from = 5 },
{ kind = 'lose', cycle = 0, slot = 'round3', from = 5 },
{ kind = 'forge', cycle = 0, slot = 'round1', from = 6, to = 0, bytes = '4701020600000000010101010000000000000064000000' },
{ kind = 'forge', cycle = 0, slot = 'round1', from = 6, to = 1, bytes = '4701020600000000010101010000000000000064000000' },
{ kind = 'forge', cycle = 0, slot = 'round1', from = 6, to = 2, bytes = '4701020600000000010101010000000000000064000000' },
{ kind = 'forge', cycle = 0, slot = 'round1', from = 6, to = 3, bytes = '4701020600000000010101010000000000000064000000' },
{ kind = 'lose', cycle = 0, slot = 'round2', from = 6 },
{ kind = 'lose', cycle = 0, slot = 'round3', from = 6 },
§one silent: The silent channel alone is judged.
cycle 0 active 0,1,2,3,4,5,6 transfer -
ch 0,1,2,3,4,5,6 in 10 vote 10 judged 5 alpha 0,0,0,0,0,65536,0
end removed - joined - remaining -
§three silent: Channel 3 tells nothing in three cycles.
{ kind = 'lose', cycle = 0, slot = 'round1', from = 3 },
{ kind = 'lose', cycle = 3, slot = 'round1', from = 3 },
{ kind = 'lose', cycle = 4, slot = 'round1', from = 3 },
§multiplied: The count of channel 3 is halved in each cycle without a fault, and rounded down.
cycle 0 active 0,1,2,3,4 transfer -
ch 0,1,2,3,4 in 5 vote 1 judged 3 alpha 0,0,0,65536,0
end removed - joined - remaining -
cycle 1 active 0,1,2,3,4 transfer -
ch 0,1,2,3,4 in 5 vote 2 judged - alpha 0,0,0,32767,0
end removed - joined - remaining -
cycle 2 active 0,1,2,3,4 transfer -
ch 0,1,2,3,4 in 5 vote 3 judged - alpha 0,0,0,16383,0
end removed - joined - remaining -
cycle 3 active 0,1,2,3,4 transfer -
ch 0,1,2,3,4 in 5 vote 4 judged 3 alpha 0,0,0,81919,0
end removed - joined - remaining -
cycle 4 active 0,1,2,3,4 transfer -
ch 0,1,2,3,4 in 5 vote 5 judged 3 alpha 0,0,0,147455,0
end removed 3 joined - remaining -
§subtracted: The count of channel 3 falls by 16384 in each cycle without a fault.
cycle 0 active 0,1,2,3,4 transfer -
ch 0,1,2,3,4 in 5 vote 1 judged 3 alpha 0,0,0,65536,0
end removed - joined - remaining -
cycle 1 active 0,1,2,3,4 transfer -
ch 0,1,2,3,4 in 5 vote 2 judged - alpha 0,0,0,49152,0
end removed - joined - remaining -
cycle 2 active 0,1,2,3,4 transfer -
ch 0,1,2,3,4 in 5 vote 3 judged - alpha 0,0,0,32768,0
end removed - joined - remaining -
cycle 3 active 0,1,2,3,4 transfer -
ch 0,1,2,3,4 in 5 vote 4 judged 3 alpha 0,0,0,98304,0
end removed - joined - remaining -
cycle 4 active 0,1,2,3,4 transfer -
ch 0,1,2,3,4 in 5 vote 5 judged 3 alpha 0,0,0,163840,0
end removed 3 joined - remaining -
§three remain: Channel 0 is removed. Without channel 1 too, two would remain.
cycle 0 active 0,1,2,3 transfer -
ch 0,1,2,3 in 5 vote 5 judged - alpha 0,0,0,0
end removed - joined - remaining -
cycle 1 active 0,1,2,3 transfer -
ch 0,1,2,3 in 5 vote 10 judged 0,1 alpha 65536,65536,0,0
end removed 0 joined - remaining -
cycle 2 active 1,2,3 transfer -
ch 1,2,3 in 5 vote 15 judged - alpha 0,32768,0,0
end removed - joined - remaining -
§crash and return: Channel 4 crashes in the first cycle and restarts in the next.
{ kind = 'crash', cycle = 0, slot = 'request', channel = 4 },
{ kind = 'restart', cycle = 1, channel = 4 },
§away: Channel 4 is down, asks, and is removed.
cycle 0 active 0,1,2,3,4 transfer -
ch 0,1,2,3 in 5 vote 1 judged 4 alpha 0,0,0,0,65536
end removed - joined - remaining -
cycle 1 active 0,1,2,3,4 transfer -
ch 0,1,2,3 in 5 vote 2 judged 4 alpha 0,0,0,0,131072
end removed - joined - remaining -
cycle 2 active 0,1,2,3,4 transfer -
ch 0,1,2,3 in 5 vote 3 judged 4 alpha 0,0,0,0,196608
end removed 4 joined - remaining -
§first sweeps: Its blocks are swept.
cycle 3 active 0,1,2,3 transfer 4@3
ch 0,1,2,3 in 5 vote 4 judged - alpha 0,0,0,0,0
end removed - joined - remaining 6
cycle 4 active 0,1,2,3 transfer 4@3
ch 0,1,2,3 in 5 vote 5 judged - alpha 0,0,0,0,0
end removed - joined - remaining 3
§joined: Its last blocks are sent at once.
cycle 5 active 0,1,2,3 transfer 4@3
ch 0,1,2,3 in 5 vote 6 judged - alpha 0,0,0,0,0
end removed - joined 4 remaining 1
§five from 6: All five run again.
cycle 6 active 0,1,2,3,4 transfer -
ch 0,1,2,3,4 in 5 vote 7 judged - alpha 0,0,0,0,0
end removed - joined - remaining -
cycle 7 active 0,1,2,3,4 transfer -
ch 0,1,2,3,4 in 5 vote 8 judged - alpha 0,0,0,0,0
end removed - joined - remaining -
§five from 8: All five run on.
cycle 8 active 0,1,2,3,4 transfer -
ch 0,1,2,3,4 in 5 vote 9 judged - alpha 0,0,0,0,0
end removed - joined - remaining -
cycle 9 active 0,1,2,3,4 transfer -
ch 0,1,2,3,4 in 5 vote 10 judged - alpha 0,0,0,0,0
end removed - joined - remaining -
cycle 10 active 0,1,2,3,4 transfer -
ch 0,1,2,3,4 in 5 vote 11 judged - alpha 0,0,0,0,0
end removed - joined - remaining -
cycle 11 active 0,1,2,3,4 transfer -
ch 0,1,2,3,4 in 5 vote 12 judged - alpha 0,0,0,0,0
end removed - joined - remaining -
§joined at once: The transfer ends in the cycle of its start.
cycle 3 active 0,1,2,3 transfer 4@3
ch 0,1,2,3 in 5 vote 4 judged - alpha 0,0,0,0,0
end removed - joined 4 remaining 2
cycle 4 active 0,1,2,3,4 transfer -
ch 0,1,2,3,4 in 5 vote 5 judged - alpha 0,0,0,0,0
end removed - joined - remaining -
cycle 5 active 0,1,2,3,4 transfer -
ch 0,1,2,3,4 in 5 vote 6 judged - alpha 0,0,0,0,0
end removed - joined - remaining -
§started anew: The request of the restarted channel ends the transfer, and starts the next one.
cycle 5 active 0,1,2,3 transfer 4@5
ch 0,1,2,3 in 5 vote 6 judged - alpha 0,0,0,0,0
end removed - joined - remaining 6
cycle 6 active 0,1,2,3 transfer 4@5
ch 0,1,2,3 in 5 vote 7 judged - alpha 0,0,0,0,0
end removed - joined - remaining 3
cycle 7 active 0,1,2,3 transfer 4@5
ch 0,1,2,3 in 5 vote 8 judged - alpha 0,0,0,0,0
end removed - joined 4 remaining 1
§not whole: The channel that joined without a context is judged, removed and restored.
cycle 6 active 0,1,2,3,4 transfer -
ch 0,1,2,3 in 5 vote 7 judged 4 alpha 0,0,0,0,65536
end removed - joined - remaining -
cycle 7 active 0,1,2,3,4 transfer -
ch 0,1,2,3 in 5 vote 8 judged 4 alpha 0,0,0,0,131072
end removed 4 joined - remaining -
cycle 8 active 0,1,2,3 transfer 4@8
ch 0,1,2,3 in 5 vote 9 judged - alpha 0,0,0,0,0
end removed - joined - remaining 6
cycle 9 active 0,1,2,3 transfer 4@8
ch 0,1,2,3 in 5 vote 10 judged - alpha 0,0,0,0,0
end removed - joined - remaining 3
cycle 10 active 0,1,2,3 transfer 4@8
ch 0,1,2,3 in 5 vote 11 judged - alpha 0,0,0,0,0
end removed - joined 4 remaining 1
§damaged: Channel 2 is found by its votes, removed and restored.
cycle 0 active 0,1,2,3,4 transfer -
ch 0,1,2,3,4 in 5 vote 1 judged - alpha 0,0,0,0,0
end removed - joined - remaining -
cycle 1 active 0,1,2,3,4 transfer -
ch 0,1,2,3,4 in 5 vote 2 judged - alpha 0,0,0,0,0
end removed - joined - remaining -
cycle 2 active 0,1,2,3,4 transfer -
ch 0,1,2,3,4 in 5 vote 3 judged 2 alpha 0,0,65536,0,0
end removed - joined - remaining -
cycle 3 active 0,1,2,3,4 transfer -
ch 0,1,2,3,4 in 5 vote 4 judged 2 alpha 0,0,131072,0,0
end removed 2 joined - remaining -
cycle 4 active 0,1,3,4 transfer -
ch 0,1,3,4 in 5 vote 5 judged - alpha 0,0,0,0,0
end removed - joined - remaining -
cycle 5 active 0,1,3,4 transfer -
ch 0,1,3,4 in 5 vote 6 judged - alpha 0,0,0,0,0
end removed - joined - remaining -
cycle 6 active 0,1,3,4 transfer -
ch 0,1,3,4 in 5 vote 7 judged - alpha 0,0,0,0,0
end removed - joined - remaining -
cycle 7 active 0,1,3,4 transfer 2@7
ch 0,1,3,4 in 5 vote 8 judged - alpha 0,0,0,0,0
end removed - joined - remaining 6
cycle 8 active 0,1,3,4 transfer 2@7
ch 0,1,3,4 in 5 vote 9 judged - alpha 0,0,0,0,0
end removed - joined - remaining 3
cycle 9 active 0,1,3,4 transfer 2@7
ch 0,1,3,4 in 5 vote 10 judged - alpha 0,0,0,0,0
end removed - joined 2 remaining 1
cycle 10 active 0,1,2,3,4 transfer -
ch 0,1,2,3,4 in 5 vote 11 judged - alpha 0,0,0,0,0
end removed - joined - remaining -
§crash of two: Channels 5 and 6 crash in the first cycle and restart in the next.
{ kind = 'crash', cycle = 0, slot = 'request', channel = 5 },
{ kind = 'crash', cycle = 0, slot = 'request', channel = 6 },
{ kind = 'restart', cycle = 1, channel = 5 },
{ kind = 'restart', cycle = 1, channel = 6 },
§two away: Channels 5 and 6 are down, ask, and are removed.
cycle 0 active 0,1,2,3,4,5,6 transfer -
ch 0,1,2,3,4 in 5 vote 1 judged 5,6 alpha 0,0,0,0,0,65536,65536
end removed - joined - remaining -
cycle 1 active 0,1,2,3,4,5,6 transfer -
ch 0,1,2,3,4 in 5 vote 2 judged 5,6 alpha 0,0,0,0,0,131072,131072
end removed - joined - remaining -
cycle 2 active 0,1,2,3,4,5,6 transfer -
ch 0,1,2,3,4 in 5 vote 3 judged 5,6 alpha 0,0,0,0,0,196608,196608
end removed 5,6 joined - remaining -
§two swept: Both are swept at the same time.
cycle 3 active 0,1,2,3,4 transfer 5,6@3
ch 0,1,2,3,4 in 5 vote 4 judged - alpha 0,0,0,0,0,0,0
end removed - joined - remaining 6
cycle 4 active 0,1,2,3,4 transfer 5,6@3
ch 0,1,2,3,4 in 5 vote 5 judged - alpha 0,0,0,0,0,0,0
end removed - joined - remaining 3
§two joined: Both join.
cycle 5 active 0,1,2,3,4 transfer 5,6@3
ch 0,1,2,3,4 in 5 vote 6 judged - alpha 0,0,0,0,0,0,0
end removed - joined 5,6 remaining 1
cycle 6 active 0,1,2,3,4,5,6 transfer -
ch 0,1,2,3,4,5,6 in 5 vote 7 judged - alpha 0,0,0,0,0,0,0
end removed - joined - remaining -
cycle 7 active 0,1,2,3,4,5,6 transfer -
ch 0,1,2,3,4,5,6 in 5 vote 8 judged - alpha 0,0,0,0,0,0,0
end removed - joined - remaining -
cycle 8 active 0,1,2,3,4,5,6 transfer -
ch 0,1,2,3,4,5,6 in 5 vote 9 judged - alpha 0,0,0,0,0,0,0
end removed - joined - remaining -
§seven from 9: All seven run on.
cycle 9 active 0,1,2,3,4,5,6 transfer -
ch 0,1,2,3,4,5,6 in 5 vote 10 judged - alpha 0,0,0,0,0,0,0
end removed - joined - remaining -
cycle 10 active 0,1,2,3,4,5,6 transfer -
ch 0,1,2,3,4,5,6 in 5 vote 11 judged - alpha 0,0,0,0,0,0,0
end removed - joined - remaining -
cycle 11 active 0,1,2,3,4,5,6 transfer -
ch 0,1,2,3,4,5,6 in 5 vote 12 judged - alpha 0,0,0,0,0,0,0
end removed - joined - remaining -
§one dropped: Channel 6 is dropped from the transfer, and has one of its own later.
cycle 5 active 0,1,2,3,4 transfer 5@3
ch 0,1,2,3,4 in 5 vote 6 judged - alpha 0,0,0,0,0,0,0
end removed - joined 5 remaining 1
cycle 6 active 0,1,2,3,4,5 transfer -
ch 0,1,2,3,4,5 in 5 vote 7 judged - alpha 0,0,0,0,0,0,0
end removed - joined - remaining -
cycle 7 active 0,1,2,3,4,5 transfer -
ch 0,1,2,3,4,5 in 5 vote 8 judged - alpha 0,0,0,0,0,0,0
end removed - joined - remaining -
cycle 8 active 0,1,2,3,4,5 transfer -
ch 0,1,2,3,4,5 in 5 vote 9 judged - alpha 0,0,0,0,0,0,0
end removed - joined - remaining -
cycle 9 active 0,1,2,3,4,5 transfer 6@9
ch 0,1,2,3,4,5 in 5 vote 10 judged - alpha 0,0,0,0,0,0,0
end removed - joined - remaining 6
cycle 10 active 0,1,2,3,4,5 transfer 6@9
ch 0,1,2,3,4,5 in 5 vote 11 judged - alpha 0,0,0,0,0,0,0
end removed - joined - remaining 3
cycle 11 active 0,1,2,3,4,5 transfer 6@9
ch 0,1,2,3,4,5 in 5 vote 12 judged - alpha 0,0,0,0,0,0,0
end removed - joined 6 remaining 1
§one after the other: Each has a transfer of its own.
cycle 3 active 0,1,2,3,4 transfer 5@3
ch 0,1,2,3,4 in 5 vote 4 judged - alpha 0,0,0,0,0,0,0
end removed - joined - remaining 6
cycle 4 active 0,1,2,3,4 transfer 5@3
ch 0,1,2,3,4 in 5 vote 5 judged - alpha 0,0,0,0,0,0,0
end removed - joined - remaining 3
cycle 5 active 0,1,2,3,4 transfer 5@3
ch 0,1,2,3,4 in 5 vote 6 judged - alpha 0,0,0,0,0,0,0
end removed - joined 5 remaining 1
cycle 6 active 0,1,2,3,4,5 transfer 6@6
ch 0,1,2,3,4,5 in 5 vote 7 judged - alpha 0,0,0,0,0,0,0
end removed - joined - remaining 6
cycle 7 active 0,1,2,3,4,5 transfer 6@6
ch 0,1,2,3,4,5 in 5 vote 8 judged - alpha 0,0,0,0,0,0,0
end removed - joined - remaining 3
cycle 8 active 0,1,2,3,4,5 transfer 6@6
ch 0,1,2,3,4,5 in 5 vote 9 judged - alpha 0,0,0,0,0,0,0
end removed - joined 6 remaining 1
§filtered: A filter and what follows it.
cycle 0 active 0,1,2,3 transfer -
ch 0,1,2,3 in 80 vote 20,5 judged - alpha 0,0,0,0
end removed - joined - remaining -
cycle 1 active 0,1,2,3 transfer -
ch 0,1,2,3 in 120 vote 40,10 judged - alpha 0,0,0,0
end removed - joined - remaining -
cycle 2 active 0,1,2,3 transfer -
ch 0,1,2,3 in -40 vote 20,15 judged - alpha 0,0,0,0
end removed - joined - remaining -
cycle 3 active 0,1,2,3 transfer -
ch 0,1,2,3 in 80 vote 35,20 judged - alpha 0,0,0,0
end removed - joined - remaining -
cycle 4 active 0,1,2,3 transfer -
ch 0,1,2,3 in 120 vote 51,25 judged - alpha 0,0,0,0
end removed - joined - remaining -
cycle 5 active 0,1,2,3 transfer -
ch 0,1,2,3 in -40 vote 29,29 judged - alpha 0,0,0,0
end removed - joined - remaining -
cycle 6 active 0,1,2,3 transfer -
ch 0,1,2,3 in 80 vote 41,34 judged - alpha 0,0,0,0
end removed - joined - remaining -
cycle 7 active 0,1,2,3 transfer -
ch 0,1,2,3 in 120 vote 55,39 judged - alpha 0,0,0,0
end removed - joined - remaining -
cycle 8 active 0,1,2,3 transfer -
ch 0,1,2,3 in -40 vote 32,34 judged - alpha 0,0,0,0
end removed - joined - remaining -
§opened: A gate opens and shuts three times, and is counted.
cycle 0 active 0,1,2,3,4 transfer -
ch 0,1,2,3,4 in 1,1 vote 1,0 judged - alpha 0,0,0,0,0
end removed - joined - remaining -
cycle 1 active 0,1,2,3,4 transfer -
ch 0,1,2,3,4 in 0,1 vote 2,0 judged - alpha 0,0,0,0,0
end removed - joined - remaining -
cycle 2 active 0,1,2,3,4 transfer -
ch 0,1,2,3,4 in 0,0 vote 3,0 judged - alpha 0,0,0,0,0
end removed - joined - remaining -
cycle 3 active 0,1,2,3,4 transfer -
ch 0,1,2,3,4 in 1,1 vote 4,1 judged - alpha 0,0,0,0,0
end removed - joined - remaining -
cycle 4 active 0,1,2,3,4 transfer -
ch 0,1,2,3,4 in 0,1 vote 5,1 judged - alpha 0,0,0,0,0
end removed - joined - remaining -
cycle 5 active 0,1,2,3,4 transfer -
ch 0,1,2,3,4 in 0,0 vote 6,1 judged - alpha 0,0,0,0,0
end removed - joined - remaining -
cycle 6 active 0,1,2,3,4 transfer -
ch 0,1,2,3,4 in 1,1 vote 7,1 judged - alpha 0,0,0,0,0
end removed - joined - remaining -
cycle 7 active 0,1,2,3,4 transfer -
ch 0,1,2,3,4 in 0,1 vote 0,1 judged - alpha 0,0,0,0,0
end removed - joined - remaining -
cycle 8 active 0,1,2,3,4 transfer -
ch 0,1,2,3,4 in 0,0 vote 0,1 judged - alpha 0,0,0,0,0
end removed - joined - remaining -
cycle 9 active 0,1,2,3,4 transfer -
ch 0,1,2,3,4 in 1,1 vote 1,1 judged - alpha 0,0,0,0,0
end removed - joined - remaining -
cycle 10 active 0,1,2,3,4 transfer -
ch 0,1,2,3,4 in 0,1 vote 2,1 judged - alpha 0,0,0,0,0
end removed - joined - remaining -
cycle 11 active 0,1,2,3,4 transfer -
ch 0,1,2,3,4 in 0,0 vote 3,1 judged - alpha 0,0,0,0,0
end removed - joined - remaining -
cycle 12 active 0,1,2,3,4 transfer -
ch 0,1,2,3,4 in 1,1 vote 4,1 judged - alpha 0,0,0,0,0
end removed - joined - remaining -
cycle 13 active 0,1,2,3,4 transfer -
ch 0,1,2,3,4 in 0,1 vote 5,1 judged - alpha 0,0,0,0,0
end removed - joined - remaining -
cycle 14 active 0,1,2,3,4 transfer -
ch 0,1,2,3,4 in 0,0 vote 6,1 judged - alpha 0,0,0,0,0
end removed - joined - remaining -
cycle 15 active 0,1,2,3,4 transfer -
ch 0,1,2,3,4 in 1,1 vote 7,1 judged - alpha 0,0,0,0,0
end removed - joined - remaining -
cycle 16 active 0,1,2,3,4 transfer -
ch 0,1,2,3,4 in 0,1 vote 0,1 judged - alpha 0,0,0,0,0
end removed - joined - remaining -
cycle 17 active 0,1,2,3,4 transfer -
ch 0,1,2,3,4 in 0,0 vote 0,1 judged - alpha 0,0,0,0,0
end removed - joined - remaining -
cycle 18 active 0,1,2,3,4 transfer -
ch 0,1,2,3,4 in 1,1 vote 1,1 judged - alpha 0,0,0,0,0
end removed - joined - remaining -
cycle 19 active 0,1,2,3,4 transfer -
ch 0,1,2,3,4 in 0,1 vote 2,1 judged - alpha 0,0,0,0,0
end removed - joined - remaining -
cycle 20 active 0,1,2,3,4 transfer -
ch 0,1,2,3,4 in 0,0 vote 3,1 judged - alpha 0,0,0,0,0
end removed - joined - remaining -
cycle 21 active 0,1,2,3,4 transfer -
ch 0,1,2,3,4 in 1,1 vote 4,2 judged - alpha 0,0,0,0,0
end removed - joined - remaining -
cycle 22 active 0,1,2,3,4 transfer -
ch 0,1,2,3,4 in 0,1 vote 5,2 judged - alpha 0,0,0,0,0
end removed - joined - remaining -
cycle 23 active 0,1,2,3,4 transfer -
ch 0,1,2,3,4 in 0,0 vote 6,2 judged - alpha 0,0,0,0,0
end removed - joined - remaining -
§computed: Sums, products, quotients and remainders.
cycle 0 active 0,1,2,3,4,5,6 transfer -
ch 0,1,2,3,4,5,6 in 3,30,300,3000 vote 3,30,-300,0,0,0,0,0 judged - alpha 0,0,0,0,0,0,0
end removed - joined - remaining -
cycle 1 active 0,1,2,3,4,5,6 transfer -
ch 0,1,2,3,4,5,6 in 7,3,9,1 vote 10,33,-309,1,330,-28,1,0 judged - alpha 0,0,0,0,0,0,0
end removed - joined - remaining -
cycle 2 active 0,1,2,3,4,5,6 transfer -
ch 0,1,2,3,4,5,6 in 3,30,300,3000 vote 13,63,-609,6001,330,-28,1,0 judged - alpha 0,0,0,0,0,0,0
end removed - joined - remaining -
cycle 3 active 0,1,2,3,4,5,6 transfer -
ch 0,1,2,3,4,5,6 in 7,3,9,1 vote 20,66,-618,6004,1320,-29,5,-330 judged - alpha 0,0,0,0,0,0,0
end removed - joined - remaining -
cycle 4 active 0,1,2,3,4,5,6 transfer -
ch 0,1,2,3,4,5,6 in 3,30,300,3000 vote 23,96,-918,18004,1320,-29,5,-330 judged - alpha 0,0,0,0,0,0,0
end removed - joined - remaining -
cycle 5 active 0,1,2,3,4,5,6 transfer -
ch 0,1,2,3,4,5,6 in 7,3,9,1 vote 30,99,-927,18009,2970,-29,5,-1320 judged - alpha 0,0,0,0,0,0,0
end removed - joined - remaining -
cycle 6 active 0,1,2,3,4,5,6 transfer -
ch 0,1,2,3,4,5,6 in 3,30,300,3000 vote 33,129,-1227,36009,2970,-29,5,-1320 judged - alpha 0,0,0,0,0,0,0
end removed - joined - remaining -
cycle 7 active 0,1,2,3,4,5,6 transfer -
ch 0,1,2,3,4,5,6 in 7,3,9,1 vote 40,132,-1236,36016,5280,-30,1,-2970 judged - alpha 0,0,0,0,0,0,0
end removed - joined - remaining -
cycle 8 active 0,1,2,3,4,5,6 transfer -
ch 0,1,2,3,4,5,6 in 3,30,300,3000 vote 43,162,-1536,60016,5280,-30,1,-2970 judged - alpha 0,0,0,0,0,0,0
end removed - joined - remaining -
cycle 9 active 0,1,2,3,4,5,6 transfer -
ch 0,1,2,3,4,5,6 in 7,3,9,1 vote 50,165,-1545,60025,8250,-30,0,-5280 judged - alpha 0,0,0,0,0,0,0
end removed - joined - remaining -
";

/// The lines of the part with this name; nothing where there is none.
pub fn part(name: &str) -> &'static str {
    for it in PARTS.split('§') {
        let (head, lines) = it.split_once('\n').unwrap_or((it, ""));
        let (key, _) = head.split_once(':').unwrap_or((head, ""));
        if key == name {
            return lines;
        }
    }
    ""
}
