//! Vote frames in the log of a bus.
use guards_base::Chan;
use guards_model::Slot;
use icn_bus::Entry;

// A vote frame with one word. Cycle and word are below 256.
#[derive(Clone, Copy)]
struct VoteFrame {
    version: u8,
    from: u8,
    cycle: u8,
    word: u8,
}

// The vote frame of four numbers: its version, its sender, its cycle and its word.
fn vote_of(text: &str) -> VoteFrame {
    let mut fields = text.split(' ');
    let version = fields
        .next()
        .and_then(|field| field.parse::<u8>().ok())
        .unwrap_or(0);
    let from = fields
        .next()
        .and_then(|field| field.parse::<u8>().ok())
        .unwrap_or(0);
    let cycle = fields
        .next()
        .and_then(|field| field.parse::<u8>().ok())
        .unwrap_or(0);
    let word = fields
        .next()
        .and_then(|field| field.parse::<u8>().ok())
        .unwrap_or(0);
    VoteFrame {
        version,
        from,
        cycle,
        word,
    }
}

// The bytes of a vote frame.
fn bytes_of(vote: &VoteFrame) -> [u8; 17] {
    let VoteFrame {
        version,
        from,
        cycle,
        word,
    } = *vote;
    [
        0x47, version, 3, from, 0, 0, 0, cycle, 1, 0, 0, 0, 0, 0, 0, 0, word,
    ]
}

fn is_vote_of(entry: &Entry, vote: &VoteFrame) -> bool {
    entry.cycle == u32::from(vote.cycle)
        && entry.slot == Slot::Vote
        && Some(entry.from) == Chan::new(vote.from)
}

// Whether the channel voted in that cycle, and only so.
fn is_sent(log: &[Entry], vote: &VoteFrame) -> bool {
    let bytes = bytes_of(vote);
    let mut is_found = false;
    for entry in log {
        if is_vote_of(entry, vote) {
            if entry.sent.as_slice() != bytes.as_slice() {
                return false;
            }
            is_found = true;
        }
    }
    is_found
}

/// Whether the vote frame of these four numbers was sent, and no other vote of its channel in its cycle.
pub fn is_told_sent(log: &[Entry], vote: &str) -> bool {
    is_sent(log, &vote_of(vote))
}
