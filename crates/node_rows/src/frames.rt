//! What is read off the frames of a node, as plain values. The frame ends with the call.
use crate::seen::Copied;
use guards_base::SourceWord;
use icn_frames::{Body, Copies, Frame, Item};

// The word of the first item.
fn first_of(items: &[Item]) -> Option<SourceWord> {
    items.first()?.word
}

// How many items there are, and the word of the last one.
fn last_of(items: &[Item]) -> Option<(usize, Option<i64>)> {
    match items.last()?.word {
        Some(word) => Some((items.len(), Some(word.words[0]))),
        None => Some((items.len(), None)),
    }
}

/// The own word of a frame of round 1.
pub fn own_word(frame: Option<Frame>) -> Option<SourceWord> {
    match &frame {
        Some(frame) => match &frame.body {
            Body::Exchange(exchange) => first_of(exchange.items.as_slice()),
            _ => None,
        },
        None => None,
    }
}

/// How many words a frame of the exchange has, and the last of them.
pub fn last_word(frame: Option<Frame>) -> Option<(usize, Option<i64>)> {
    match &frame {
        Some(frame) => match &frame.body {
            Body::Exchange(exchange) => last_of(exchange.items.as_slice()),
            _ => None,
        },
        None => None,
    }
}

/// The first word of a vote.
pub fn vote_in(frame: Option<Frame>) -> Option<i64> {
    match &frame {
        Some(frame) => match &frame.body {
            Body::Vote(ballot) => Some(ballot.words[0]),
            _ => None,
        },
        None => None,
    }
}

// The number of a copied block, if there is one at the place.
fn block_at(copies: &Copies, place: usize) -> Option<u8> {
    if place < copies.len() {
        let copy = copies.get(place);
        Some(copy.block)
    } else {
        None
    }
}

fn copied(start: u32, copies: &Copies) -> Copied {
    Copied {
        start,
        blocks: [block_at(copies, 0), block_at(copies, 1)],
    }
}

/// What a sweep frame copies.
pub fn swept(frame: Option<Frame>) -> Option<Copied> {
    match &frame {
        Some(frame) => match &frame.body {
            Body::Sweep(sweep) => Some(copied(sweep.start, &sweep.blocks)),
            _ => None,
        },
        None => None,
    }
}

/// What a final frame copies.
pub fn ended(frame: Option<Frame>) -> Option<Copied> {
    match &frame {
        Some(frame) => match &frame.body {
            Body::Final(last) => Some(copied(last.start, &last.blocks)),
            _ => None,
        },
        None => None,
    }
}

/// The mask of a switch frame.
pub fn switch_in(frame: Option<Frame>) -> Option<u8> {
    match &frame {
        Some(frame) => match &frame.body {
            Body::Switch(active) => Some(active.mask()),
            _ => None,
        },
        None => None,
    }
}

/// What a frame asks for, where it is a request.
pub fn asked(frame: Option<Frame>) -> Option<Option<u32>> {
    match &frame {
        Some(frame) => match &frame.body {
            Body::Request(have) => Some(*have),
            _ => None,
        },
        None => None,
    }
}
