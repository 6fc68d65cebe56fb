//! The same run over the other kind of bus: what the scripted bus did to each entry, as a list of acts.
use guards_base::{Bytes, Slot};
use icn_bus::{Act, Acts, Entry};
use std::alloc::{AllocError, Global};

fn piece(delivered: &Option<Bytes>) -> Option<&[u8]> {
    match delivered {
        Some(bytes) => Some(bytes.as_slice()),
        None => None,
    }
}

fn act_of(alloc: Global, entry: &Entry) -> Result<Option<Act>, AllocError> {
    let Some(piece) = piece(&entry.delivered) else {
        return Ok(Some(Act::Lose));
    };
    if piece == entry.sent.as_slice() {
        return Ok(None);
    }
    Ok(Some(Act::Forge(Bytes::from_slice(alloc, piece)?)))
}

/// What was done to each entry of a log.
pub fn acts_of(alloc: Global, log: &[Entry]) -> Result<Acts, AllocError> {
    let mut acts = Acts::new(alloc);
    for entry in log {
        acts.push(act_of(alloc, entry)?)?;
    }
    Ok(acts)
}

// Whether the entries deliver the same. What a sweep frame holds depends on how steps interleave.
fn is_alike(one: &Entry, other: &Entry) -> bool {
    let same_carry = one.cycle == other.cycle
        && one.slot == other.slot
        && one.from == other.from
        && one.to == other.to;
    if one.slot == Slot::Sweep {
        return same_carry && one.delivered.is_some() == other.delivered.is_some();
    }
    same_carry && piece(&one.delivered) == piece(&other.delivered)
}

/// Whether the logs are entry by entry alike.
pub fn are_alike(one: &[Entry], other: &[Entry]) -> bool {
    let mut is_same = one.len() == other.len();
    for (entry, twin) in one.iter().zip(other) {
        is_same = is_same && is_alike(entry, twin);
    }
    is_same
}
