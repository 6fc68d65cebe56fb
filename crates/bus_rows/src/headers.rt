use icn_frames::decode;
use std::alloc::{AllocError, Global};
use std::test::Fail;

/// Whether the bytes are a frame's.
fn is_frame(alloc: Global, bytes: &[u8]) -> Result<bool, AllocError> {
    Ok(decode(alloc, bytes)?.is_some())
}

/// Whether the bytes are a frame's once one of them is changed.
fn is_frame_with(alloc: Global, bytes: &[u8], place: usize, byte: u8) -> Result<bool, AllocError> {
    let mut changed = Vec::from_slice(alloc, bytes)?;
    if let Some(at) = changed.get_mut(place) {
        *at = byte;
    }
    is_frame(alloc, changed.as_slice())
}

/// Whether the bytes are a frame's, and no more so with another first byte, version, kind or sender.
fn stands_by_its_header(alloc: Global, bytes: &[u8]) -> Result<bool, AllocError> {
    let stands = is_frame(alloc, bytes)?;
    let first = is_frame_with(alloc, bytes, 0, 0x46)?;
    let version = is_frame_with(alloc, bytes, 1, 3)?;
    let kind = is_frame_with(alloc, bytes, 2, 7)?;
    let sender = is_frame_with(alloc, bytes, 3, 7)?;
    Ok(stands && !first && !version && !kind && !sender)
}

const NOTHING_HELD: [u8; 9] = [0x47, 1, 1, 4, 0, 0, 0, 1, 0];

const START_HELD: [u8; 13] = [0x47, 1, 1, 4, 0, 0, 0, 4, 1, 0, 0, 0, 3];

const WORD_9: [u8; 23] = [
    0x47, 1, 2, 3, 0, 0, 0, 0, 1, 1, 1, 1, 0, 0, 0, 0, 0, 0, 0, 9, 0, 0, 0,
];

const WORD_100: [u8; 23] = [
    0x47, 1, 2, 6, 0, 0, 0, 0, 1, 1, 1, 1, 0, 0, 0, 0, 0, 0, 0, 100, 0, 0, 0,
];

const VOTE: [u8; 17] = [0x47, 1, 3, 0, 0, 0, 0, 1, 1, 0, 0, 0, 0, 0, 0, 0, 10];

const SWITCH: [u8; 9] = [0x47, 1, 6, 2, 0, 0, 0, 1, 0x0e];

/// The answers for the six worked frames.
fn answers(alloc: Global) -> Result<[bool; 6], AllocError> {
    Ok([
        stands_by_its_header(alloc, &NOTHING_HELD)?,
        stands_by_its_header(alloc, &START_HELD)?,
        stands_by_its_header(alloc, &WORD_9)?,
        stands_by_its_header(alloc, &WORD_100)?,
        stands_by_its_header(alloc, &VOTE)?,
        stands_by_its_header(alloc, &SWITCH)?,
    ])
}

#[test]
fn headers_are_looked_at(rt: HostRuntime) -> Result<(), Fail> {
    assert_eq!(rt; answers(rt.alloc())?, [true; 6]);
    Ok(())
}
