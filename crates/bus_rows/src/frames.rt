ghost use Rattle.std.specs.Prelude.{◌≡◌};

use guards_base::{Bytes, Chan, ChanSet, Law};
use icn_frames::{
    BlockCopy, Body, ControlWord, Copies, Exchange, FinalBody, Finals, Frame, Item, Items, Labels,
    SweepBody, Sweeps, decode, encode,
};
use std::alloc::Global;
use std::test::*;

const REQUEST: [u8; 9] = [0x47, 1, 1, 4, 0, 0, 0, 1, 0];

const REQUEST_HELD: [u8; 13] = [0x47, 1, 1, 4, 0, 0, 0, 4, 1, 0, 0, 0, 3];

const ROUND1: [u8; 23] = [
    0x47, 1, 2, 3, 0, 0, 0, 0, 1, 1, 1, 1, 0, 0, 0, 0, 0, 0, 0, 9, 0, 0, 0,
];

const VOTE: [u8; 17] = [0x47, 1, 3, 0, 0, 0, 0, 1, 1, 0, 0, 0, 0, 0, 0, 0, 10];

const SWITCH: [u8; 9] = [0x47, 1, 6, 2, 0, 0, 0, 1, 0x0e];

/// Whether the bytes are a frame's, and its spelling is these bytes again.
fn is_frame(alloc: Global, bytes: &[u8]) -> Result<bool, Fail> {
    match decode(alloc, bytes)? {
        None => Ok(false),
        Some(frame) => {
            let again = encode(alloc, &frame)?;
            Ok(again.as_slice() == bytes)
        }
    }
}

/// Whether the bytes are a frame's, and neither a proper prefix of them nor they with a byte more are.
fn is_alone(alloc: Global, bytes: &[u8]) -> Result<bool, Fail> {
    for len in 0..bytes.len() {
        if is_frame(alloc, &bytes[..len])? {
            return Ok(false);
        }
    }
    let mut longer = Bytes::from_slice(alloc, bytes)?;
    longer.push(0)?;
    Ok(is_frame(alloc, bytes)? && !is_frame(alloc, longer.as_slice())?)
}

#[test]
fn frames_of_known_bytes(rt: HostRuntime) -> Result<(), Fail> {
    assert!(rt; is_alone(rt.alloc(), &REQUEST)?);
    assert!(rt; is_alone(rt.alloc(), &REQUEST_HELD)?);
    assert!(rt; is_alone(rt.alloc(), &ROUND1)?);
    assert!(rt; is_alone(rt.alloc(), &VOTE)?);
    assert!(rt; is_alone(rt.alloc(), &SWITCH)?);
    Ok(())
}

#[test]
fn fields_of_known_bytes(rt: HostRuntime) -> Result<(), Fail> {
    let request = decode(rt.alloc(), &REQUEST_HELD)?.ok_or("a request")?;
    assert_eq!(rt; request.version, 1);
    assert_eq!(rt; request.sender.index(), 4);
    assert_eq!(rt; request.cycle, 4);
    assert!(rt; matches!(request.body, Body::Request(Some(3))));
    let switch = decode(rt.alloc(), &SWITCH)?.ok_or("a switch frame")?;
    match &switch.body {
        Body::Switch(active) => assert_eq!(rt; active.mask(), 0x0e),
        _ => return Err(Fail::from("a switch body")),
    }
    Ok(())
}

#[test]
fn bytes_of_no_frame(rt: HostRuntime) -> Result<(), Fail> {
    assert!(rt; !is_frame(rt.alloc(), &[])?);
    assert!(rt; !is_frame(rt.alloc(), &[0x46, 1, 1, 4, 0, 0, 0, 1, 0])?);
    assert!(rt; !is_frame(rt.alloc(), &[0x47, 1, 1, 4, 0, 0, 0, 1, 2])?);
    assert!(rt; !is_frame(rt.alloc(), &[0x47, 1, 6, 2, 0, 0, 0, 1, 0x8e])?);
    assert!(rt; !is_frame(rt.alloc(), &[0x47, 1, 3, 0, 0, 0, 0, 1, 0])?);
    assert!(rt; !is_frame(rt.alloc(), &[0x47, 3, 1, 4, 0, 0, 0, 1, 0])?);
    // A version, a kind and a sender past the last ones.
    assert!(rt; !is_frame(rt.alloc(), &[0x47, 0, 1, 4, 0, 0, 0, 1, 0])?);
    assert!(rt; !is_frame(rt.alloc(), &[0x47, 1, 7, 4, 0, 0, 0, 1, 0])?);
    assert!(rt; !is_frame(rt.alloc(), &[0x47, 1, 1, 7, 0, 0, 0, 1, 0])?);
    // Round 2 with two items of one label, and then of two.
    assert!(rt; !is_frame(rt.alloc(), &[0x47, 1, 2, 3, 0, 0, 0, 0, 2, 2, 1, 0, 1, 0])?);
    assert!(rt; is_frame(rt.alloc(), &[0x47, 1, 2, 3, 0, 0, 0, 0, 2, 2, 1, 0, 2, 0])?);
    Ok(())
}

#[test]
fn frames_of_version_2(rt: HostRuntime) -> Result<(), Fail> {
    let request = [0x47, 2, 1, 4, 0, 0, 0, 1, 0];
    assert!(rt; is_alone(rt.alloc(), &request)?);
    let mut bytes = Bytes::from_slice(
        rt.alloc(),
        &[0x47, 2, 5, 0, 0, 0, 0, 5, 4, 0, 0, 0, 3, 0, 2, 0x1f, 0x10],
    )?;
    bytes.append(&[0; 28])?;
    assert!(rt; is_alone(rt.alloc(), bytes.as_slice())?);
    let last = decode(rt.alloc(), bytes.as_slice())?.ok_or("a final frame")?;
    match last.body {
        Body::Final(last) => {
            assert_eq!(rt; last.control.law, Law::Subtract);
            assert_eq!(rt; last.blocks.len(), 0);
        }
        _ => return Err(Fail::from("a final body")),
    }
    Ok(())
}

/// Appends so many copies of blocks that hold zeros, with ascending numbers.
fn push_copies(bytes: &mut Bytes, count: u8) -> Result<(), Fail> {
    for block in 0..count {
        bytes.push(block)?;
        bytes.append(&[0; 64])?;
    }
    Ok(())
}

#[test]
fn longest_sweep_frame(rt: HostRuntime) -> Result<(), Fail> {
    let mut bytes = Bytes::from_slice(rt.alloc(), &[0x47, 1, 4, 0, 0, 0, 0, 5, 4, 0, 0, 0, 3, 64])?;
    push_copies(&mut bytes, 64)?;
    assert_eq!(rt; bytes.len(), 4174);
    assert!(rt; is_frame(rt.alloc(), bytes.as_slice())?);
    Ok(())
}

#[test]
fn longest_final_frames(rt: HostRuntime) -> Result<(), Fail> {
    let header = [0x47, 1, 5, 0, 0, 0, 0, 5, 4, 0, 0, 0, 3, 64];
    let mut bytes = Bytes::from_slice(rt.alloc(), &header)?;
    push_copies(&mut bytes, 64)?;
    bytes.append(&[0; 30])?;
    assert_eq!(rt; bytes.len(), 4204);
    assert!(rt; is_frame(rt.alloc(), bytes.as_slice())?);
    let header = [0x47, 2, 5, 0, 0, 0, 0, 5, 4, 0, 0, 0, 3, 64];
    let mut bytes = Bytes::from_slice(rt.alloc(), &header)?;
    push_copies(&mut bytes, 64)?;
    bytes.push(1)?;
    bytes.append(&[0; 30])?;
    assert_eq!(rt; bytes.len(), 4205);
    assert!(rt; is_frame(rt.alloc(), bytes.as_slice())?);
    Ok(())
}

#[test]
fn longest_exchange_frame(rt: HostRuntime) -> Result<(), Fail> {
    let mut bytes = Bytes::from_slice(rt.alloc(), &[0x47, 1, 2, 0, 0, 0, 0, 5, 3, 30])?;
    for first in 1..7u8 {
        for second in 1..7u8 {
            if first != second {
                bytes.append(&[first, second, 1, 4])?;
                bytes.append(&[0; 35])?;
            }
        }
    }
    assert_eq!(rt; bytes.len(), 1180);
    assert!(rt; is_frame(rt.alloc(), bytes.as_slice())?);
    Ok(())
}

/// A final frame without copies.
fn final_frame(alloc: Global, version: u8, law: Law) -> Result<Frame, Fail> {
    let sender = Chan::new(0).ok_or("a channel")?;
    let target = Chan::new(4).ok_or("a channel")?;
    let control = ControlWord {
        law,
        active: ChanSet::empty(),
        fresh: ChanSet::empty(),
        alphas: [16_777_216; 7],
    };
    let body = Body::Final(FinalBody {
        target,
        start: 3,
        blocks: Copies::new(alloc),
        control,
    });
    Ok(Frame {
        version,
        sender,
        cycle: 5,
        body,
    })
}

#[test]
fn laws_of_versions(rt: HostRuntime) -> Result<(), Fail> {
    assert!(rt; final_frame(rt.alloc(), 1, Law::Multiply)?.in_range());
    assert!(rt; !final_frame(rt.alloc(), 1, Law::Subtract)?.in_range());
    assert!(rt; final_frame(rt.alloc(), 2, Law::Subtract)?.in_range());
    assert!(rt; !final_frame(rt.alloc(), 3, Law::Multiply)?.in_range());
    Ok(())
}
