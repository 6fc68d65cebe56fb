//! Sweep frames and final frames that one replica is handed, and what it takes of them.
ghost use Rattle.std.specs.Prelude.{◌≡◌, true, IfOk, OnOk};
ghost use Rattle.std.specs.List.{list_all};
ghost use Rattle.guards_model.specs.Frames.{counts_in_range};

use context_blocks::{Block, Context};
use control_state::Control;
use guards_base::{Chan, ChanSet, Law};
use icn_frames::{BlockCopy, ControlWord, Copies, FinalBody, Finals, SweepBody, Sweeps};
use join_vote::Replica;
use std::alloc::{AllocError, Global};
use std::test::Fail;

// The channel that returns.
fn target() -> Chan {
    Chan::new(4).unwrap()
}

// What a frame says: the start of the transfer, and the word that fills block 0 and block 2, where it has them.
#[derive(Clone, Copy)]
struct Said {
    start: u32,
    first: Option<i64>,
    last: Option<i64>,
}

// A frame of this start with block 2 alone.
fn last(start: u32, word: i64) -> Said {
    Said {
        start,
        first: None,
        last: Some(word),
    }
}

fn copies(alloc: Global, said: &Said) -> Result<Copies, AllocError> {
    let mut copies = Copies::new(alloc);
    for (block, word) in [(0, said.first), (2, said.last)] {
        if let Some(word) = word {
            copies.push(BlockCopy {
                block,
                words: Block { words: [word; 8] },
            })?;
        }
    }
    Ok(copies)
}

fn sweeps(alloc: Global, frames: &[Said]) -> Result<Sweeps, AllocError> {
    let mut sweeps = Sweeps::new(alloc);
    for said in frames {
        sweeps.push(SweepBody {
            target: target(),
            start: said.start,
            blocks: copies(alloc, said)?,
        })?;
    }
    Ok(sweeps)
}

fn word_of(context: &Context, block: u8) -> i64 {
    if u16::from(block) < context.len() {
        context.get(block).words[7]
    } else {
        0
    }
}

// The last word of each of three blocks.
fn words_of(context: &Context) -> [i64; 3] {
    [
        word_of(context, 0),
        word_of(context, 1),
        word_of(context, 2),
    ]
}

// A replica of three blocks that took 7 and 8 in blocks 0 and 2 of the transfer that started in cycle 3.
fn begun(alloc: Global) -> Result<Replica, AllocError> {
    let mut replica = Replica::empty(alloc, target(), 3)?;
    let said = Said {
        start: 3,
        first: Some(7),
        last: Some(8),
    };
    replica.take_sweep(3, &sweeps(alloc, &[said])?);
    Ok(replica)
}

// Of each case the sweep frames of cycle 4, and then the start and the words that the replica has after them.
#[test]
fn blocks_are_taken_by_majority(rt: HostRuntime) -> Result<(), Fail> {
    let nine = last(3, 9);
    let ten = last(3, 10);
    let other = Said {
        start: 3,
        first: Some(5),
        last: None,
    };
    let stale = last(2, 9);
    let new = last(4, 9);
    let table: [(&str, &[Said], u32, [i64; 3]); 10] = [
        ("no frame", &[], 3, [7, 0, 8]),
        ("one", &[nine], 3, [7, 0, 9]),
        ("two that differ", &[nine, ten], 3, [7, 0, 8]),
        ("two of three agree", &[ten, nine, nine], 3, [7, 0, 9]),
        ("a block in half", &[nine, nine, other, other], 3, [7, 0, 8]),
        ("a start in half", &[nine, new], 3, [7, 0, 8]),
        ("an old start", &[stale, stale, nine], 3, [7, 0, 8]),
        (
            "most of one start",
            &[nine, nine, other, stale, stale],
            3,
            [7, 0, 8],
        ),
        ("a new start", &[new, new, nine], 4, [0, 0, 9]),
        ("a new start alone", &[new, last(4, 10)], 4, [0, 0, 0]),
    ];
    for (says, frames, have, words) in table {
        let mut replica = begun(rt.alloc())?;
        replica.take_sweep(4, &sweeps(rt.alloc(), frames)?);
        assert_eq!(rt; replica.have(), Some(have), "{says}");
        let context = replica.into_context();
        assert_eq!(rt; words_of(&context), words, "{says}");
    }
    Ok(())
}

// A replica that has no start takes none but that of the running cycle.
#[test]
fn nothing_is_taken_before_a_start(rt: HostRuntime) -> Result<(), Fail> {
    let mut replica = Replica::empty(rt.alloc(), target(), 3)?;
    assert_eq!(rt; replica.have(), None);
    let late = sweeps(rt.alloc(), &[last(3, 9), last(3, 9)])?;
    replica.take_sweep(4, &late);
    assert_eq!(rt; replica.have(), None);
    let context = replica.into_context();
    assert_eq!(rt; words_of(&context), [0; 3]);
    Ok(())
}

// A final frame: what it says of blocks, and in its control word the law and the count of channel 0.
#[derive(Clone, Copy)]
struct Final {
    said: Said,
    law: Law,
    count: u16,
}

fn control_of(frame: &Final) -> ControlWord
    ensures { counts_in_range result.counts ≡ true }
{
    ControlWord {
        law: frame.law,
        active: ChanSet::below(5),
        fresh: ChanSet::empty(),
        alphas: [u32::from(frame.count), 0, 0, 0, 0, 0, 0],
    }
}

fn push_final(alloc: Global, finals: &mut Finals, frame: &Final) -> Result<(), AllocError>
    requires { list_all (λ content. counts_in_range content.control.counts) finals.old.items ≡ true }
    ensures { OnOk result (list_all (λ content. counts_in_range content.control.counts) finals.new.items ≡ true) }
{
    finals.push(FinalBody {
        target: target(),
        start: frame.said.start,
        blocks: copies(alloc, &frame.said)?,
        control: control_of(frame),
    })
}

fn finals(alloc: Global, frames: &[Final]) -> Result<Finals, AllocError>
    ensures { IfOk result (λ finals. list_all (λ content. counts_in_range content.control.counts) finals.items ≡ true) }
{
    let mut finals = Finals::new(alloc);
    for frame in frames {
        push_final(alloc, &mut finals, frame)?;
    }
    Ok(finals)
}

// The count of channel 0 in the control that is answered, if one is.
fn count_of(control: &Option<Control>) -> Option<u32> {
    match control {
        Some(control) => Some(control.alphas[0].units()),
        None => None,
    }
}

// Of each case the final frames of a cycle, the count of channel 0 that is answered, if any, and the words after it.
#[test]
fn contents_are_taken_by_majority(rt: HostRuntime) -> Result<(), Fail> {
    let frame = Final {
        said: last(3, 9),
        law: Law::Multiply,
        count: 100,
    };
    let blocks = Final {
        said: last(3, 10),
        ..frame
    };
    let old = Final {
        said: last(2, 9),
        ..frame
    };
    let counted = Final {
        count: 101,
        ..frame
    };
    let lawful = Final {
        law: Law::Subtract,
        ..frame
    };
    let kept = [7, 0, 8];
    let table: [(&str, &[Final], Option<u32>, [i64; 3]); 9] = [
        ("no frame", &[], None, kept),
        ("one", &[frame], Some(100), [7, 0, 9]),
        ("different blocks", &[frame, blocks], None, kept),
        ("two of three are old", &[old, old, frame], None, kept),
        (
            "two of three agree",
            &[blocks, frame, frame],
            Some(100),
            [7, 0, 9],
        ),
        ("half agree", &[frame, frame, blocks, old], None, kept),
        ("another count", &[frame, counted], None, kept),
        (
            "two of three count",
            &[frame, counted, counted],
            Some(101),
            [7, 0, 9],
        ),
        ("another law", &[frame, lawful], None, kept),
    ];
    for (says, frames, count, words) in table {
        let mut replica = begun(rt.alloc())?;
        let control = replica.take_final(&finals(rt.alloc(), frames)?);
        assert_eq!(rt; count_of(&control), count, "{says}");
        assert_eq!(rt; replica.have(), Some(3), "{says}");
        let context = replica.into_context();
        assert_eq!(rt; words_of(&context), words, "{says}");
    }
    Ok(())
}
