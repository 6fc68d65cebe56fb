//! Cycles of one control on agreed words that are handed in.
ghost use Rattle.std.specs.Prelude.{◌≡◌, true};
ghost use Rattle.guards_model.specs.Missions.{is_rules};

use alpha_count::{Alpha, Decay};
use context_blocks::BlockSet;
use control_state::{Control, Rules};
use guards_base::{ChanSet, Law, SourceWord};
use std::test::Fail;

// Five channels, eight blocks, three copies a cycle, two in the final frame.
fn rules() -> Rules
    ensures { is_rules result ≡ true }
{
    Rules {
        channels: 5,
        blocks: 8,
        version: 1,
        law: Law::Multiply,
        keep: 32_768,
        decrement: 32_768,
        threshold: 65_536,
        sweep: 3,
        last: 2,
        returning: 1,
    }
}

// Seven channels, two of which one transfer may restore.
fn wide_rules() -> Rules
    ensures { is_rules result ≡ true }
{
    Rules {
        channels: 7,
        blocks: 8,
        version: 2,
        law: Law::Subtract,
        keep: 32_768,
        decrement: 16_384,
        threshold: 131_072,
        sweep: 3,
        last: 2,
        returning: 2,
    }
}

// A word that accuses nobody and has a code for channel 4.
fn plain(code: Code) -> Option<SourceWord> {
    let heard = match code {
        Code::None => [0, 0, 0, 0, 0, 0, 0],
        Code::Asks => [0, 0, 0, 0, 1, 0, 0],
        Code::HasStart => [0, 0, 0, 0, 2, 0, 0],
    };
    Some(SourceWord {
        width: 1,
        words: [5, 0, 0, 0],
        accuse: ChanSet::empty(),
        heard,
    })
}

#[derive(Clone, Copy)]
enum Code {
    None,
    Asks,
    HasStart,
}

// The agreed words of channels 0 to 3, all with this code for channel 4.
fn four(code: Code) -> [Option<SourceWord>; 7] {
    [
        plain(code),
        plain(code),
        plain(code),
        plain(code),
        None,
        None,
        None,
    ]
}

// What a cycle decided and closed.
#[derive(PartialEq, Eq, Debug, Clone, Copy)]
struct Told {
    removed: u8,
    dropped: u8,
    started: bool,
    // The first block of the plan, if there is one.
    first: Option<u8>,
    joined: u8,
    remaining: Option<u16>,
}

// One cycle of a control.
fn cycle(
    control: &mut Control,
    rules: &Rules,
    number: u32,
    agreed: &[Option<SourceWord>; 7],
    written: &BlockSet,
) -> Told
    requires { is_rules rules.now ≡ true }
{
    let decision = control.decide(rules, number, agreed);
    let closed = control.close_cycle(rules, &decision, written);
    Told {
        removed: decision.removed.mask(),
        dropped: decision.dropped.mask(),
        started: decision.started,
        first: decision.plan.as_slice().first().copied(),
        joined: closed.joined.mask(),
        remaining: closed.remaining,
    }
}

// A cycle in which nobody is removed, dropped or joined.
fn copied(started: bool, first: u8, remaining: u16) -> Told {
    Told {
        removed: 0,
        dropped: 0,
        started,
        first: Some(first),
        joined: 0,
        remaining: Some(remaining),
    }
}

// Channel 4 is removed by its requests, restored in three cycles, and joins; its old request does not count.
#[test]
fn restores(rt: HostRuntime) -> Result<(), Fail> {
    let rules = rules();
    let mut written = BlockSet::empty();
    written.insert(0);
    let mut control = Control::first(&rules);
    assert_eq!(rt;
        cycle(&mut control, &rules, 2, &four(Code::Asks), &written).removed,
        16
    );
    let told = cycle(&mut control, &rules, 3, &four(Code::Asks), &written);
    assert_eq!(rt; told, copied(true, 0, 6));
    let told = cycle(&mut control, &rules, 4, &four(Code::Asks), &written);
    assert_eq!(rt; told, copied(false, 3, 3));
    let told = cycle(&mut control, &rules, 5, &four(Code::HasStart), &written);
    assert_eq!(rt;
        (told.first, told.joined, told.remaining),
        (Some(6), 16, Some(1))
    );
    let mut all = four(Code::Asks);
    all[4] = plain(Code::None);
    assert_eq!(rt; cycle(&mut control, &rules, 6, &all, &written).removed, 0);
    Ok(())
}

// In the cycle after the start code 1 will do; later the target is dropped and a new transfer starts.
#[test]
fn starts_again(rt: HostRuntime) -> Result<(), Fail> {
    let rules = rules();
    let mut written = BlockSet::empty();
    written.insert(0);
    written.insert(1);
    written.insert(2);
    let mut control = Control::first(&rules);
    assert_eq!(rt;
        cycle(&mut control, &rules, 0, &four(Code::Asks), &written).removed,
        16
    );
    let told = cycle(&mut control, &rules, 1, &four(Code::Asks), &written);
    assert_eq!(rt; told, copied(true, 0, 8));
    let told = cycle(&mut control, &rules, 2, &four(Code::Asks), &written);
    assert_eq!(rt; told, copied(false, 3, 5));
    let told = cycle(&mut control, &rules, 3, &four(Code::Asks), &written);
    assert_eq!(rt;
        (told.dropped, told.started, told.first),
        (16, true, Some(0))
    );
    Ok(())
}

// Two of four are judged by their missing words, and one goes: three stay.
#[test]
fn three_stay(rt: HostRuntime) -> Result<(), Fail> {
    let rules = rules();
    let written = BlockSet::empty();
    let mut control = Control::first(&rules);
    assert_eq!(rt;
        cycle(&mut control, &rules, 0, &four(Code::Asks), &written).removed,
        16
    );
    let two = [
        None,
        None,
        plain(Code::None),
        plain(Code::None),
        None,
        None,
        None,
    ];
    assert_eq!(rt; cycle(&mut control, &rules, 1, &two, &written).removed, 1);
    assert_eq!(rt; control.word(&rules).alphas, [0, 65_536, 0, 0, 0, 0, 0]);
    Ok(())
}

// A word of channels 0 to 3 in which three passive channels ask.
fn three_ask() -> Option<SourceWord> {
    Some(SourceWord {
        width: 1,
        words: [5, 0, 0, 0],
        accuse: ChanSet::empty(),
        heard: [0, 0, 0, 0, 1, 1, 1],
    })
}

// Of three passive channels that ask, the two lowest are restored, and the counts decay by the other law.
#[test]
fn two_return(rt: HostRuntime) -> Result<(), Fail> {
    let rules = wide_rules();
    let one = Alpha::zero().step(true, Decay::Subtract { decrement: 0 });
    let mut control = Control {
        active: ChanSet::below(4),
        alphas: [one; 7],
        fresh: ChanSet::empty(),
        transfer: None,
    };
    let told = cycle(
        &mut control,
        &rules,
        3,
        &[
            three_ask(),
            three_ask(),
            three_ask(),
            three_ask(),
            None,
            None,
            None,
        ],
        &BlockSet::empty(),
    );
    assert_eq!(rt; told, copied(true, 0, 5));
    let targets = match &control.transfer {
        None => 0,
        Some(transfer) => transfer.targets.mask(),
    };
    assert_eq!(rt; targets, 48);
    assert_eq!(rt;
        control.word(&rules).alphas,
        [49_152, 49_152, 49_152, 49_152, 0, 0, 0]
    );
    Ok(())
}

// Four channels, of which one is removed at its first error where three remain.
fn strict_rules() -> Rules
    ensures { is_rules result ≡ true }
{
    Rules {
        channels: 4,
        blocks: 1,
        version: 1,
        law: Law::Multiply,
        keep: 32_768,
        decrement: 32_768,
        threshold: 65_536,
        sweep: 16,
        last: 8,
        returning: 1,
    }
}

// A word that accuses channel 1.
fn accusing() -> Option<SourceWord> {
    Some(SourceWord {
        width: 1,
        words: [5, 0, 0, 0],
        accuse: ChanSet::of_flags(&[false, true, false, false, false, false, false]),
        heard: [0; 7],
    })
}

// In one cycle the word of channel 0 is missing and two words accuse channel 1, which accuses nobody. Both are judged
// and reach the threshold, but only 0 may go, since three remain then; in the next cycle the count of 1 falls to a
// half.
#[test]
fn two_candidates_of_four(rt: HostRuntime) -> Result<(), Fail> {
    let rules = strict_rules();
    let written = BlockSet::empty();
    let mut control = Control::first(&rules);
    let quiet = four(Code::None);
    assert_eq!(rt; cycle(&mut control, &rules, 0, &quiet, &written).removed, 0);
    assert_eq!(rt; control.word(&rules).alphas, [0; 7]);
    let errant = [
        None,
        plain(Code::None),
        accusing(),
        accusing(),
        None,
        None,
        None,
    ];
    let decision = control.decide(&rules, 1, &errant);
    assert_eq!(rt; decision.judged.mask(), 3);
    assert_eq!(rt; decision.removed.mask(), 1);
    assert_eq!(rt; control.alphas[0].units(), 65_536);
    assert_eq!(rt; control.alphas[1].units(), 65_536);
    assert_eq!(rt; control.alphas[2].units(), 0);
    let _ = control.close_cycle(&rules, &decision, &written);
    assert_eq!(rt; control.active.mask(), 14);
    assert_eq!(rt; control.word(&rules).alphas, [0, 65_536, 0, 0, 0, 0, 0]);
    let three = [
        None,
        plain(Code::None),
        plain(Code::None),
        plain(Code::None),
        None,
        None,
        None,
    ];
    assert_eq!(rt; cycle(&mut control, &rules, 2, &three, &written).removed, 0);
    assert_eq!(rt; control.word(&rules).alphas, [0, 32_768, 0, 0, 0, 0, 0]);
    Ok(())
}
