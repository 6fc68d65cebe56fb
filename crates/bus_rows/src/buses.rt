use guards_base::{Bytes, Chan, ChanSet, Slot};
use icn_bus::{Act, Acts, Bus, MemBus, Rule, ScriptBus, Switchboard};
use std::alloc::Global;
use std::test::Fail;

const FORGED: [u8; 2] = [9, 9];

fn channel(number: u8) -> Result<Chan, Fail> {
    Ok(Chan::new(number).ok_or("a channel")?)
}

fn rule(from: u8, to: Option<u8>, act: Act) -> Result<Rule, Fail> {
    Ok(Rule {
        cycle: 3,
        slot: Slot::Vote,
        from: channel(from)?,
        to,
        act,
    })
}

/// Rules of one cycle and slot: a later rule that fits too does not decide.
fn rules(alloc: Global) -> Result<Vec<Rule>, Fail> {
    let forged = Act::Forge(Bytes::from_slice(alloc, &FORGED)?);
    let mut rules = Vec::new(alloc);
    rules.push(rule(0, Some(2), Act::Lose)?)?;
    rules.push(rule(0, None, forged)?)?;
    rules.push(rule(0, Some(1), Act::Lose)?)?;
    rules.push(rule(1, None, Act::Lose)?)?;
    Ok(rules)
}

/// What is delivered of the piece `[5]`.
fn carried<B: Bus>(
    bus: &mut B,
    cycle: u32,
    slot: Slot,
    from: u8,
    to: u8,
) -> Result<Option<Bytes>, Fail> {
    Ok(bus.carry(cycle, slot, channel(from)?, to, &[5])?)
}

fn is_piece(answer: &Option<Bytes>, wanted: Option<&[u8]>) -> bool {
    match (answer, wanted) {
        (None, None) => true,
        (Some(piece), Some(bytes)) => piece.as_slice() == bytes,
        _ => false,
    }
}

#[test]
fn first_fitting_rule_decides(rt: HostRuntime) -> Result<(), Fail> {
    let mut bus = ScriptBus::empty(rt.alloc());
    let rules = rules(rt.alloc())?;
    bus.load(rules.as_slice())?;
    let table: [(u32, Slot, u8, u8, Option<&[u8]>); 6] = [
        (3, Slot::Vote, 0, 2, None),
        (3, Slot::Vote, 0, 1, Some(&FORGED)),
        (3, Slot::Vote, 0, 7, Some(&FORGED)),
        (3, Slot::Vote, 1, 0, None),
        (3, Slot::Sweep, 0, 2, Some(&[5])),
        (4, Slot::Vote, 0, 2, Some(&[5])),
    ];
    for (cycle, slot, from, to, wanted) in table {
        let answer = carried(&mut bus, cycle, slot, from, to)?;
        assert!(rt; is_piece(&answer, wanted));
    }
    assert_eq!(rt; bus.log().len(), 6);
    bus.load(&[])?;
    let answer = carried(&mut bus, 3, Slot::Vote, 0, 2)?;
    assert!(rt; is_piece(&answer, Some(&[5])));
    assert_eq!(rt; bus.log().len(), 7);
    Ok(())
}

#[test]
fn acts_are_done_in_turn(rt: HostRuntime) -> Result<(), Fail> {
    let mut acts = Acts::new(rt.alloc());
    acts.push(None)?;
    acts.push(Some(Act::Lose))?;
    acts.push(Some(Act::Forge(Bytes::from_slice(rt.alloc(), &FORGED)?)))?;
    let mut bus = MemBus::new(rt.alloc(), acts);
    let rules = rules(rt.alloc())?;
    bus.load(rules.as_slice())?;
    let wanted: [Option<&[u8]>; 4] = [Some(&[5]), None, Some(&FORGED), Some(&[5])];
    for piece in wanted {
        let answer = carried(&mut bus, 3, Slot::Vote, 0, 2)?;
        assert!(rt; is_piece(&answer, piece));
    }
    assert_eq!(rt; bus.log().len(), 4);
    Ok(())
}

/// The set of the channels 1, 2 and 3.
fn sent() -> Option<ChanSet> {
    ChanSet::from_mask(0b1110)
}

#[test]
fn switches_by_more_than_half(rt: HostRuntime) -> Result<(), Fail> {
    let on = ChanSet::from_mask(0b1111).ok_or("a set")?;
    let mut board = Switchboard::new(on);
    let answer = board.close(&[sent(), sent(), sent(), None, None, None, None]);
    assert_eq!(rt; answer.mask(), 0b1110);
    assert_eq!(rt; board.on().mask(), 0b1110);
    let answer = board.close(&[None, sent(), None, None, None, None, None]);
    assert_eq!(rt; answer.mask(), 0);
    Ok(())
}

#[test]
fn half_is_not_enough(rt: HostRuntime) -> Result<(), Fail> {
    let on = ChanSet::from_mask(0b1111).ok_or("a set")?;
    let mut board = Switchboard::new(on);
    let answer = board.close(&[sent(), sent(), None, None, None, None, None]);
    assert_eq!(rt; answer.mask(), 0);
    Ok(())
}
