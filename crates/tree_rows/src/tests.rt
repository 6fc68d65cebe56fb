//! Trees of what was said, against what is settled by hand.
ghost use Rattle.std.specs.Prelude.{◌≡◌, IfOk, IfSome, IsTrue};
ghost use Rattle.guards_model.specs.Frames.{exchange_body, exchange_in_range};

use guards_base::{Chan, ChanSet, SourceWord};
use icn_frames::{Body, Exchange, Frame, Item, Items, Labels};
use oral_messages::{Path, Tree, rank};
use std::alloc::{AllocError, Global};
use std::process::Abort;
use std::test::Fail;

/// In a round a member tells this number for a path of one label less; None is a missing word.
#[derive(Clone, Copy)]
struct Saying {
    round: u8,
    from: u8,
    path: [u8; 2],
    number: Option<i64>,
}

fn told(round: u8, from: u8, path: [u8; 2], number: i64) -> Saying {
    Saying {
        round,
        from,
        path,
        number: Some(number),
    }
}

fn told_none(round: u8, from: u8, path: [u8; 2]) -> Saying {
    Saying {
        round,
        from,
        path,
        number: None,
    }
}

/// The word of a number. That of a number above 1,000 has two words, which is not the width of these missions.
fn word(number: i64) -> SourceWord {
    if number > 1000 {
        SourceWord {
            width: 2,
            words: [number, number, 0, 0],
            accuse: ChanSet::empty(),
            heard: [0; 7],
        }
    } else {
        SourceWord {
            width: 1,
            words: [number, 0, 0, 0],
            accuse: ChanSet::empty(),
            heard: [0; 7],
        }
    }
}

fn word_if(number: Option<i64>) -> Option<SourceWord> {
    match number {
        Some(number) => Some(word(number)),
        None => None,
    }
}

fn set_of(members: &[u8]) -> Result<ChanSet, Fail> {
    let mut set = ChanSet::empty();
    for member in members {
        set = set.with(Chan::new(*member).ok_or("a channel")?);
    }
    Ok(set)
}

fn labels(round: u8, path: [u8; 2]) -> Labels {
    let [a, b] = path;
    if round == 1 {
        Labels {
            count: 0,
            at: [0, 0],
        }
    } else if round == 2 {
        Labels {
            count: 1,
            at: [a, 0],
        }
    } else {
        Labels {
            count: 2,
            at: [a, b],
        }
    }
}

/// What a member tells in a round.
fn frame_of(alloc: Global, all: &[Saying], round: u8, from: u8) -> Result<Exchange, AllocError> {
    let mut items = Items::new(alloc);
    for one in all {
        if one.round == round && one.from == from {
            items.push(Item {
                path: labels(round, one.path),
                word: word_if(one.number),
            })?;
        }
    }
    Ok(Exchange { round, items })
}

/// The exchange of a frame.
fn exchange_of(frame: &Frame) -> Option<&Exchange>
    ensures { IfSome result (λ x. frame.now.body ≡ exchange_body x.now) }
{
    match &frame.body {
        Body::Exchange(exchange) => Some(exchange),
        _ => None,
    }
}

/// The exchange of a frame that has a spelling.
fn spelled(frame: &Frame) -> Option<&Exchange>
    ensures { IfSome result (λ x. IsTrue (exchange_in_range frame.now.sender x.now)) }
{
    if frame.in_range() {
        exchange_of(frame)
    } else {
        None
    }
}

/// Puts a frame, or none where it has no items, once it was asked whether it may be put.
fn hear(
    rt: &impl Abort,
    tree: &mut Tree,
    active: &ChanSet,
    me: &Chan,
    from: &Chan,
    exchange: Exchange,
) -> bool
    requires members { tree.old.members ≡ active.now }
    requires me { tree.old.me ≡ me.now }
    ensures members { tree.new.members ≡ active.now }
    ensures me { tree.new.me ≡ me.now }
{
    let round = exchange.round;
    let count = active.count();
    assert!(rt; active.has(*from));
    assert!(rt; from.index() != me.index());
    assert!(rt; count >= 1);
    assert!(rt; round >= 1);
    assert!(rt; round <= (count - 1) / 3 + 1);
    if exchange.items.len() == 0 {
        tree.put(round, *from, None);
        return true;
    }
    let frame = Frame {
        version: 1,
        sender: *from,
        cycle: 0,
        body: Body::Exchange(exchange),
    };
    match spelled(&frame) {
        Some(told) => {
            assert!(rt; told.round == round);
            tree.put(round, *from, Some(told));
            true
        }
        None => false,
    }
}

/// The tree of a member that was told all this.
fn tree_of(
    rt: &impl Abort,
    alloc: Global,
    active: &ChanSet,
    me: &Chan,
    own: i64,
    all: &[Saying],
) -> Result<Tree, Fail>
    ensures members { IfOk result (λ tree. tree.members ≡ active.now) }
    ensures me { IfOk result (λ tree. tree.me ≡ me.now) }
{
    assert!(rt; active.has(*me));
    assert!(rt; active.count() >= 3);
    let mut tree = Tree::begin(alloc, *me, *active, 1, word(own))?;
    for step in 0..21u8 {
        let round = step / 7 + 1;
        let from = Chan::new(step % 7).ok_or("a channel")?;
        let frame = frame_of(alloc, all, round, step % 7)?;
        if from != *me && active.has(from) && round <= (active.count() - 1) / 3 + 1 {
            assert!(rt; hear(rt, &mut tree, active, me, &from, frame));
        }
    }
    Ok(tree)
}

/// What the member settles for a channel.
fn settled(rt: &impl Abort, tree: &Tree, active: &ChanSet, source: &Chan) -> Option<SourceWord>
    requires { tree.now.members ≡ active.now }
{
    assert!(rt; active.has(*source));
    tree.resolve(*source)
}

/// The exchange that the member owes.
fn owed(
    rt: &impl Abort,
    alloc: Global,
    tree: &Tree,
    active: &ChanSet,
    round: u8,
) -> Result<Exchange, AllocError>
    requires { tree.now.members ≡ active.now }
{
    let count = active.count();
    assert!(rt; count >= 1);
    assert!(rt; round >= 1);
    assert!(rt; round <= (count - 1) / 3 + 1);
    tree.relay(alloc, round)
}

/// Whether the level of a round begins with these numbers, each of a word of one word.
fn begins_level(rt: &impl Abort, tree: &Tree, active: &ChanSet, round: u8, want: &[Option<i64>])
    requires { tree.now.members ≡ active.now }
{
    let count = active.count();
    assert!(rt; count >= 1);
    assert!(rt; round >= 1);
    assert!(rt; round <= (count - 1) / 3 + 1);
    let values = tree.level(round);
    assert!(rt; want.len() <= values.len());
    for place in 0..want.len() {
        assert_eq!(rt; values[place], word_if(want[place]));
    }
}

/// The member settles these numbers for these members, in order.
fn settles(
    rt: &impl Abort,
    alloc: Global,
    members: &[u8],
    me: u8,
    own: i64,
    all: &[Saying],
    want: &[(u8, Option<i64>)],
) -> Result<(), Fail> {
    let active = set_of(members)?;
    let me = Chan::new(me).ok_or("a channel")?;
    let tree = tree_of(rt, alloc, &active, &me, own, all)?;
    for (source, number) in want {
        let source = Chan::new(*source).ok_or("a channel")?;
        assert_eq!(rt; settled(rt, &tree, &active, &source), word_if(*number));
    }
    Ok(())
}

/// What channel 2 is told where channel 3 sent it 9 in place of 7: the sensors are 1, 9, 9, 7.
fn forged() -> [Saying; 12] {
    [
        told(1, 0, [0; 2], 1),
        told(1, 1, [0; 2], 9),
        told(1, 3, [0; 2], 9),
        told(2, 0, [1, 0], 9),
        told(2, 0, [2, 0], 9),
        told(2, 0, [3, 0], 7),
        told(2, 1, [0, 0], 1),
        told(2, 1, [2, 0], 9),
        told(2, 1, [3, 0], 7),
        told(2, 3, [0, 0], 1),
        told(2, 3, [1, 0], 9),
        told(2, 3, [2, 0], 9),
    ]
}

#[test]
fn four_members_settle(rt: HostRuntime) -> Result<(), Fail> {
    let alloc = rt.alloc();
    // Two of three branches outvote the direct word.
    settles(
        &rt,
        alloc,
        &[0, 1, 2, 3],
        2,
        9,
        &forged(),
        &[(0, Some(1)), (1, Some(9)), (2, Some(9)), (3, Some(7))],
    )?;
    // 7, 9 and missing: no value has two of three branches.
    settles(
        &rt,
        alloc,
        &[0, 1, 2, 3],
        1,
        9,
        &[
            told(1, 0, [0; 2], 1),
            told(1, 2, [0; 2], 9),
            told(1, 3, [0; 2], 9),
            told(2, 0, [1, 0], 9),
            told(2, 0, [2, 0], 9),
            told(2, 0, [3, 0], 7),
            told(2, 2, [0, 0], 1),
            told(2, 2, [1, 0], 9),
            told_none(2, 2, [3, 0]),
            told(2, 3, [0, 0], 1),
            told(2, 3, [1, 0], 9),
            told(2, 3, [2, 0], 9),
        ],
        &[(0, Some(1)), (1, Some(9)), (2, Some(9)), (3, None)],
    )?;
    // A member that lost all that it sent in round 2 is settled by the other two, and as a receiver it settles alike.
    settles(
        &rt,
        alloc,
        &[0, 1, 2, 3],
        1,
        5,
        &[
            told(1, 0, [0; 2], 5),
            told(1, 2, [0; 2], 5),
            told(1, 3, [0; 2], 5),
            told(2, 0, [1, 0], 5),
            told(2, 0, [2, 0], 5),
            told(2, 2, [0, 0], 5),
            told(2, 2, [1, 0], 5),
            told(2, 3, [1, 0], 5),
        ],
        &[(0, Some(5)), (1, Some(5)), (2, Some(5)), (3, None)],
    )?;
    Ok(())
}

#[test]
fn other_sets_settle(rt: HostRuntime) -> Result<(), Fail> {
    let alloc = rt.alloc();
    // Three members settle the direct words; a word of two words is missing.
    settles(
        &rt,
        alloc,
        &[1, 4, 6],
        4,
        7,
        &[told(1, 1, [0; 2], 5), told(1, 6, [0; 2], 2000)],
        &[(1, Some(5)), (4, Some(7)), (6, None)],
    )?;
    // Two of four are no majority. Channel 1 is no member: what is told of it counts nowhere.
    settles(
        &rt,
        alloc,
        &[0, 2, 3, 5, 6],
        0,
        1,
        &[
            told(1, 2, [0; 2], 5),
            told(1, 3, [0; 2], 4),
            told(2, 2, [3, 0], 4),
            told(2, 3, [1, 0], 8),
            told(2, 3, [2, 0], 5),
            told(2, 5, [3, 0], 4),
        ],
        &[(0, None), (2, None), (3, Some(4)), (5, None), (6, None)],
    )?;
    Ok(())
}

#[test]
fn a_tree_lends_its_levels_and_relays(rt: HostRuntime) -> Result<(), Fail> {
    let alloc = rt.alloc();
    let active = set_of(&[0, 1, 2, 3])?;
    let me = Chan::new(2).ok_or("a channel")?;
    let tree = tree_of(&rt, alloc, &active, &me, 9, &forged())?;
    begins_level(
        &rt,
        &tree,
        &active,
        1,
        &[Some(1), Some(9), Some(9), Some(9)],
    );
    begins_level(
        &rt,
        &tree,
        &active,
        2,
        &[Some(1), Some(1), Some(1), Some(9), Some(9)],
    );
    let want = [
        told(1, 2, [0; 2], 9),
        told(2, 2, [0, 0], 1),
        told(2, 2, [1, 0], 9),
        told(2, 2, [3, 0], 9),
    ];
    for round in 1..3u8 {
        let exchange = owed(&rt, alloc, &tree, &active, round)?;
        let wanted = frame_of(alloc, &want, round, 2)?;
        assert_eq!(rt; exchange.round, round);
        assert_eq!(rt; exchange.items.as_slice(), wanted.items.as_slice());
    }
    Ok(())
}

/// What member `from` of seven holds for the word of `a`: channel 5 sends nothing, and channel 6 sent 100 to
/// channels below 4 and 10 to the others.
fn held(from: u8, a: u8) -> Option<i64> {
    if a == 5 {
        None
    } else if a == 6 && from < 4 {
        Some(100)
    } else {
        Some(10)
    }
}

/// What channel 0 of these seven is told.
fn seven(alloc: Global) -> Result<Vec<Saying>, AllocError> {
    let mut all = Vec::new(alloc);
    for from in 1..7u8 {
        all.push(Saying {
            round: 1,
            from,
            path: [0; 2],
            number: if from == 5 { None } else { held(0, from) },
        })?;
    }
    for from in 1..5u8 {
        for a in 0..7u8 {
            if a != from {
                all.push(Saying {
                    round: 2,
                    from,
                    path: [a, 0],
                    number: held(from, a),
                })?;
            }
        }
    }
    for from in 1..5u8 {
        for place in 0..49u8 {
            let a = place / 7;
            let b = place % 7;
            if a != b && a != from && b != from {
                all.push(Saying {
                    round: 3,
                    from,
                    path: [a, b],
                    number: if b < 5 { held(b, a) } else { None },
                })?;
            }
        }
    }
    Ok(all)
}

#[test]
fn a_tree_of_seven_lends_its_levels_and_relays(rt: HostRuntime) -> Result<(), Fail> {
    let alloc = rt.alloc();
    let all = seven(alloc)?;
    let active = set_of(&[0, 1, 2, 3, 4, 5, 6])?;
    let me = Chan::new(0).ok_or("a channel")?;
    let tree = tree_of(&rt, alloc, &active, &me, 10, all.as_slice())?;
    // What 2, 3, 4, 5 and 6 say of what 1 says of 0, and then of what 2 says of it.
    let ten = Some(10);
    begins_level(
        &rt,
        &tree,
        &active,
        3,
        &[ten, ten, ten, None, None, ten, ten, ten, None, None],
    );
    let mut want = Vec::new(alloc);
    for place in 0..49u8 {
        let a = place / 7;
        let b = place % 7;
        if a != b && a != 0 && b != 0 {
            want.push(Saying {
                round: 3,
                from: 0,
                path: [a, b],
                number: if b < 5 { held(b, a) } else { None },
            })?;
        }
    }
    let exchange = owed(&rt, alloc, &tree, &active, 3)?;
    let wanted = frame_of(alloc, want.as_slice(), 3, 0)?;
    assert_eq!(rt; exchange.items.as_slice(), wanted.items.as_slice());
    assert!(rt; exchange.in_range(me));
    assert!(rt; !exchange.in_range(Chan::new(1).ok_or("a channel")?));
    Ok(())
}

/// Begins a later cycle in the tree of the cycle before.
fn begin_again(
    rt: &impl Abort,
    tree: &mut Tree,
    before: &ChanSet,
    active: &ChanSet,
    me: &Chan,
    own: i64,
)
    requires members { tree.old.members ≡ before.now }
    requires me { tree.old.me ≡ me.now }
    ensures { tree.new.members ≡ active.now }
{
    assert!(rt; active.has(*me));
    assert!(rt; active.count() >= 3);
    assert!(rt; active.count() <= before.count());
    tree.restart(*active, word(own));
}

#[test]
fn a_tree_is_overwritten(rt: HostRuntime) -> Result<(), Fail> {
    let alloc = rt.alloc();
    let all = seven(alloc)?;
    let before = set_of(&[0, 1, 2, 3, 4, 5, 6])?;
    let active = set_of(&[0, 2, 3, 5, 6])?;
    let me = Chan::new(0).ok_or("a channel")?;
    let mut tree = tree_of(&rt, alloc, &before, &me, 10, all.as_slice())?;
    begin_again(&rt, &mut tree, &before, &active, &me, 7);
    begins_level(&rt, &tree, &active, 1, &[Some(7), None, None, None, None]);
    begins_level(&rt, &tree, &active, 2, &[None; 20]);
    Ok(())
}

#[test]
fn seven_members_settle(rt: HostRuntime) -> Result<(), Fail> {
    let alloc = rt.alloc();
    let all = seven(alloc)?;
    settles(
        &rt,
        alloc,
        &[0, 1, 2, 3, 4, 5, 6],
        0,
        10,
        all.as_slice(),
        &[
            (0, Some(10)),
            (1, Some(10)),
            (2, Some(10)),
            (3, Some(10)),
            (4, Some(10)),
            (5, None),
            (6, Some(100)),
        ],
    )
}

/// The rank of a path of three labels, where they are members and differ.
fn rank_of(active: &ChanSet, a: &Chan, b: &Chan, c: &Chan) -> Option<u16> {
    let x = a.index();
    let y = b.index();
    let z = c.index();
    if active.has(*a) && active.has(*b) && active.has(*c) {
        if x != y && x != z && y != z {
            return Some(rank(
                *active,
                &Path {
                    count: 3,
                    at: [x, y, z],
                },
            ));
        }
    }
    None
}

#[test]
fn paths_of_seven_have_ranks(rt: HostRuntime) -> Result<(), Fail> {
    let active = set_of(&[0, 1, 2, 3, 4, 5, 6])?;
    let mut place = 0u16;
    for labels in 0..343u16 {
        let a = Chan::new((labels / 49) as u8).ok_or("a channel")?;
        let b = Chan::new((labels / 7 % 7) as u8).ok_or("a channel")?;
        let c = Chan::new((labels % 7) as u8).ok_or("a channel")?;
        if a != b && a != c && b != c {
            assert_eq!(rt; rank_of(&active, &a, &b, &c), Some(place));
            place = place.wrapping_add(1);
        }
    }
    assert_eq!(rt; place, 210);
    Ok(())
}
