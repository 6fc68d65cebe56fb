//! Small cases of each call.

use guards_base::{Ballot, ChanSet, SourceWord};
use std::test::Fail;
use voter::{accusations, consolidate, vote};

// A ballot of one word.
fn one(word: i64) -> Option<Ballot> {
    Some(Ballot::of(&[word]))
}

// A source word with one sensor word.
fn sensed(word: i64) -> Option<SourceWord> {
    Some(SourceWord {
        width: 1,
        words: [word, 0, 0, 0],
        accuse: ChanSet::empty(),
        heard: [0; 7],
    })
}

// Two of four hold no majority, three do; a missing ballot counts in the active set, and the own ballot is judged too.
#[test]
fn votes(rt: HostRuntime) -> Result<(), Fail> {
    let four = ChanSet::below(4);
    let half = [one(5), one(5), one(9), None, None, None, None];
    let voted = vote(&half, four, 1);
    assert_eq!(rt; voted, [None; 8]);
    assert_eq!(rt; accusations(&half, four, &voted).mask(), 8);
    let most = [one(5), one(5), one(9), one(5), one(9), one(9), one(9)];
    let voted = vote(&most, four, 1);
    assert_eq!(rt; voted[0], Some(5));
    assert_eq!(rt; voted[1], None);
    assert_eq!(rt; accusations(&most, four, &voted).mask(), 4);
    Ok(())
}

// Of 1, 9, 9, 7 the second in order; 0 where there is none; the words of passive channels do not count.
#[test]
fn medians(rt: HostRuntime) -> Result<(), Fail> {
    let words = [
        sensed(1),
        sensed(9),
        sensed(9),
        sensed(7),
        sensed(-50),
        None,
        None,
    ];
    assert_eq!(rt; consolidate(&words, ChanSet::below(4), 1), [7, 0, 0, 0]);
    assert_eq!(rt; consolidate(&words, ChanSet::below(3), 1), [9, 0, 0, 0]);
    assert_eq!(rt; consolidate(&words, ChanSet::below(5), 1), [7, 0, 0, 0]);
    assert_eq!(rt; consolidate(&words, ChanSet::empty(), 2), [0; 4]);
    Ok(())
}
