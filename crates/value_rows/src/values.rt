ghost use Rattle.std.specs.Prelude.{◌≡◌, ◌<◌, length, slice_get, MatchOption};

use guards_base::{Ballot, Bytes, Chan, ChanSet, Numbers, Sequence, SourceWord, Text, Words};
use std::test::Fail;

// A nested list is seen as the list of what its items are seen as.
fn first_length(rows: &Sequence<Numbers>) -> usize
    requires { 0 < length rows.now.items }
    ensures { MatchOption (slice_get rows.now.items 0) (⊥) (λ row. result ≡ length row.items) }
{
    rows.get(0).len()
}

#[test]
fn lists_take_items(rt: HostRuntime) -> Result<(), Fail> {
    let mut row = Numbers::new(rt.alloc());
    row.push(7)?;
    row.reserve(2)?;
    row.push_reserved(8);
    row.push_reserved(9);
    assert_eq!(rt; row.as_slice(), [7, 8, 9].as_slice());

    let mut bytes = Bytes::from_slice(rt.alloc(), b"ab")?;
    bytes.push(b'c')?;
    bytes.reserve(2)?;
    bytes.push_reserved(b'd');
    bytes.push_reserved(b'e');
    assert_eq!(rt; bytes.as_slice(), b"abcde".as_slice());

    let mut rows: Sequence<Numbers> = Sequence::new(rt.alloc());
    rows.push(row)?;
    assert_eq!(rt; first_length(&rows), 3);
    Ok(())
}

#[test]
fn words_are_texts(rt: HostRuntime) -> Result<(), Fail> {
    let mut word = Text::from_str(rt.alloc(), "r")?;
    word.push('ü')?;
    word.push_str("n")?;
    let mut words = Words::new(rt.alloc());
    words.push(Text::new(rt.alloc()))?;
    words.reserve(2)?;
    words.push_reserved(word);
    words.push_reserved(Text::new(rt.alloc()));
    assert_eq!(rt; words.len(), 3);
    assert_eq!(rt; words.get(1).as_str(), "rün");
    Ok(())
}

#[test]
fn a_set_of_channels(rt: HostRuntime) -> Result<(), Fail> {
    let two = Chan::new(2).ok_or("a channel")?;
    let five = Chan::new(5).ok_or("a channel")?;
    assert_eq!(rt; Chan::new(7), None);
    let set = ChanSet::empty().with(two).with(five).with(two).without(two);
    assert_eq!(rt; set.mask(), 32);
    assert_eq!(rt; set.with(two).count(), 2);
    assert!(rt; set.has(five) && !set.has(two));
    assert_eq!(rt; ChanSet::from_mask(32), Some(set));
    assert_eq!(rt; ChanSet::from_mask(128), None);
    Ok(())
}

#[test]
fn words_in_use(rt: HostRuntime) {
    let ballot = Ballot::of(&[3, -4]);
    assert_eq!(rt;
        ballot,
        Ballot {
            count: 2,
            words: [3, -4, 0, 0, 0, 0, 0, 0]
        }
    );
    assert_eq!(rt; ballot.in_use(), [3, -4].as_slice());
    let source = SourceWord {
        width: 1,
        words: [9, 0, 0, 0],
        accuse: ChanSet::empty(),
        heard: [0, 1, 2, 0, 0, 0, 0],
    };
    assert_eq!(rt; source.in_use(), [9].as_slice());
}
