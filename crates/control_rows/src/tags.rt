use dirty_tags::Tags;
use std::test::Fail;

// A block written in the cycle that plans it remains; the cursor goes on and wraps.
#[test]
fn plans_in_turn(rt: HostRuntime) -> Result<(), Fail> {
    let mut tags = Tags::all(5);
    assert_eq!(rt; tags.remaining(), 5);
    let first = tags.plan(3);
    assert_eq!(rt; first.as_slice(), [0, 1, 2].as_slice());
    tags.wrote(1);
    assert_eq!(rt; tags.close_cycle(&first), 3);
    assert!(rt; tags.remains(1));
    assert!(rt; !tags.remains(0));
    assert_eq!(rt; tags.rest().as_slice(), [1, 3, 4].as_slice());
    let second = tags.plan(3);
    assert_eq!(rt; second.as_slice(), [3, 4, 1].as_slice());
    assert_eq!(rt; tags.close_cycle(&second), 0);
    assert_eq!(rt; tags.plan(3).len(), 0);
    Ok(())
}

// A block written after its copy remains again, and an empty plan leaves the cursor.
#[test]
fn writes_come_back(rt: HostRuntime) -> Result<(), Fail> {
    let mut tags = Tags::all(2);
    let both = tags.plan(64);
    assert_eq!(rt; both.as_slice(), [0, 1].as_slice());
    assert_eq!(rt; tags.close_cycle(&both), 0);
    let none = tags.plan(64);
    assert_eq!(rt; none.len(), 0);
    tags.wrote(0);
    tags.wrote(1);
    tags.wrote(0);
    assert_eq!(rt; tags.close_cycle(&none), 2);
    assert_eq!(rt; tags.plan(1).as_slice(), [0].as_slice());
    Ok(())
}

// All 256 blocks: the last plan ends at block 255, and the next begins at block 0.
#[test]
fn most_blocks(rt: HostRuntime) -> Result<(), Fail> {
    let mut tags = Tags::all(256);
    let plan = tags.plan(64);
    assert_eq!(rt; plan.len(), 64);
    assert_eq!(rt; tags.close_cycle(&plan), 192);
    let plan = tags.plan(64);
    assert_eq!(rt; tags.close_cycle(&plan), 128);
    let plan = tags.plan(64);
    assert_eq!(rt; tags.close_cycle(&plan), 64);
    let plan = tags.plan(64);
    tags.wrote(255);
    assert_eq!(rt; tags.close_cycle(&plan), 1);
    assert_eq!(rt; tags.plan(64).as_slice(), [255].as_slice());
    Ok(())
}
