use context_blocks::{Block, BlockSet, Context};
use std::test::Fail;

#[test]
fn contexts_are_copied_and_changed(rt: HostRuntime) -> Result<(), Fail> {
    let mut first = Context::zeroed(rt.alloc(), 256)?;
    assert_eq!(rt; first.len(), 256);
    let block = Block {
        words: [1, -2, 3, -4, 5, -6, i64::MAX, i64::MIN],
    };
    first.set_block(255, block);
    let second = first.copy(rt.alloc())?;
    first.set_block(255, Block { words: [0; 8] });
    assert_eq!(rt; second.get(255), block);
    assert_eq!(rt; first.get(255).words, [0; 8]);
    first.copy_from(&second);
    assert_eq!(rt; first.get(255), block);
    assert_eq!(rt; first.get(254).words, [0; 8]);
    Ok(())
}

#[test]
fn sets_keep_their_numbers(rt: HostRuntime) {
    let mut set = BlockSet::empty();
    assert_eq!(rt; set.count(), 0);
    for block in [255, 0, 64, 0] {
        set.insert(block);
    }
    assert_eq!(rt; set.count(), 3);
    set.remove(0);
    set.remove(1);
    assert_eq!(rt;
        (set.count(), set.has(0), set.has(64), set.has(255)),
        (2, false, true, true)
    );
}
