ghost use Rattle.std.specs.Prelude.{◌≡◌, [], IfOk};
ghost use Rattle.frame_pipe.specs.Pipes.{feed_name, framer_name, sent, capacity};

use context_blocks::Block;
use frame_pipe::{Feed, Framer, gather, pipe};
use icn_frames::BlockCopy;
use std::test::Fail;
use std::thread;
use std::thread::join;

fn copy_of(block: u8) -> BlockCopy {
    BlockCopy {
        block,
        words: Block {
            words: [i64::from(block); 8],
        },
    }
}

#[test]
fn three_copies_come_in_order_after_some_tries(rt: HostRuntime) -> Result<(), Fail> {
    for tries in 0..3u8 {
        let (mut feed, mut framer) = pipe(rt.alloc(), 3)?;
        feed.put(copy_of(3));
        feed.put(copy_of(4));
        feed.put(copy_of(5));
        let first = tries > 0 && framer.take();
        let second = tries > 1 && framer.take();
        assert!(rt; first == (tries > 0) && second == (tries > 1));
        let copies = gather(feed, framer);
        assert!(rt; copies.as_slice() == [copy_of(3), copy_of(4), copy_of(5)].as_slice());
    }
    Ok(())
}

// Puts 64 copies.
fn put_all(mut feed: Feed) -> Feed
    requires { (sent feed ≡ []) × (capacity feed ≡ 64) }
    ensures { feed_name result ≡ feed_name feed }
{
    for block in 0..64 {
        feed.put(copy_of(block));
    }
    feed
}

// Takes copies until 64 came, or no turns are left.
fn take_all(mut framer: Framer) -> (Framer, u8)
    ensures { framer_name result.0 ≡ framer_name framer }
{
    let mut taken = 0;
    for _ in 0..100_000_000u32 {
        if taken == 64 {
            break;
        }
        if framer.take() {
            taken += 1;
        } else {
            thread::yield_now();
        }
    }
    (framer, taken)
}

#[test]
fn a_second_thread_takes_all_copies(rt: HostRuntime) -> Result<(), Fail> {
    let (feed, framer) = pipe(rt.alloc(), 64)?;
    let (feed, (framer, taken)) = join(&rt, || put_all(feed), || take_all(framer));
    assert!(rt; taken == 64);
    let copies = gather(feed, framer);
    let mut wanted = 0u8;
    for copy in copies.as_slice() {
        assert!(rt; *copy == copy_of(wanted));
        wanted = wanted.saturating_add(1);
    }
    assert!(rt; wanted == 64);
    Ok(())
}
