//! One test for all list types.
use crate::items::{last, line, numbers, sensors, sweep, task, trace, write};
use context_blocks::Block;
use fault_script::{Fault, Faults};
use guards_base::{Bytes, Lines, Numbers, Sequence, Text, Traces, Words};
use icn_bus::{Act, Acts};
use icn_frames::{BlockCopy, Copies, Finals, Item, Items, Labels, Sweeps};
use mission_type::{Outputs, SensorRow, SensorRows};
use std::alloc::{AllocError, Global};
use std::test::Fail;
use task_table::{TaskRows, Tasks, Writes};

// Pushes an item, reserves room, and pushes two more into it. Answers how many the list has then.
fn taken<T: Drop>(
    mut list: Sequence<T>,
    first: T,
    second: T,
    third: T,
) -> Result<usize, AllocError> {
    list.push(first)?;
    list.reserve(2)?;
    list.push_reserved(second);
    list.push_reserved(third);
    Ok(list.len())
}

fn of_base(alloc: Global) -> Result<[usize; 5], AllocError> {
    Ok([
        taken(Bytes::new(alloc), 1, 2, 3)?,
        taken(Numbers::new(alloc), 1, 2, 3)?,
        taken(
            Words::new(alloc),
            Text::new(alloc),
            Text::new(alloc),
            Text::new(alloc),
        )?,
        taken(Lines::new(alloc), line(), line(), line())?,
        taken(Traces::new(alloc), trace(alloc), trace(alloc), trace(alloc))?,
    ])
}

fn item() -> Item {
    Item {
        path: Labels {
            count: 0,
            at: [0; 2],
        },
        word: None,
    }
}

fn copy() -> BlockCopy {
    BlockCopy {
        block: 0,
        words: Block { words: [0; 8] },
    }
}

fn of_frames(alloc: Global) -> Result<[usize; 5], AllocError> {
    Ok([
        taken(Acts::new(alloc), None, Some(Act::Lose), None)?,
        taken(Items::new(alloc), item(), item(), item())?,
        taken(Copies::new(alloc), copy(), copy(), copy())?,
        taken(Sweeps::new(alloc), sweep(alloc), sweep(alloc), sweep(alloc))?,
        taken(Finals::new(alloc), last(alloc), last(alloc), last(alloc))?,
    ])
}

fn restart() -> Fault {
    Fault::Restart {
        channel: 0,
        cycle: 0,
    }
}

fn of_missions(alloc: Global) -> Result<[usize; 7], AllocError> {
    Ok([
        taken(Writes::new(alloc), write(), write(), write())?,
        taken(Tasks::new(alloc), task(alloc), task(alloc), task(alloc))?,
        taken(
            TaskRows::new(alloc),
            numbers(alloc)?,
            Numbers::new(alloc),
            Numbers::new(alloc),
        )?,
        taken(Faults::new(alloc), restart(), restart(), restart())?,
        taken(Outputs::new(alloc), (0, 0), (0, 1), (1, 0))?,
        taken(SensorRow::new(alloc), [0; 4], [1; 4], [2; 4])?,
        taken(
            SensorRows::new(alloc),
            sensors(alloc)?,
            SensorRow::new(alloc),
            SensorRow::new(alloc),
        )?,
    ])
}

#[test]
fn each_list_takes_items(rt: HostRuntime) -> Result<(), Fail> {
    let alloc = rt.alloc();
    assert_eq!(rt; of_base(alloc)?, [3; 5]);
    assert_eq!(rt; of_frames(alloc)?, [3; 5]);
    assert_eq!(rt; of_missions(alloc)?, [3; 7]);
    let mut text = Text::new(alloc);
    text.push('u')?;
    assert_eq!(rt; text.as_slice(), b"u".as_slice());
    Ok(())
}
