use demo_mission::demo_mission;
use fault_script::Fault;
use guards_base::Chan;
use icn_bus::{Act, Rule};
use mission_type::Mission;
use std::test::Fail;
use task_table::Table;

/// What the draws of a number give, by a simulation in another language.
struct Demo {
    number: u64,
    /// The words of channel 0 in row 0, and of channel 6 in row 7.
    sensors: [[i64; 2]; 2],
    /// The blocks of each task's writes.
    blocks: [[u8; 4]; 4],
    /// The channel that crashes, its slot's index, and the sender whose vote is lost.
    faults: [(u8, u8, u8); 10],
}

const DEMOS: [Demo; 3] = [
    Demo {
        number: 1,
        sensors: [[777, 90], [883, 385]],
        blocks: [
            [70, 52, 68, 53],
            [124, 115, 62, 22],
            [14, 43, 119, 95],
            [78, 52, 94, 101],
        ],
        faults: [
            (2, 7, 2),
            (1, 8, 5),
            (0, 2, 0),
            (0, 2, 2),
            (3, 4, 2),
            (4, 8, 0),
            (4, 4, 1),
            (0, 6, 6),
            (1, 8, 5),
            (6, 4, 5),
        ],
    },
    Demo {
        number: 0,
        sensors: [[811, 268], [44, 377]],
        blocks: [
            [121, 122, 51, 56],
            [125, 65, 11, 78],
            [1, 14, 22, 96],
            [101, 113, 59, 3],
        ],
        faults: [
            (6, 3, 0),
            (4, 5, 4),
            (1, 4, 6),
            (5, 6, 1),
            (5, 0, 3),
            (2, 1, 0),
            (5, 4, 6),
            (0, 0, 4),
            (2, 7, 2),
            (3, 5, 4),
        ],
    },
    Demo {
        number: u64::MAX,
        sensors: [[491, 442], [204, 719]],
        blocks: [
            [44, 64, 34, 59],
            [126, 14, 88, 6],
            [117, 114, 54, 97],
            [123, 47, 24, 34],
        ],
        faults: [
            (4, 8, 6),
            (0, 3, 3),
            (5, 5, 3),
            (2, 2, 5),
            (5, 2, 2),
            (1, 3, 0),
            (6, 3, 3),
            (5, 4, 1),
            (3, 6, 3),
            (6, 4, 4),
        ],
    },
];

/// The first two sensor words of a channel in a cycle.
fn words(mission: &Mission, chan: Chan, cycle: u32) -> [i64; 2] {
    if chan.index() < mission.rules().channels {
        let [first, second, _, _] = mission.sensor(chan, cycle);
        [first, second]
    } else {
        [-1, -1]
    }
}

/// The blocks of the four writes of a row's only task.
fn blocks(table: &Table, row: u16) -> [u8; 4] {
    if row < table.rows() {
        if table.row_len(row) == 1 {
            let writes = table.task(row, 0).writes.as_slice();
            return match writes {
                [a, b, c, d] => [a.block, b.block, c.block, d.block],
                _ => [0; 4],
            };
        }
    }
    [0; 4]
}

fn crashes(fault: Option<&Fault>, of: u8, at: u32, index: u8) -> bool {
    match fault {
        Some(
            Fault::Crash {
                channel,
                cycle,
                slot,
            },
        ) => *channel == of && *cycle == at && slot.index() == index,
        _ => false,
    }
}

fn restarts(fault: Option<&Fault>, of: u8, at: u32) -> bool {
    match fault {
        Some(Fault::Restart { channel, cycle }) => *channel == of && *cycle == at,
        _ => false,
    }
}

fn loses(rule: Option<&Rule>, from: u8, at: u32) -> bool {
    match rule {
        Some(rule) => {
            let to = if from < 6 { from + 1 } else { 0 };
            rule.cycle == at
                && rule.slot.index() == 5
                && rule.from.index() == from
                && rule.to == Some(to)
                && matches!(rule.act, Act::Lose)
        }
        None => false,
    }
}

/// Whether the script is the one of these draws.
fn has_faults(mission: &Mission, faults: &[(u8, u8, u8); 10]) -> bool {
    let others = mission.script().others();
    let rules = mission.script().rules();
    for (k, (channel, slot, sender)) in faults.iter().enumerate() {
        if !crashes(others.get(2 * k), *channel, 40 * k as u32 + 5, *slot)
            || !restarts(others.get(2 * k + 1), *channel, 40 * k as u32 + 10)
            || !loses(rules.get(k), *sender, 40 * k as u32 + 30)
        {
            return false;
        }
    }
    others.len() == 20 && rules.len() == 10
}

#[test]
fn demos_are_made_by_their_draws(rt: HostRuntime) -> Result<(), Fail> {
    let first = Chan::new(0).ok_or("a channel")?;
    let last = Chan::new(6).ok_or("a channel")?;
    for demo in DEMOS.iter() {
        let mission = demo_mission(rt.alloc(), demo.number)?;
        let number = demo.number;
        assert_eq!(rt; words(&mission, first, 0), demo.sensors[0], "{number}");
        assert_eq!(rt; words(&mission, last, 7), demo.sensors[1], "{number}");
        for row in 0..4 {
            assert_eq!(rt;
                blocks(mission.table(), row as u16),
                demo.blocks[row],
                "{number}"
            );
        }
        let block = demo.blocks[0][0];
        assert_eq!(rt;
            mission.outputs(),
            [(block, 0), (block, 1)].as_slice(),
            "{number}"
        );
        assert!(rt; has_faults(&mission, &demo.faults), "{number}");
    }
    Ok(())
}
