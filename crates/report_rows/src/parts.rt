//! What a flight log keeps, and what it pushes out.
use flight_log::FlightLog;
use guards_base::Bytes;
use std::alloc::{AllocError, Global};
use std::test::Fail;

// How many parts a log keeps, how many are pushed, each a digit, and those that are pushed out and those that are then
// kept, in order.
const LOGS: &str = "1 0 |
1 1 |0
1 3 01|2
3 2 |01
3 3 |012
3 4 0|123
3 8 01234|567
1999 10 |0123456789
2000 4 |0123
";

// Pushes the digits from 0 on, and appends what is pushed out.
fn push_digits(
    alloc: Global,
    log: &mut FlightLog,
    count: u8,
    text: &mut Bytes,
) -> Result<(), AllocError> {
    for digit in 0..count.min(10) {
        let part = Bytes::from_slice(alloc, &[b'0' + digit])?;
        if let Some(out) = log.push(part) {
            text.append(out.as_slice())?;
        }
    }
    Ok(())
}

// Appends the parts that are kept.
fn append_kept(log: &FlightLog, text: &mut Bytes) -> Result<(), AllocError> {
    for place in 0..log.len() {
        text.append(log.get(place).as_slice())?;
    }
    Ok(())
}

// What is pushed out, a bar, and what is kept.
fn flown(alloc: Global, room: u16, count: u8) -> Result<Bytes, AllocError> {
    let mut text = Bytes::new(alloc);
    let mut log = FlightLog::new(alloc, room.clamp(1, 2_000))?;
    push_digits(alloc, &mut log, count, &mut text)?;
    text.append(b"|")?;
    append_kept(&log, &mut text)?;
    Ok(text)
}

fn is_as_told(alloc: Global, row: &str) -> Result<bool, AllocError> {
    let mut fields = row.split(' ');
    let room = fields.next().and_then(|field| field.parse::<u16>().ok());
    let count = fields.next().and_then(|field| field.parse::<u8>().ok());
    let (Some(room), Some(count), Some(wanted)) = (room, count, fields.next()) else {
        return Ok(false);
    };
    let text = flown(alloc, room, count)?;
    Ok(text.as_slice() == wanted.as_bytes())
}

#[test]
fn the_last_parts_are_kept(rt: HostRuntime) -> Result<(), Fail> {
    for row in LOGS.lines() {
        assert!(rt; is_as_told(rt.alloc(), row)?, "{row}");
    }
    Ok(())
}
