//! Runs of a mission with an actuator, whose word moves by at most 3 a cycle.
use crate::stage::{Call, Ended, call_alone, smooth};
use std::alloc::{AllocError, Global};
use std::sync::Wait;
use std::test::Fail;
use std::thread::Threads;
use worked_missions::{SUM, changed, unfolded};

// The words; how many channels; the call of the sink that fails; the status, and how many entries are carried. Then the
// faults, and below what is written. A line of several channels stands for one of each.
const ROWS: &str = "run|4|-|0|88
-
guards channels 4 cycles 2
cycle 0 active 0,1,2,3 transfer -
ch 0,1,2,3 in 5 vote 5 judged - alpha 0,0,0,0
end removed - joined - remaining -
out 3
cycle 1 active 0,1,2,3 transfer -
ch 0,1,2,3 in 5 vote 10 judged - alpha 0,0,0,0
end removed - joined - remaining -
out 6
done 2

run --last 1|4|-|0|88
-
guards channels 4 cycles 2
cycle 1 active 0,1,2,3 transfer -
ch 0,1,2,3 in 5 vote 10 judged - alpha 0,0,0,0
end removed - joined - remaining -
out 6
done 2

run --trace --last 1|4|-|0|88
-
guards channels 4 cycles 2
cycle 1 active 0,1,2,3 transfer -
ch 0,1,2,3 in 5 vote 10 judged - alpha 0,0,0,0
trace 0,1,2,3 T
end removed - joined - remaining -
out 6
done 2

run|3|-|7|18
{ kind = 'lose', cycle = 0, slot = 'output', from = 2 }
guards channels 3 cycles 2
stop cycle 0 slot output disturbed 2 active 0,1,2

run|4|-|7|88
{ kind = 'lose', cycle = 1, slot = 'output', from = 1 }, { kind = 'lose', cycle = 1, slot = 'output', from = 2 }
guards channels 4 cycles 2
cycle 0 active 0,1,2,3 transfer -
ch 0,1,2,3 in 5 vote 5 judged - alpha 0,0,0,0
end removed - joined - remaining -
out 3
stop cycle 1 slot output disturbed 1,2 active 0,1,2,3

run --last 1|4|-|7|88
{ kind = 'lose', cycle = 1, slot = 'output', from = 1 }, { kind = 'lose', cycle = 1, slot = 'output', from = 2 }
guards channels 4 cycles 2
cycle 0 active 0,1,2,3 transfer -
ch 0,1,2,3 in 5 vote 5 judged - alpha 0,0,0,0
end removed - joined - remaining -
out 3
stop cycle 1 slot output disturbed 1,2 active 0,1,2,3

run|4|-|7|88
{ kind = 'damage', cycle = 1, channel = 1, block = 0, word = 0, value = 7 }, { kind = 'lose', cycle = 1, slot = 'output', from = 2 }
guards channels 4 cycles 2
cycle 0 active 0,1,2,3 transfer -
ch 0,1,2,3 in 5 vote 5 judged - alpha 0,0,0,0
end removed - joined - remaining -
out 3
stop cycle 1 slot output disturbed 1,2 active 0,1,2,3

run|4|-|7|86
{ kind = 'crash', cycle = 1, slot = 'switch', channel = 1 }, { kind = 'lose', cycle = 1, slot = 'output', from = 2 }
guards channels 4 cycles 2
cycle 0 active 0,1,2,3 transfer -
ch 0,1,2,3 in 5 vote 5 judged - alpha 0,0,0,0
end removed - joined - remaining -
out 3
stop cycle 1 slot output disturbed 1,2 active 0,1,2,3

run|4|1|6|44
-
guards channels 4 cycles 2

run|4|2|6|88
-
guards channels 4 cycles 2
cycle 0 active 0,1,2,3 transfer -
ch 0,1,2,3 in 5 vote 5 judged - alpha 0,0,0,0
end removed - joined - remaining -
out 3
";

// What happens in the output slot to the frame of one of four channels, so that the text stays: it is lost, or another
// one arrives, with another word, of another cycle, of another channel, with another number of words, or what is no
// frame.
const OUTVOTED: &str = "kind = 'lose'
kind = 'lose', to = 8
kind = 'forge', bytes = '4701030100000000010000000000000009'
kind = 'forge', bytes = '4701030100000001010000000000000005'
kind = 'forge', bytes = '4701030200000000010000000000000005'
kind = 'forge', bytes = '47010301000000000200000000000000050000000000000005'
kind = 'forge', bytes = '4702030100000000010000000000000005'
kind = 'forge', bytes = '00'
";

// The sensors of one row, each of which reads 5.
fn sensors_of(channels: &str) -> &'static str {
    if channels == "3" {
        "[5], [5], [5]"
    } else {
        "[5], [5], [5], [5]"
    }
}

// The key of the outputs, behind these faults if there are any.
fn outputs_of(alloc: Global, faults: &str) -> Result<String, AllocError> {
    if faults == "-" {
        String::from_str(alloc, "outputs")
    } else {
        format!(in alloc; "fault = [{faults}]\noutputs")
    }
}

// The mission with so many channels and these faults. One change at a time, since an array has one lifetime for all its
// texts.
fn mission_of(alloc: Global, channels: &str, faults: &str) -> Result<String, AllocError> {
    let many = format!(in alloc; "channels = {channels}")?;
    let counted = changed(alloc, SUM, &[("channels = 4", many.as_str())])?;
    let sensed = changed(
        alloc,
        &counted,
        &[("[5], [5], [5], [5]", sensors_of(channels))],
    )?;
    let outputs = outputs_of(alloc, faults)?;
    let mut mission = changed(alloc, &sensed, &[("outputs", outputs.as_str())])?;
    mission.push_str("[actuator]\nstep = [3]\n")?;
    Ok(mission)
}

// Makes a call, of whose calls of the sink one fails where this is a number.
fn called<R: Threads + Wait + Sync>(
    rt: &R,
    alloc: Global,
    words: &str,
    mission: &str,
    failing: Option<u32>,
) -> Result<Ended, AllocError> {
    match failing {
        None => call_alone(rt, alloc, &smooth(words, mission)),
        Some(number) => {
            let call = Call {
                failing_writes: &[number],
                ..smooth(words, mission)
            };
            call_alone(rt, alloc, &call)
        }
    }
}

fn number(field: &str) -> Option<u32> {
    field.parse::<u32>().ok()
}

fn is_as_worked<R: Threads + Wait + Sync>(
    rt: &R,
    alloc: Global,
    row: &str,
) -> Result<bool, AllocError> {
    let (head, rest) = row.split_once('\n').unwrap_or((row, ""));
    let (faults, text) = rest.split_once('\n').unwrap_or((rest, ""));
    let mut fields = head.split('|');
    let words = fields.next().unwrap_or("");
    let mission = mission_of(alloc, fields.next().unwrap_or(""), faults)?;
    let failing = fields.next().and_then(number);
    let status = fields.next().and_then(number).unwrap_or(0);
    let entries = fields.next().and_then(number).unwrap_or(0);
    let wanted = Ended {
        status: status.min(255) as u8,
        text: unfolded(alloc, text)?,
        entries: entries as usize,
    };
    let ended = called(rt, alloc, words, &mission, failing)?;
    Ok(ended.is_like(&wanted))
}

#[test]
fn an_actuator_moves_its_word(rt: HostRuntime) -> Result<(), Fail> {
    for row in ROWS.split("\n\n") {
        assert!(rt; is_as_worked(&rt, rt.alloc(), row)?, "{row}");
    }
    Ok(())
}

#[test]
fn three_channels_outvote_one(rt: HostRuntime) -> Result<(), Fail> {
    let alloc = rt.alloc();
    let plain = mission_of(alloc, "4", "-")?;
    let usual = call_alone(&rt, alloc, &smooth("run", &plain))?;
    for row in OUTVOTED.lines() {
        let fault = format!(in alloc; "{{ {row}, cycle = 0, slot = 'output', from = 1 }}")?;
        let mission = mission_of(alloc, "4", &fault)?;
        let ended = call_alone(&rt, alloc, &smooth("run", &mission))?;
        assert!(rt; ended.is_like(&usual), "{row}");
    }
    Ok(())
}
