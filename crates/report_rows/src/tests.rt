use crate::cycles::{busy_cycle, quiet_cycle, set};
use guards_base::{Slot, Text};
use report_text::{check_head, check_line, head, summary, write_cycle, write_end, write_stop};
use std::alloc::{AllocError, Global};
use std::test::Fail;

// Appends a cycle in which nothing goes wrong. It alone owns the cycle, since each place where one may end costs the
// proof seconds.
fn push_quiet(
    alloc: Global,
    text: &mut Text,
    cycle: u32,
    vote: i64,
    is_traced: bool,
) -> Result<(), AllocError> {
    let part = quiet_cycle(alloc, cycle, vote)?;
    write_cycle(alloc, text, &part, 4, 1, 1, is_traced)
}

// Appends a run of two such cycles.
fn push_run(alloc: Global, text: &mut Text) -> Result<(), AllocError> {
    head(alloc, text, 4, 2)?;
    push_quiet(alloc, text, 0, 5, false)?;
    push_quiet(alloc, text, 1, 10, true)?;
    write_end(alloc, text, 2)
}

#[test]
fn a_quiet_run_is_written_line_by_line(rt: HostRuntime) -> Result<(), Fail> {
    let alloc = rt.alloc();
    let mut text = Text::new(alloc);
    push_run(alloc, &mut text)?;
    let wanted = "guards channels 4 cycles 2\n\
        cycle 0 active 0,1,2,3 transfer -\n\
        ch 0 in 5 vote 5 judged - alpha 0,0,0,0\n\
        ch 1 in 5 vote 5 judged - alpha 0,0,0,0\n\
        ch 2 in 5 vote 5 judged - alpha 0,0,0,0\n\
        ch 3 in 5 vote 5 judged - alpha 0,0,0,0\n\
        end removed - joined - remaining -\n\
        cycle 1 active 0,1,2,3 transfer -\n\
        ch 0 in 5 vote 10 judged - alpha 0,0,0,0\n\
        ch 1 in 5 vote 10 judged - alpha 0,0,0,0\n\
        ch 2 in 5 vote 10 judged - alpha 0,0,0,0\n\
        ch 3 in 5 vote 10 judged - alpha 0,0,0,0\n\
        end removed - joined - remaining -\n\
        done 2\n";
    assert!(rt; text.as_str() == wanted);
    Ok(())
}

#[test]
fn each_part_of_a_cycle_has_its_spelling(rt: HostRuntime) -> Result<(), Fail> {
    let alloc = rt.alloc();
    let mut text = Text::new(alloc);
    let part = busy_cycle(alloc)?;
    write_cycle(alloc, &mut text, &part, 7, 4, 8, true)?;
    write_cycle(alloc, &mut text, &part, 3, 1, 2, false)?;
    let wanted = "cycle 4294967295 active 0,1,2,3,4,5,6 transfer 4,5@3\n\
        ch 6 in -9223372036854775808,-1,0,9223372036854775807 vote -1,none,0,7,none,10,-10,none \
        judged 0,6 alpha 65536,0,16777216,0,1,0,81919\n\
        trace 0 TSST\n\
        trace 6 -\n\
        end removed 3 joined 4,5 remaining 256\n\
        cycle 4294967295 active 0,1,2,3,4,5,6 transfer 4,5@3\n\
        ch 6 in -9223372036854775808 vote -1,none judged 0,6 alpha 65536,0,16777216\n\
        end removed 3 joined 4,5 remaining 256\n";
    assert!(rt; text.as_str() == wanted);
    Ok(())
}

#[test]
fn a_stop_names_its_slot(rt: HostRuntime) -> Result<(), Fail> {
    let alloc = rt.alloc();
    let slots = [
        (Slot::Request, "request"),
        (Slot::Round1, "round1"),
        (Slot::Round2, "round2"),
        (Slot::Round3, "round3"),
        (Slot::Tasks, "tasks"),
        (Slot::Vote, "vote"),
        (Slot::Sweep, "sweep"),
        (Slot::Final, "final"),
        (Slot::Switch, "switch"),
        (Slot::Output, "output"),
    ];
    for (slot, name) in slots {
        let mut text = Text::new(alloc);
        write_stop(alloc, &mut text, 0, slot, set(0b1110000), set(127))?;
        let wanted = format!(in alloc;
            "stop cycle 0 slot {name} disturbed 4,5,6 active 0,1,2,3,4,5,6\n"
        )?;
        assert!(rt; text.as_str() == wanted.as_str());
    }
    Ok(())
}

#[test]
fn check_and_summary_are_written(rt: HostRuntime) -> Result<(), Fail> {
    let alloc = rt.alloc();
    let mut text = Text::new(alloc);
    check_head(alloc, &mut text, 4, 2, 1, 2, 1, Some(1))?;
    let task = Text::from_str(alloc, "sum")?;
    let expr = Text::from_str(alloc, "(b0.0 + in0)")?;
    check_line(alloc, &mut text, 0, &task, 0, 0, &expr)?;
    check_head(alloc, &mut text, 5, 12, 8, 2, 4, None)?;
    let last = [Some(-1), None, Some(5), None, None, None, None, None];
    summary(alloc, &mut text, 1, 10, 9, 123456, &last, 2)?;
    let wanted = "check channels 4 cycles 2 blocks 1\nrounds 2\nwrites 1\njoin 1\n\
        row 0 task sum b0.0 = (b0.0 + in0)\n\
        check channels 5 cycles 12 blocks 8\nrounds 2\nwrites 4\njoin -\n\
        demo 1\nchannels 7 blocks 128 cycles 400\njoins 10 removals 9\nframes 123456\nlast -1,none\n";
    assert!(rt; text.as_str() == wanted);
    Ok(())
}
