use document_checks::{Cause, ReadFault};
use fault_entries::script_of;
use fault_script::{Fault, Script};
use guards_base::Slot;
use icn_bus::{Act, Rule};
use std::alloc::Global;
use std::test::Fail;

/// What a document for five channels, twelve cycles and eight blocks gives.
fn read(alloc: Global, document: &str) -> Result<Result<Script, ReadFault>, Fail> {
    match toml::table_from_str(alloc, document) {
        Ok(fields) => Ok(script_of(alloc, &fields, 5, 12, 8)),
        Err(_) => Err("no document".into()),
    }
}

/// Whether a document is refused for this cause at this path.
fn is_refused(alloc: Global, document: &str, cause: Cause, path: &str) -> Result<bool, Fail> {
    match read(alloc, document)? {
        Ok(_) => Ok(false),
        Err(ReadFault::Bad(why)) => {
            Ok(why.cause == cause && why.path.as_str() == path && why.at.is_none())
        }
        Err(ReadFault::Memory) => Err("out of memory".into()),
    }
}

/// The script of a document.
fn script(alloc: Global, document: &str) -> Result<Script, Fail> {
    match read(alloc, document)? {
        Ok(script) => Ok(script),
        Err(_) => Err("refused".into()),
    }
}

#[test]
fn entries_are_refused(rt: HostRuntime) -> Result<(), Fail> {
    let rows = [
        ("fault = 3", Cause::WrongType, "fault"),
        ("fault = [3]", Cause::WrongType, "fault[0]"),
        ("fault = [{ cycle = -1 }]", Cause::Missing, "fault[0].kind"),
        ("fault = [{ kind = 1 }]", Cause::WrongType, "fault[0].kind"),
        (
            "fault = [{ kind = \"burn\", more = 1 }]",
            Cause::Unknown,
            "fault[0].kind",
        ),
        (
            "fault = [{ kind = \"restart\", cycle = -1, slot = \"vote\" }]",
            Cause::Unknown,
            "fault[0]",
        ),
        (
            "fault = [{ kind = \"restart\", channel = -1 }]",
            Cause::Missing,
            "fault[0].cycle",
        ),
        (
            "fault = [{ kind = \"restart\", cycle = 1.5, channel = 0 }]",
            Cause::WrongType,
            "fault[0].cycle",
        ),
        (
            "fault = [{ kind = \"restart\", cycle = -1, channel = 0 }]",
            Cause::OutOfRange,
            "fault[0].cycle",
        ),
        (
            "fault = [{ kind = \"restart\", cycle = 4294967296 }]",
            Cause::OutOfRange,
            "fault[0].cycle",
        ),
        (
            "fault = [{ kind = \"restart\", cycle = 4294967295 }]",
            Cause::Missing,
            "fault[0].channel",
        ),
        (
            "fault = [{ kind = \"restart\", cycle = 12, channel = 9 }]",
            Cause::OutOfRange,
            "fault[0].cycle",
        ),
        (
            "fault = [{ kind = \"crash\", cycle = 0, slot = \"output\", channel = 0 }]",
            Cause::Unknown,
            "fault[0].slot",
        ),
        (
            "fault = [{ kind = \"crash\", cycle = 0, slot = 3, channel = 0 }]",
            Cause::WrongType,
            "fault[0].slot",
        ),
        (
            "fault = [{ kind = \"crash\", cycle = 0, slot = \"vote\", channel = 256 }]",
            Cause::OutOfRange,
            "fault[0].channel",
        ),
        (
            "fault = [{ kind = \"crash\", cycle = 0, slot = \"vote\", channel = 5 }]",
            Cause::OutOfRange,
            "fault[0].channel",
        ),
        (
            "fault = [{ kind = \"damage\", cycle = 0, channel = 0, block = 8, word = 8, value = 0 }]",
            Cause::OutOfRange,
            "fault[0].block",
        ),
        (
            "fault = [{ kind = \"damage\", cycle = 0, channel = 0, block = 7, word = 8, value = 0 }]",
            Cause::OutOfRange,
            "fault[0].word",
        ),
        (
            "fault = [{ kind = \"damage\", cycle = 0, channel = 0, block = 7, word = 7, value = 2.0 }]",
            Cause::WrongType,
            "fault[0].value",
        ),
        (
            "fault = [{ kind = \"lose\", cycle = 0, slot = \"vote\", from = 7 }]",
            Cause::OutOfRange,
            "fault[0].from",
        ),
        (
            "fault = [{ kind = \"lose\", cycle = 0, slot = \"vote\", from = 5 }]",
            Cause::OutOfRange,
            "fault[0].from",
        ),
        (
            "fault = [{ kind = \"lose\", cycle = 0, slot = \"vote\", from = 0, to = true }]",
            Cause::WrongType,
            "fault[0].to",
        ),
        (
            "fault = [{ kind = \"lose\", cycle = 0, slot = \"vote\", from = 0, to = 0 }]",
            Cause::OutOfRange,
            "fault[0].to",
        ),
        (
            "fault = [{ kind = \"lose\", cycle = 0, slot = \"vote\", from = 0, to = 6 }]",
            Cause::OutOfRange,
            "fault[0].to",
        ),
        (
            "fault = [{ kind = \"lose\", cycle = 0, slot = \"vote\", from = 0, bytes = \"\" }]",
            Cause::Unknown,
            "fault[0]",
        ),
        (
            "fault = [{ kind = \"forge\", cycle = 0, slot = \"vote\", from = 0 }]",
            Cause::Missing,
            "fault[0].bytes",
        ),
        (
            "fault = [{ kind = \"forge\", cycle = 0, slot = \"vote\", from = 0, bytes = \"0\" }]",
            Cause::OutOfRange,
            "fault[0].bytes",
        ),
        (
            "fault = [{ kind = \"forge\", cycle = 0, slot = \"vote\", from = 0, bytes = \"0A\" }]",
            Cause::OutOfRange,
            "fault[0].bytes",
        ),
        (
            "fault = [{ kind = \"restart\", cycle = 12, channel = 0 }, { kind = \"restart\", cycle = 0, channel = \"x\" }]",
            Cause::WrongType,
            "fault[1].channel",
        ),
        (
            "fault = [{ kind = \"restart\", cycle = 1, channel = 0 }, { kind = \"restart\", cycle = 0, channel = 5 }]",
            Cause::OutOfRange,
            "fault[1].channel",
        ),
    ];
    for (document, cause, path) in rows.iter() {
        assert!(rt;
            is_refused(rt.alloc(), document, *cause, path)?,
            "{document}"
        );
    }
    Ok(())
}

const FIVE: &str = "fault = [
    { kind = \"crash\", cycle = 0, slot = \"request\", channel = 4 },
    { kind = \"lose\", cycle = 11, slot = \"output\", from = 0, to = 8 },
    { kind = \"forge\", cycle = 1, slot = \"final\", from = 4, bytes = \"00ff7a\" },
    { kind = \"damage\", cycle = 1, channel = 2, block = 7, word = 6, value = -9223372036854775808 },
    { kind = \"restart\", cycle = 3, channel = 1 },
]";

/// Whether these are the entries for the bus, in order.
fn are_pieces(rules: &[Rule]) -> bool {
    let [lost, forged] = rules else {
        return false;
    };
    let bytes = match &forged.act {
        Act::Lose => return false,
        Act::Forge(bytes) => bytes.as_slice(),
    };
    lost.cycle == 11
        && lost.slot == Slot::Output
        && lost.from.index() == 0
        && lost.to == Some(8)
        && matches!(lost.act, Act::Lose)
        && forged.cycle == 1
        && forged.slot == Slot::Final
        && forged.from.index() == 4
        && forged.to.is_none()
        && bytes == [0, 255, 122].as_slice()
}

/// Whether these are the other entries, in order.
fn are_others(others: &[Fault]) -> bool {
    matches!(
        others,
        [
            Fault::Crash {
                channel: 4,
                cycle: 0,
                slot: Slot::Request
            },
            Fault::Damage {
                channel: 2,
                cycle: 1,
                block: 7,
                word: 6,
                value: i64::MIN
            },
            Fault::Restart {
                channel: 1,
                cycle: 3
            }
        ]
    )
}

#[test]
fn entries_are_read(rt: HostRuntime) -> Result<(), Fail> {
    let script = script(rt.alloc(), FIVE)?;
    assert!(rt; are_pieces(script.rules()), "pieces");
    assert!(rt; are_others(script.others()), "others");
    Ok(())
}

#[test]
fn without_entries_the_script_is_empty(rt: HostRuntime) -> Result<(), Fail> {
    let alloc = rt.alloc();
    for document in ["", "fault = []", "core = 1"] {
        let script = script(alloc, document)?;
        assert!(rt;
            script.rules().is_empty() && script.others().is_empty(),
            "{document}"
        );
    }
    Ok(())
}

/// A document of so many restarts.
fn restarts(alloc: Global, count: usize) -> Result<String, Fail> {
    Ok("[[fault]]\nkind = \"restart\"\ncycle = 1\nchannel = 2\n".repeat(alloc, count)?)
}

/// A document that forges a piece of so many bytes.
fn forged(alloc: Global, length: usize) -> Result<String, Fail> {
    let digits = "0f".repeat(alloc, length)?;
    Ok(format!(in alloc;
        "fault = [{{ kind = \"forge\", cycle = 0, slot = \"vote\", from = 0, bytes = \"{digits}\" }}]"
    )?)
}

#[test]
fn limits_of_scripts(rt: HostRuntime) -> Result<(), Fail> {
    let alloc = rt.alloc();
    assert_eq!(rt;
        script(alloc, restarts(alloc, 1024)?.as_str())?
            .others()
            .len(),
        1024
    );
    let many = restarts(alloc, 1025)?;
    assert!(rt;
        is_refused(alloc, many.as_str(), Cause::OutOfRange, "fault")?,
        "1025 entries"
    );
    assert_eq!(rt;
        script(alloc, forged(alloc, 4300)?.as_str())?.rules().len(),
        1
    );
    let long = forged(alloc, 4301)?;
    assert!(rt;
        is_refused(alloc, long.as_str(), Cause::OutOfRange, "fault[0].bytes")?,
        "4301 bytes"
    );
    Ok(())
}
