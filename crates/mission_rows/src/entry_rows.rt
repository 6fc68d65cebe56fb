//! The key `fault`, kind by kind.

use crate::answers::told;
use std::test::Fail;

const FAULTS: &str =
    "kind = \"crash\"¶cycle = 1¶slot = \"round1\"¶channel = 2¶|cycle = 1¶slot = \"round1\"¶channel = 2¶|missing fault[0].kind
kind = \"crash\"¶cycle = 1¶slot = \"round1\"¶channel = 2¶|kind = 1¶cycle = 1¶slot = \"round1\"¶channel = 2¶|wrong-type fault[0].kind
kind = \"crash\"¶cycle = 1¶slot = \"round1\"¶channel = 2¶|kind = \"crush\"¶cycle = 1¶slot = \"round1\"¶channel = 2¶|unknown fault[0].kind
kind = \"crash\"¶cycle = 1¶slot = \"round1\"¶channel = 2¶|kind = \"crash\"¶slot = \"round1\"¶channel = 2¶|missing fault[0].cycle
kind = \"crash\"¶cycle = 1¶slot = \"round1\"¶channel = 2¶|kind = \"crash\"¶cycle = -1¶slot = \"round1\"¶channel = 2¶|out-of-range fault[0].cycle
kind = \"crash\"¶cycle = 1¶slot = \"round1\"¶channel = 2¶|kind = \"crash\"¶cycle = 4294967296¶slot = \"round1\"¶channel = 2¶|out-of-range fault[0].cycle
kind = \"crash\"¶cycle = 1¶slot = \"round1\"¶channel = 2¶|kind = \"crash\"¶cycle = 4¶slot = \"round1\"¶channel = 2¶|out-of-range fault[0].cycle
kind = \"crash\"¶cycle = 1¶slot = \"round1\"¶channel = 2¶|kind = \"crash\"¶cycle = 1.0¶slot = \"round1\"¶channel = 2¶|wrong-type fault[0].cycle
kind = \"crash\"¶cycle = 1¶slot = \"round1\"¶channel = 2¶|kind = \"crash\"¶cycle = 1¶channel = 2¶|missing fault[0].slot
kind = \"crash\"¶cycle = 1¶slot = \"round1\"¶channel = 2¶|kind = \"crash\"¶cycle = 1¶slot = \"round4\"¶channel = 2¶|unknown fault[0].slot
kind = \"crash\"¶cycle = 1¶slot = \"round1\"¶channel = 2¶|kind = \"crash\"¶cycle = 1¶slot = \"output\"¶channel = 2¶|unknown fault[0].slot
kind = \"crash\"¶cycle = 1¶slot = \"round1\"¶channel = 2¶|kind = \"crash\"¶cycle = 1¶slot = 1¶channel = 2¶|wrong-type fault[0].slot
kind = \"crash\"¶cycle = 1¶slot = \"round1\"¶channel = 2¶|kind = \"crash\"¶cycle = 1¶slot = \"switch\"¶channel = 2¶|read
kind = \"crash\"¶cycle = 1¶slot = \"round1\"¶channel = 2¶|kind = \"crash\"¶cycle = 1¶slot = \"round1\"¶|missing fault[0].channel
kind = \"crash\"¶cycle = 1¶slot = \"round1\"¶channel = 2¶|kind = \"crash\"¶cycle = 1¶slot = \"round1\"¶channel = 3¶|out-of-range fault[0].channel
kind = \"crash\"¶cycle = 1¶slot = \"round1\"¶channel = 2¶|kind = \"crash\"¶cycle = 1¶slot = \"round1\"¶channel = 256¶|out-of-range fault[0].channel
kind = \"crash\"¶cycle = 1¶slot = \"round1\"¶channel = 2¶|kind = \"crash\"¶cycle = 1¶slot = \"round1\"¶channel = -1¶|out-of-range fault[0].channel
kind = \"crash\"¶cycle = 1¶slot = \"round1\"¶channel = 2¶|kind = \"crash\"¶cycle = 1¶slot = \"round1\"¶channel = \"2\"¶|wrong-type fault[0].channel
kind = \"restart\"¶cycle = 2¶channel = 2¶|kind = \"restart\"¶channel = 2¶|missing fault[1].cycle
kind = \"restart\"¶cycle = 2¶channel = 2¶|kind = \"restart\"¶cycle = 4¶channel = 2¶|out-of-range fault[1].cycle
kind = \"restart\"¶cycle = 2¶channel = 2¶|kind = \"restart\"¶cycle = 2¶|missing fault[1].channel
kind = \"restart\"¶cycle = 2¶channel = 2¶|kind = \"restart\"¶cycle = 2¶channel = 3¶|out-of-range fault[1].channel
";

#[test]
fn faults(rt: HostRuntime) -> Result<(), Fail> {
    assert_eq!(rt; told(rt.alloc(), FAULTS)?.as_str(), "22 rows");
    Ok(())
}

const FAULT_FIELDS: &str =
    "kind = \"damage\"¶cycle = 0¶channel = 0¶block = 1¶word = 7¶value = -9¶|kind = \"damage\"¶cycle = 0¶channel = 0¶word = 7¶value = -9¶|missing fault[2].block
kind = \"damage\"¶cycle = 0¶channel = 0¶block = 1¶word = 7¶value = -9¶|kind = \"damage\"¶cycle = 0¶channel = 0¶block = 2¶word = 7¶value = -9¶|out-of-range fault[2].block
kind = \"damage\"¶cycle = 0¶channel = 0¶block = 1¶word = 7¶value = -9¶|kind = \"damage\"¶cycle = 0¶channel = 0¶block = 256¶word = 7¶value = -9¶|out-of-range fault[2].block
kind = \"damage\"¶cycle = 0¶channel = 0¶block = 1¶word = 7¶value = -9¶|kind = \"damage\"¶cycle = 0¶channel = 0¶block = true¶word = 7¶value = -9¶|wrong-type fault[2].block
kind = \"damage\"¶cycle = 0¶channel = 0¶block = 1¶word = 7¶value = -9¶|kind = \"damage\"¶cycle = 0¶channel = 0¶block = 1¶value = -9¶|missing fault[2].word
kind = \"damage\"¶cycle = 0¶channel = 0¶block = 1¶word = 7¶value = -9¶|kind = \"damage\"¶cycle = 0¶channel = 0¶block = 1¶word = 8¶value = -9¶|out-of-range fault[2].word
kind = \"damage\"¶cycle = 0¶channel = 0¶block = 1¶word = 7¶value = -9¶|kind = \"damage\"¶cycle = 0¶channel = 0¶block = 1¶word = 256¶value = -9¶|out-of-range fault[2].word
kind = \"damage\"¶cycle = 0¶channel = 0¶block = 1¶word = 7¶value = -9¶|kind = \"damage\"¶cycle = 0¶channel = 0¶block = 1¶word = []¶value = -9¶|wrong-type fault[2].word
kind = \"damage\"¶cycle = 0¶channel = 0¶block = 1¶word = 7¶value = -9¶|kind = \"damage\"¶cycle = 0¶channel = 0¶block = 1¶word = 7¶|missing fault[2].value
kind = \"damage\"¶cycle = 0¶channel = 0¶block = 1¶word = 7¶value = -9¶|kind = \"damage\"¶cycle = 0¶channel = 0¶block = 1¶word = 7¶value = -9223372036854775808¶|read
kind = \"damage\"¶cycle = 0¶channel = 0¶block = 1¶word = 7¶value = -9¶|kind = \"damage\"¶cycle = 0¶channel = 0¶block = 1¶word = 7¶value = 1e3¶|wrong-type fault[2].value
kind = \"lose\"¶cycle = 3¶slot = \"vote\"¶from = 1¶to = 0¶|kind = \"lose\"¶cycle = 3¶slot = \"vote\"¶to = 0¶|missing fault[3].from
kind = \"lose\"¶cycle = 3¶slot = \"vote\"¶from = 1¶to = 0¶|kind = \"lose\"¶cycle = 3¶slot = \"vote\"¶from = 3¶to = 0¶|out-of-range fault[3].from
kind = \"lose\"¶cycle = 3¶slot = \"vote\"¶from = 1¶to = 0¶|kind = \"lose\"¶cycle = 3¶slot = \"vote\"¶from = 7¶to = 0¶|out-of-range fault[3].from
kind = \"lose\"¶cycle = 3¶slot = \"vote\"¶from = 1¶to = 0¶|kind = \"lose\"¶cycle = 3¶slot = \"vote\"¶from = {}¶to = 0¶|wrong-type fault[3].from
kind = \"lose\"¶cycle = 3¶slot = \"vote\"¶from = 1¶to = 0¶|kind = \"lose\"¶cycle = 3¶slot = \"vote\"¶from = 1¶to = 1¶|out-of-range fault[3].to
kind = \"lose\"¶cycle = 3¶slot = \"vote\"¶from = 1¶to = 0¶|kind = \"lose\"¶cycle = 3¶slot = \"vote\"¶from = 1¶to = 3¶|out-of-range fault[3].to
kind = \"lose\"¶cycle = 3¶slot = \"vote\"¶from = 1¶to = 0¶|kind = \"lose\"¶cycle = 3¶slot = \"vote\"¶from = 1¶to = 6¶|out-of-range fault[3].to
kind = \"lose\"¶cycle = 3¶slot = \"vote\"¶from = 1¶to = 0¶|kind = \"lose\"¶cycle = 3¶slot = \"vote\"¶from = 1¶to = 7¶|read
kind = \"lose\"¶cycle = 3¶slot = \"vote\"¶from = 1¶to = 0¶|kind = \"lose\"¶cycle = 3¶slot = \"vote\"¶from = 1¶to = 8¶|read
kind = \"lose\"¶cycle = 3¶slot = \"vote\"¶from = 1¶to = 0¶|kind = \"lose\"¶cycle = 3¶slot = \"vote\"¶from = 1¶to = 9¶|out-of-range fault[3].to
kind = \"lose\"¶cycle = 3¶slot = \"vote\"¶from = 1¶to = 0¶|kind = \"lose\"¶cycle = 3¶slot = \"vote\"¶from = 1¶to = 256¶|out-of-range fault[3].to
kind = \"lose\"¶cycle = 3¶slot = \"vote\"¶from = 1¶to = 0¶|kind = \"lose\"¶cycle = 3¶slot = \"vote\"¶from = 1¶to = \"0\"¶|wrong-type fault[3].to
kind = \"lose\"¶cycle = 3¶slot = \"vote\"¶from = 1¶to = 0¶|kind = \"lose\"¶cycle = 3¶slot = \"vote\"¶from = 1¶|read
kind = \"forge\"¶cycle = 3¶slot = \"output\"¶from = 2¶bytes = \"00ff\"¶|kind = \"forge\"¶cycle = 3¶slot = \"output\"¶from = 2¶|missing fault[4].bytes
kind = \"forge\"¶cycle = 3¶slot = \"output\"¶from = 2¶bytes = \"00ff\"¶|kind = \"forge\"¶cycle = 3¶slot = \"output\"¶from = 2¶bytes = \"00f\"¶|out-of-range fault[4].bytes
kind = \"forge\"¶cycle = 3¶slot = \"output\"¶from = 2¶bytes = \"00ff\"¶|kind = \"forge\"¶cycle = 3¶slot = \"output\"¶from = 2¶bytes = \"00FF\"¶|out-of-range fault[4].bytes
kind = \"forge\"¶cycle = 3¶slot = \"output\"¶from = 2¶bytes = \"00ff\"¶|kind = \"forge\"¶cycle = 3¶slot = \"output\"¶from = 2¶bytes = \"0 ff\"¶|out-of-range fault[4].bytes
kind = \"forge\"¶cycle = 3¶slot = \"output\"¶from = 2¶bytes = \"00ff\"¶|kind = \"forge\"¶cycle = 3¶slot = \"output\"¶from = 2¶bytes = 255¶|wrong-type fault[4].bytes
kind = \"forge\"¶cycle = 3¶slot = \"output\"¶from = 2¶bytes = \"00ff\"¶|kind = \"forge\"¶cycle = 3¶slot = \"output\"¶from = 2¶bytes = \"\"¶|read
kind = \"crash\"¶cycle = 1¶slot = \"round1\"¶channel = 2¶|kind = \"crash\"¶cycle = 1¶slot = \"round1\"¶channel = 2¶to = 1¶|unknown fault[0]
kind = \"restart\"¶cycle = 2¶channel = 2¶|kind = \"restart\"¶cycle = 2¶channel = 2¶slot = \"vote\"¶|unknown fault[1]
kind = \"damage\"¶cycle = 0¶channel = 0¶block = 1¶word = 7¶value = -9¶|kind = \"damage\"¶cycle = 0¶channel = 0¶block = 1¶word = 7¶value = -9¶from = 1¶|unknown fault[2]
kind = \"lose\"¶cycle = 3¶slot = \"vote\"¶from = 1¶to = 0¶|kind = \"lose\"¶cycle = 3¶slot = \"vote\"¶from = 1¶to = 0¶bytes = \"00\"¶|unknown fault[3]
kind = \"forge\"¶cycle = 3¶slot = \"output\"¶from = 2¶bytes = \"00ff\"¶|kind = \"forge\"¶cycle = 3¶slot = \"output\"¶from = 2¶bytes = \"00ff\"¶channel = 1¶|unknown fault[4]
[[fault]]¶kind = \"crash\"|[[faults]]¶kind = \"crash\"|unknown -
";

#[test]
fn fault_fields(rt: HostRuntime) -> Result<(), Fail> {
    assert_eq!(rt; told(rt.alloc(), FAULT_FIELDS)?.as_str(), "36 rows");
    Ok(())
}
