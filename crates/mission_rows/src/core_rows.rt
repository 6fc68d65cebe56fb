//! The table `core`, field by field.

use crate::answers::told;
use std::test::Fail;

const CORE_SIZES: &str = "channels = 3¶||missing core.channels
channels = 3|channels = \"1\"|wrong-type core.channels
channels = 3|channels = 2|out-of-range core.channels
channels = 3|channels = 8|out-of-range core.channels
cycles = 4¶||missing core.cycles
cycles = 4|cycles = \"1\"|wrong-type core.cycles
cycles = 4|cycles = 0|out-of-range core.cycles
cycles = 4|cycles = 2001|out-of-range core.cycles
blocks = 2¶||missing core.blocks
blocks = 2|blocks = \"1\"|wrong-type core.blocks
blocks = 2|blocks = 0|out-of-range core.blocks
blocks = 2|blocks = 257|out-of-range core.blocks
width = 2¶||missing core.width
width = 2|width = \"1\"|wrong-type core.width
width = 2|width = 0|out-of-range core.width
width = 2|width = 5|out-of-range core.width
";

#[test]
fn core_sizes(rt: HostRuntime) -> Result<(), Fail> {
    assert_eq!(rt; told(rt.alloc(), CORE_SIZES)?.as_str(), "16 rows");
    Ok(())
}

const CORE_LIMITS: &str = "keep = 100¶||read
keep = 100|keep = \"1\"|wrong-type core.keep
keep = 100|keep = -1|out-of-range core.keep
keep = 100|keep = 65537|out-of-range core.keep
threshold = 70000¶||read
threshold = 70000|threshold = \"1\"|wrong-type core.threshold
threshold = 70000|threshold = 65535|out-of-range core.threshold
threshold = 70000|threshold = 6553601|out-of-range core.threshold
return_after = 1¶||read
return_after = 1|return_after = \"1\"|wrong-type core.return_after
return_after = 1|return_after = -1|out-of-range core.return_after
return_after = 1|return_after = 1001|out-of-range core.return_after
sweep = 2¶||read
sweep = 2|sweep = \"1\"|wrong-type core.sweep
sweep = 2|sweep = 0|out-of-range core.sweep
sweep = 2|sweep = 65|out-of-range core.sweep
final = 1¶||read
final = 1|final = \"1\"|wrong-type core.final
final = 1|final = -1|out-of-range core.final
final = 1|final = 65|out-of-range core.final
version = 2|version = \"1\"|wrong-type core.version
version = 2|version = 0|out-of-range core.version
version = 2|version = 3|out-of-range core.version
decrement = 5¶||read
decrement = 5|decrement = \"1\"|wrong-type core.decrement
decrement = 5|decrement = -1|out-of-range core.decrement
decrement = 5|decrement = 6553601|out-of-range core.decrement
returning = 1¶||read
returning = 1|returning = \"1\"|wrong-type core.returning
returning = 1|returning = 0|out-of-range core.returning
returning = 1|returning = 3|out-of-range core.returning
";

#[test]
fn core_limits(rt: HostRuntime) -> Result<(), Fail> {
    assert_eq!(rt; told(rt.alloc(), CORE_LIMITS)?.as_str(), "31 rows");
    Ok(())
}

const CORE_KINDS: &str = "channels = 3|channels = 3.0|wrong-type core.channels
channels = 3|channels = 2026-12-01|wrong-type core.channels
channels = 3|channels = true|wrong-type core.channels
channels = 3|channels = [3]|wrong-type core.channels
channels = 3|channels = 9223372036854775807|out-of-range core.channels
channels = 3|channels = 9223372036854775808|not-toml -
channels = 3|channels = -9223372036854775809|not-toml -
channels = 3|channels = 4294967299|out-of-range core.channels
version = 2¶||out-of-range core.decay
version = 2|version = 1|out-of-range core.decay
decay = \"subtract\"|decay = \"multiply\"|read
decay = \"subtract\"¶||read
decay = \"subtract\"|decay = \"divide\"|unknown core.decay
decay = \"subtract\"|decay = 1|wrong-type core.decay
keep = 100|keep = 100¶kept = 1|unknown core
channels = 3|channels = 3¶channels = 3|not-toml -
[core]|core = 1¶[other]|unknown -
[core]|[[core]]|wrong-type core
";

#[test]
fn core_kinds(rt: HostRuntime) -> Result<(), Fail> {
    assert_eq!(rt; told(rt.alloc(), CORE_KINDS)?.as_str(), "18 rows");
    Ok(())
}
