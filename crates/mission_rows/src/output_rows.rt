//! The keys `outputs` and `sensors`, and the newer forms of TOML.

use crate::answers::{MISSION, answer, told};
use std::test::Fail;

const OUTPUTS: &str = "outputs = [\"b0.0\", \" ( b1.2 ) \"]¶||missing outputs
outputs = [\"b0.0\", \" ( b1.2 ) \"]|outputs = \"b0.0\"|wrong-type outputs
outputs = [\"b0.0\", \" ( b1.2 ) \"]|outputs = []|out-of-range outputs
outputs = [\"b0.0\", \" ( b1.2 ) \"]|outputs = [\"b0.0\", \"b0.0\", \"b0.0\", \"b0.0\", \"b0.0\", \"b0.0\", \"b0.0\", \"b0.0\", \"b0.0\"]|out-of-range outputs
outputs = [\"b0.0\", \" ( b1.2 ) \"]|outputs = [\"b0.0\", \"b0.0\", \"b0.0\", \"b0.0\", \"b0.0\", \"b0.0\", \"b0.0\", \"b0.0\"]|read
outputs = [\"b0.0\", \" ( b1.2 ) \"]|outputs = [\"b0.0\", 1]|wrong-type outputs[1]
outputs = [\"b0.0\", \" ( b1.2 ) \"]|outputs = [\"b0.0\", \"in0\"]|out-of-range outputs[1]
outputs = [\"b0.0\", \" ( b1.2 ) \"]|outputs = [\"b0.0\", \"b0.0 + 0\"]|out-of-range outputs[1]
outputs = [\"b0.0\", \" ( b1.2 ) \"]|outputs = [\"b0.0\", \"b2.0\"]|bad-expr outputs[1] at 1
outputs = [\"b0.0\", \" ( b1.2 ) \"]|outputs = [\"((b0.7))\"]|read
sensors = [[[1, 2], [3, 4], [5, 6]], [[-1, -2], [-3, -4], [-5, -6]]]¶||missing sensors
sensors = [[[1, 2], [3, 4], [5, 6]], [[-1, -2], [-3, -4], [-5, -6]]]|sensors = 1|wrong-type sensors
sensors = [[[1, 2], [3, 4], [5, 6]], [[-1, -2], [-3, -4], [-5, -6]]]|sensors = []|out-of-range sensors
sensors = [[[1, 2], [3, 4], [5, 6]], [[-1, -2], [-3, -4], [-5, -6]]]|sensors = [1]|wrong-type sensors[0]
sensors = [[[1, 2], [3, 4], [5, 6]], [[-1, -2], [-3, -4], [-5, -6]]]|sensors = [[[1, 2], [3, 4]]]|out-of-range sensors[0]
sensors = [[[1, 2], [3, 4], [5, 6]], [[-1, -2], [-3, -4], [-5, -6]]]|sensors = [[[1, 2], [3, 4], [5, 6], [7, 8]]]|out-of-range sensors[0]
sensors = [[[1, 2], [3, 4], [5, 6]], [[-1, -2], [-3, -4], [-5, -6]]]|sensors = [[[1, 2], 3, [5, 6]]]|wrong-type sensors[0][1]
sensors = [[[1, 2], [3, 4], [5, 6]], [[-1, -2], [-3, -4], [-5, -6]]]|sensors = [[[1, 2], [3], [5, 6]]]|out-of-range sensors[0][1]
sensors = [[[1, 2], [3, 4], [5, 6]], [[-1, -2], [-3, -4], [-5, -6]]]|sensors = [[[1, 2], [3, 4, 5], [5, 6]]]|out-of-range sensors[0][1]
sensors = [[[1, 2], [3, 4], [5, 6]], [[-1, -2], [-3, -4], [-5, -6]]]|sensors = [[[1, 2], [3, 4], [5, 1979-05-27T07:32:00Z]]]|wrong-type sensors[0][2][1]
sensors = [[[1, 2], [3, 4], [5, 6]], [[-1, -2], [-3, -4], [-5, -6]]]|sensors = [[[1, 2], [3, 4], [5, 9223372036854775807]]]|read
";

#[test]
fn outputs(rt: HostRuntime) -> Result<(), Fail> {
    assert_eq!(rt; told(rt.alloc(), OUTPUTS)?.as_str(), "21 rows");
    Ok(())
}

const NEWER_TOML: &str =
    "writes = [{ block = 1, w3 = \"sat(in1, -5, 5)\" }]|writes = [{ block = 1, w3 = \"1\", }]|read
writes = [{ block = 1, w3 = \"sat(in1, -5, 5)\" }]|writes = [{ block = 1,¶  w3 = \"1\"¶}]|read
w3 = \"sat(in1, -5, 5)\"|w3 = \"\\x31\"|read
w3 = \"sat(in1, -5, 5)\"|w3 = \"\\e\"|bad-expr task[1].writes[0].w3 at 0
outputs = [\"b0.0\", \" ( b1.2 ) \"]|﻿outputs = [\"b0.0\", \" ( b1.2 ) \"]|read
channels = 3|channels = 0x3|read
channels = 3|channels = 03|not-toml -
";

#[test]
fn newer_toml(rt: HostRuntime) -> Result<(), Fail> {
    assert_eq!(rt; told(rt.alloc(), NEWER_TOML)?.as_str(), "7 rows");
    Ok(())
}

#[test]
fn the_whole_mission_is_read(rt: HostRuntime) -> Result<(), Fail> {
    assert_eq!(rt; answer(rt.alloc(), MISSION.as_bytes())?.as_str(), "read");
    assert_eq!(rt; answer(rt.alloc(), &[0xff])?.as_str(), "not-toml -");
    assert_eq!(rt; answer(rt.alloc(), &[])?.as_str(), "missing core");
    Ok(())
}
