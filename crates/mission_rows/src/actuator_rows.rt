//! The key `actuator`, which is judged after the script.

use crate::answers::told;
use std::test::Fail;

const ACTUATORS: &str = "[[init]]|[actuator]¶step = [3, 0]¶[[init]]|read
[[init]]|[actuator]¶step = [3, 0]¶start = [-7, 9]¶[[init]]|read
[[init]]|[actuator]¶start = [-7, 9]¶step = [3, 0]¶[[init]]|read
[[init]]|[actuator]¶step = [9223372036854775807, 0]¶start = [-9223372036854775808, 9223372036854775807]¶[[init]]|read
[[init]]|[actuators]¶step = [3, 0]¶[[init]]|unknown -
outputs = |actuator = 1¶outputs = |wrong-type actuator
[[init]]|[[actuator]]¶step = [3, 0]¶[[init]]|wrong-type actuator
[[init]]|[actuator]¶[[init]]|missing actuator.step
[[init]]|[actuator]¶start = [-7, 9]¶[[init]]|missing actuator.step
[[init]]|[actuator]¶steps = [3, 0]¶[[init]]|unknown actuator
[[init]]|[actuator]¶step = [3, 0]¶starts = [-7, 9]¶[[init]]|unknown actuator
[[init]]|[actuator]¶step = 3¶[[init]]|wrong-type actuator.step
[[init]]|[actuator]¶step = []¶[[init]]|out-of-range actuator.step
[[init]]|[actuator]¶step = [3]¶[[init]]|out-of-range actuator.step
[[init]]|[actuator]¶step = [3, 0, 1]¶[[init]]|out-of-range actuator.step
[[init]]|[actuator]¶step = [-1]¶[[init]]|out-of-range actuator.step
[[init]]|[actuator]¶step = [3, 0.5]¶[[init]]|wrong-type actuator.step[1]
[[init]]|[actuator]¶step = [-1, 0]¶[[init]]|out-of-range actuator.step[0]
[[init]]|[actuator]¶step = [3, -9223372036854775808]¶[[init]]|out-of-range actuator.step[1]
[[init]]|[actuator]¶step = [\"3\", -1]¶[[init]]|wrong-type actuator.step[0]
[[init]]|[actuator]¶step = [-1, true]¶[[init]]|out-of-range actuator.step[0]
[[init]]|[actuator]¶step = [3, -1]¶start = 1¶[[init]]|out-of-range actuator.step[1]
[[init]]|[actuator]¶step = [3, 0]¶start = \"0\"¶[[init]]|wrong-type actuator.start
[[init]]|[actuator]¶step = [3, 0]¶start = []¶[[init]]|out-of-range actuator.start
[[init]]|[actuator]¶step = [3, 0]¶start = [-7]¶[[init]]|out-of-range actuator.start
[[init]]|[actuator]¶step = [3, 0]¶start = [-7, 9, 0]¶[[init]]|out-of-range actuator.start
[[init]]|[actuator]¶step = [3, 0]¶start = [-7, true]¶[[init]]|wrong-type actuator.start[1]
\"b0.0\", \" ( b1.2 ) \"|\"b0.0\"|[[init]]|[actuator]¶step = [3]¶[[init]]|read
\"b0.0\", \" ( b1.2 ) \"|\"b0.0\"|[[init]]|[actuator]¶step = [3, 0]¶[[init]]|out-of-range actuator.step
[[init]]|[actuator]¶[[init]]|kind = \"crash\"|kind = \"crush\"|unknown fault[0].kind
[[init]]|[actuator]¶[[init]]|block = 1¶word = 7|block = 9¶word = 7|out-of-range fault[2].block
";

#[test]
fn actuators(rt: HostRuntime) -> Result<(), Fail> {
    assert_eq!(rt; told(rt.alloc(), ACTUATORS)?.as_str(), "31 rows");
    Ok(())
}
