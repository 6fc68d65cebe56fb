//! Missions in which all channels work on and compute.

/// The rows, with § between them.
pub const ROWS: &str = "a filter follows its sensors
base FILTER
done 9
carried 360
part filtered
§a gate opens and shuts
base GATE
done 24
carried 1560
part opened
§seven channels compute eight outputs
base SEVEN
done 10
carried 1750
part computed
";
