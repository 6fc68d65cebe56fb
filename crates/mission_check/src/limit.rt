//! How long a mission may be.

/// The most bytes that a mission has.
pub const MAX_MISSION_BYTES: usize = 262_144;
