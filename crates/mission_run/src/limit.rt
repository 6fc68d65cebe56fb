//! How long the input of an audit may be.

/// The most bytes that a mission and the trace of its run have together.
pub const MAX_AUDIT_BYTES: usize = 16_777_216;
