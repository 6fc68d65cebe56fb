//! The answer of a call that takes a value and has no memory for its work.

/// Hands a value back unchanged for want of memory.
#[derive(Debug, Drop)]
pub struct Refused<T> {
    pub value: T,
}
