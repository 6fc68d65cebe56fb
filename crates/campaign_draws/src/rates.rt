//! How often each kind of fault happens.

/// The rates of the four kinds of faults, in a million channels and cycles.
#[derive(Clone, Copy, Debug, PartialEq, Eq)]
pub struct Rates {
    pub crash: u32,
    pub damage: u32,
    pub lose: u32,
    pub forge: u32,
}
