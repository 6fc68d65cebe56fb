//! Where a test may hold a worker before its step.
use guards_model::Actor;

/// Where a worker may be held before each of its steps.
pub trait Gate: Sync {
    /// Is called once by each `take_step`, before it asks for the turn, with the number of steps that its worker has
    /// made. No lock is held meanwhile.
    fn before(&self, chan: u8, actor: Actor, place: usize);
}

/// The gate that does nothing.
pub struct OpenGate;

impl Gate for OpenGate {
    fn before(&self, _chan: u8, _actor: Actor, _place: usize) {}
}
