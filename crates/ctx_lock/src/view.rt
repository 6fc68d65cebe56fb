//! What a seat at the lock's table knows. No value of these types is made.
use guards_model::Actor;
use std::collections::LinkedList;

/// How far a seat has got.
pub enum Stage {
    /// It does not have the turn.
    Waits,
    /// It is to put the value into the table.
    Opens,
    /// It has the turn.
    Turns,
}

/// What a seat knows of the lock.
pub struct View<O> {
    /// The value's origin, or `None` in a spent view.
    pub origin: Option<O>,
    /// The history that the value had when the lock was made.
    pub first: LinkedList<Actor>,
    /// A beginning of the history.
    pub seen: LinkedList<Actor>,
    /// Another beginning of the history, which a seat had seen that was joined.
    pub heard: LinkedList<Actor>,
    /// For whom the seat steps.
    pub actors: LinkedList<Actor>,
    /// The steps that the seat has made.
    pub steps: LinkedList<Actor>,
    pub stage: Stage,
}
