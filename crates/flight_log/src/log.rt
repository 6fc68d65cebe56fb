//! The log of the last parts.
ghost use Rattle.std.specs.Prelude.{◌≡◌, ◌≤◌, ◌<◌, [], ◌∷◌, ◌++◌, List, ℕ, length, slice_get, Some, IfOk, MatchOption};
ghost use Rattle.circular_buffer.specs.Buffer.{keep_last};
ghost use Rattle.flight_log.specs.Kept.{HasLastOf, kept};

use circular_buffer::HeapCircularBuffer;
use guards_base::Bytes;
use std::alloc::{AllocError, Global};
use std::marker::Model;

/// The most parts that a log keeps: a run has no more cycles.
pub const MOST_PARTS: u16 = 2_000;

/// The last parts that were pushed.
#[derive(Drop)]
pub struct FlightLog {
    buffer: HeapCircularBuffer<Bytes>,
}

impl Model for FlightLog {
    ghost use Rattle.std.specs.Prelude.{◌≤◌, length, map};
    ghost use Rattle.flight_log.specs.Kept.{Kept, kept};

    ghost Value = { Kept };

    ghost view = { λ log. kept (map (λ part. part.items) log.buffer.items) log.buffer.capacity };

    ghost invariant = { λ log. (1 ≤ log.buffer.capacity) × (log.buffer.capacity ≤ 2000)
        × (length log.buffer.items ≤ log.buffer.capacity) };
}

impl FlightLog {
    /// An empty log that keeps `room` parts.
    pub fn new(alloc: Global, room: u16) -> Result<FlightLog, AllocError>
        requires some { 1 ≤ room }
        requires few { room ≤ 2000 }
        ensures { IfOk result (λ log. log ≡ kept [] room) }
    {
        let buffer = HeapCircularBuffer::with_capacity(alloc, usize::from(room))?;
        Ok(FlightLog { buffer })
    }

    /// Adds a part. Where as many are kept as there is room for, the oldest is pushed out, and answered. It takes no
    /// memory.
    pub fn push(&mut self, part: Bytes) -> Option<Bytes>
        ensures kept { self.new ≡ kept (keep_last self.old.room (self.old.parts ++ part.items ∷ [])) self.old.room }
        ensures last { (pushed : List (List ℕ)) → HasLastOf pushed self.old →
            HasLastOf (pushed ++ part.items ∷ []) self.new }
        ensures out { MatchOption result (length self.old.parts < self.old.room)
            (λ oldest. (length self.old.parts ≡ self.old.room) × (slice_get self.old.parts 0 ≡ Some oldest.items)) }
    {
        self.buffer.push_back(part)
    }

    /// How many parts are kept.
    pub fn len(&self) -> u16
        ensures len { result ≡ length self.now.parts }
        ensures within { (result ≤ self.now.room) × (self.now.room ≤ 2000) }
    {
        self.buffer.len() as u16
    }

    /// Lends a part; the oldest has place 0.
    pub fn get(&self, place: u16) -> &Bytes
        requires { place < length self.now.parts }
        ensures { slice_get self.now.parts place ≡ Some result.now.items }
    {
        self.buffer.get(usize::from(place)).unwrap()
    }
}
