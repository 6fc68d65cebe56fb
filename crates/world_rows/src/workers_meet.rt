//! A gate at which the two workers of a channel wait for each other.
use ctx_lock::{Actor, Gate};
use std::sync::atomic::{AtomicBool, AtomicU32, Ordering};
use std::thread;

/// Each worker of channel 0 comes once in every cycle before its first step. In their fourth cycle neither goes on
/// before both came. Where they work one after the other, the turns of the first run out, and it is noted that it
/// waited in vain.
#[derive(Drop)]
pub struct WorkersMeet {
    tasks: AtomicU32,
    sweeps: AtomicU32,
    missed: AtomicBool,
}

impl WorkersMeet {
    pub fn new() -> WorkersMeet {
        WorkersMeet {
            tasks: AtomicU32::new(0),
            sweeps: AtomicU32::new(0),
            missed: AtomicBool::new(false),
        }
    }

    /// Whether both came, and neither waited in vain.
    pub fn was_held(&self) -> bool {
        self.tasks.load(Ordering::SeqCst) > 3
            && self.sweeps.load(Ordering::SeqCst) > 3
            && !self.missed.load(Ordering::SeqCst)
    }

    fn meet(&self, own: &AtomicU32, other: &AtomicU32) {
        if own.fetch_add(1, Ordering::SeqCst) != 3 {
            return;
        }
        for _ in 0..100_000_000u32 {
            if other.load(Ordering::SeqCst) > 3 {
                return;
            }
            thread::yield_now();
        }
        self.missed.store(true, Ordering::SeqCst);
    }
}

impl Gate for WorkersMeet {
    fn before(&self, chan: u8, actor: Actor, place: usize) {
        match (chan, place, actor) {
            (0, 0, Actor::Task) => self.meet(&self.tasks, &self.sweeps),
            (0, 0, Actor::Sweep) => self.meet(&self.sweeps, &self.tasks),
            _ => {}
        }
    }
}
