//! A gate at which two channels wait for each other.
use ctx_lock::{Actor, Gate};
use std::sync::atomic::{AtomicBool, Ordering};
use std::thread;

/// Channels 0 and 1 do not step before both are about to. Where they work one after the other, the turns of the first
/// one run out, and it is noted that it waited in vain.
#[derive(Drop)]
pub struct Meeting {
    first: AtomicBool,
    second: AtomicBool,
    missed: AtomicBool,
}

impl Meeting {
    pub fn new() -> Meeting {
        Meeting {
            first: AtomicBool::new(false),
            second: AtomicBool::new(false),
            missed: AtomicBool::new(false),
        }
    }

    /// Whether both came, and neither waited in vain.
    pub fn was_held(&self) -> bool {
        self.first.load(Ordering::SeqCst)
            && self.second.load(Ordering::SeqCst)
            && !self.missed.load(Ordering::SeqCst)
    }

    fn wait_for(&self, other: &AtomicBool) {
        for _ in 0..20_000_000u32 {
            if other.load(Ordering::SeqCst) {
                return;
            }
            thread::yield_now();
        }
        self.missed.store(true, Ordering::SeqCst);
    }
}

impl Gate for Meeting {
    fn before(&self, chan: u8, _actor: Actor, _place: usize) {
        match chan {
            0 => {
                self.first.store(true, Ordering::SeqCst);
                self.wait_for(&self.second);
            }
            1 => {
                self.second.store(true, Ordering::SeqCst);
                self.wait_for(&self.first);
            }
            _ => {}
        }
    }
}
