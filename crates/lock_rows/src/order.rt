//! A gate that makes two workers step in one order.
use ctx_lock::{Actor, Gate};
use std::sync::atomic::{AtomicUsize, Ordering};
use std::thread;

/// The order, as numbers: 0 for a write and else a copy. It counts how many writes and copies their workers are known
/// to have made.
#[derive(Drop)]
pub struct InOrder<'a> {
    order: &'a [u8],
    writes: AtomicUsize,
    copies: AtomicUsize,
}

fn is_of(step: u8, actor: Actor) -> bool {
    match actor {
        Actor::Task => step == 0,
        Actor::Sweep => step != 0,
    }
}

impl<'a> InOrder<'a> {
    pub fn new(order: &'a [u8]) -> InOrder<'a> {
        InOrder {
            order,
            writes: AtomicUsize::new(0),
            copies: AtomicUsize::new(0),
        }
    }

    fn made(&self, actor: Actor) -> &AtomicUsize {
        match actor {
            Actor::Task => &self.writes,
            Actor::Sweep => &self.copies,
        }
    }

    // How many steps of the other actor come before the actor's step at this place.
    fn others_before(&self, actor: Actor, place: usize) -> usize {
        let mut own: usize = 0;
        let mut others: usize = 0;
        for step in self.order.iter() {
            if is_of(*step, actor) {
                if own == place {
                    return others;
                }
                own = own.saturating_add(1);
            } else {
                others = others.saturating_add(1);
            }
        }
        others
    }
}

impl<'a> Gate for InOrder<'a> {
    fn before(&self, _chan: u8, actor: Actor, place: usize) {
        self.made(actor).store(place, Ordering::SeqCst);
        let other = match actor {
            Actor::Task => Actor::Sweep,
            Actor::Sweep => Actor::Task,
        };
        let wanted = self.others_before(actor, place);
        for _ in 0..100_000_000u32 {
            if wanted <= self.made(other).load(Ordering::SeqCst) {
                return;
            }
            thread::yield_now();
        }
    }
}
