use ctx_lock::{Actor, Gate, OpenGate, both};
use lock_example::Score;
use std::sync::atomic::{AtomicBool, Ordering};
use std::test::Fail;
use std::thread;

// Holds Task back until Sweep has made all its steps.
#[derive(Drop)]
struct SweepFirst {
    sweeps: usize,
    swept: AtomicBool,
}

impl Gate for SweepFirst {
    fn before(&self, _chan: u8, actor: Actor, place: usize) {
        match actor {
            Actor::Sweep => {
                if place == self.sweeps {
                    self.swept.store(true, Ordering::SeqCst);
                }
            }
            Actor::Task => {
                for _ in 0..u64::MAX {
                    if self.swept.load(Ordering::SeqCst) {
                        return;
                    }
                    thread::yield_now();
                }
            }
        }
    }
}

fn count_of(history: &[Actor], actor: Actor) -> usize {
    history.iter().filter(|a| **a == actor).count()
}

#[test]
fn a_gate_lets_sweep_go_first(rt: HostRuntime) -> Result<(), Fail> {
    let score = Score::new(rt.alloc(), 3, 2)?;
    let gate = SweepFirst {
        sweeps: 2,
        swept: AtomicBool::new(false),
    };
    let Ok(closed) = both(&rt, rt.alloc(), score, 1, &gate) else {
        panic!(rt; "there was memory")
    };
    let trail = Score::end(closed);
    let played = [
        Actor::Sweep,
        Actor::Sweep,
        Actor::Task,
        Actor::Task,
        Actor::Task,
    ];
    assert!(rt; trail.steps() == played.as_slice());
    Ok(())
}

#[test]
fn every_step_is_made_once(rt: HostRuntime) -> Result<(), Fail> {
    let score = Score::new(rt.alloc(), 2000, 3000)?;
    let Ok(closed) = both(&rt, rt.alloc(), score, 1, &OpenGate) else {
        panic!(rt; "there was memory")
    };
    let score = closed.into_value();
    let history = score.history();
    assert!(rt; count_of(history, Actor::Task) == 2000 && count_of(history, Actor::Sweep) == 3000);
    Ok(())
}
