//! The lock: one value in a table of one slot, which two passes step by turns.
ghost use Rattle.std.specs.Prelude.{◌≡◌, ◌<◌, ◌≤◌, [], ◌∷◌, IfOk, IfErr, IfSome, MatchBool, Some, None};
ghost use Rattle.guards_model.specs.declared.Actor.TheVariants.{Task, Sweep};
ghost use Rattle.ctx_lock.specs.declared.view.Stage.TheVariants.{Waits, Turns};
ghost use Rattle.ctx_lock.specs.History.{times};
ghost use Rattle.ctx_lock.specs.Views.{has, winner, released};
ghost use Rattle.ctx_lock.specs.Plays.{IsFound, Grown};
ghost use Rattle.ctx_lock.specs.Passes.{AreStepsOf, starter, IsSameView, IsNext, IsDone, IsClosed};

use crate::gate::Gate;
use crate::plays::{Both, Claim, Further, Open, Order, Release, Win};
use crate::turned::Turned;
use crate::view::View;
use atomic_table::{Seat, Table};
use guards_base::Refused;
use guards_model::Actor;
use std::alloc::{AllocError, Global};
use std::snapshot::Snapshot;
use std::sync::Wait;
use std::thread;

/// A value that two passes step by turns.
pub struct Shared<T: Turned> {
    table: Table<Option<T>, View<T::Origin>, Snapshot<T>, Order, Global>,
    ghost sized: { (table.shared.table_id.words ≡ 2) × (table.shared.table_id.slots ≡ 1) },
}

// A table that has no value yet, with the seat that is to open it and another one for Sweep.
struct Laid<T: Turned> {
    table: Table<Option<T>, View<T::Origin>, Snapshot<T>, Order, Global>,
    opener: Seat<Option<T>, View<T::Origin>>,
    sweeper: Seat<Option<T>, View<T::Origin>>,
    ghost sized: { (table.shared.table_id.words ≡ 2) × (table.shared.table_id.slots ≡ 1) },
}

/// The right to step for one actor. Its seat's view has what it knows.
#[derive(Drop)]
pub struct Pass<T: Turned> {
    seat: Seat<Option<T>, View<T::Origin>>,
    actor: Actor,
    made: usize,
    ghost idle: { seat.me.1 ≡ [] },
    ghost waits: { seat.me.0.stage ≡ Waits },
    ghost acts: { seat.me.0.actors ≡ actor ∷ [] },
    ghost counts: { AreStepsOf actor made seat.me.0.steps },
}

/// A value that came out of the lock. It has no public field, and `Shared::close` alone makes one: whoever has it
/// knows that each of its steps was made under the lock, once, by the pass of its actor.
#[derive(Drop)]
pub struct Closed<T: Turned> {
    value: T,
    lock: Snapshot<Shared<T>>,
}

impl<T: Turned> Closed<T> {
    ghost use Rattle.ctx_lock.specs.Handles.{closed_value};

    /// The value, which is then an ordinary one again.
    pub fn into_value(self) -> T
        ensures { result ≡ closed_value self }
    {
        let Closed { value, lock: _ } = self;
        value
    }
}

impl<T: Turned> Pass<T> {
    ghost use Rattle.ctx_lock.specs.Handles.{actor_of};

    /// For whom the pass steps.
    pub fn actor(&self) -> Actor
        ensures { result ≡ actor_of self.now }
    {
        self.actor
    }
}

impl<T: Turned> Shared<T> {
    ghost use Rattle.ctx_lock.specs.Handles.{begun, actor_of, view, closed_value, closed_from, IsPassOf, IsSamePass};

    /// Waits for the turn and takes the value out.
    fn win<R: Wait>(&self, rt: &R, seat: &mut Seat<Option<T>, View<T::Origin>>) -> T
        requires table { seat.old.table_id ≡ self.now.table.shared.table_id }
        requires idle { (seat.old.me.1 ≡ []) × (seat.old.me.0.stage ≡ Waits) }
        requires acts { (a : _) × (0 < has a seat.old.me.0) }
        ensures table { seat.new.table_id ≡ seat.old.table_id }
        ensures found { IsFound T.origin T.history T.due seat.old.me.0 result }
        ensures seat { seat.new.me ≡ (winner (T.history result) seat.old.me.0, (0, None) ∷ []) }
    {
        for _ in rt.forever() {
            if self.table.shared.compare_exchange::<Win>(seat, 0, 0, 1) == 0 {
                return self.table.shared.exchange(seat, 0, None).unwrap();
            }
            thread::yield_now();
        }
        unreachable!()
    }

    /// Puts the value back and gives the turn up.
    fn release(&self, seat: &mut Seat<Option<T>, View<T::Origin>>, value: T)
        requires table { seat.old.table_id ≡ self.now.table.shared.table_id }
        requires turn { (seat.old.me.0.stage ≡ Turns) × (seat.old.me.1 ≡ (0, None) ∷ []) }
        requires origin { seat.old.me.0.origin ≡ Some (T.origin value) }
        requires grown { Grown T.origin T.history T.due seat.old.me.0 value }
        ensures table { seat.new.table_id ≡ seat.old.table_id }
        ensures seat { seat.new.me ≡ (released (T.history value) seat.old.me.0, []) }
    {
        let empty = self.table.shared.exchange(seat, 0, Some(value));
        let None = empty else { unreachable!() };
        self.table.shared.swap::<Release>(seat, 0, 0);
    }

    /// Calls the gate, waits for the turn, and does one step of the pass's actor. It answers false where all steps that
    /// are due of this actor were made. `chan` is for the gate alone. It takes no memory.
    pub fn take_step<G: Gate, R: Wait>(
        &self,
        rt: &R,
        chan: u8,
        pass: &mut Pass<T>,
        gate: &G,
    ) -> bool
        requires { IsPassOf self.now pass.old }
        ensures pass { IsSamePass pass.old pass.new }
        ensures same { IsSameView (view pass.old) (view pass.new) }
        ensures stepped { MatchBool result (IsNext T.due (actor_of pass.old) (view pass.old) (view pass.new))
            (IsDone T.due (actor_of pass.old) (view pass.old) (view pass.new)) }
    {
        gate.before(chan, pass.actor, pass.made);
        let mut value = self.win(rt, &mut pass.seat);
        let stepped = value.step(pass.actor);
        self.release(&mut pass.seat, value);
        if stepped {
            pass.made += 1;
        }
        stepped
    }

    /// Ends the turns: both passes are used up, and the value comes back as a closed one.
    pub fn close(self, task: Pass<T>, sweep: Pass<T>) -> Closed<T>
        requires passes { IsPassOf self task × IsPassOf self sweep }
        requires actors { (actor_of task ≡ Task) × (actor_of sweep ≡ Sweep) }
        ensures begun { closed_from result ≡ begun self }
        ensures closed { IsClosed T.origin T.history T.due (begun self) (view task) (view sweep) (closed_value result) }
    {
        let lock = Snapshot::of(&self);
        let Shared { table } = self;
        let Pass {
            seat: mut kept,
            actor: _,
            made: _,
        } = task;
        let Pass {
            seat: other,
            actor: _,
            made: _,
        } = sweep;
        table.shared.join_seat::<Both>(&mut kept, other);
        let mut closed = table.close_with(kept);
        let last = closed.take(0);
        closed.free();
        let Some(value) = last else { unreachable!() };
        Closed { value, lock }
    }
}

impl<T: Turned> Laid<T> {
    ghost use Rattle.ctx_lock.specs.Handles.{begun, actor_of, view, IsPassOf, IsLaid};

    // `None` where Sweep was claimed already.
    fn new(alloc: Global, value: &T) -> Result<Option<Laid<T>>, AllocError>
        requires { (a : Actor) → times a (T.history value.now) ≤ T.due (T.origin value.now) a }
        ensures { IfOk result (λ made. IfSome made (λ laid. IsLaid T.origin T.history value.now laid)) }
    {
        let key = Snapshot::of(value);
        let (table, mut opener) = Table::vacant(alloc, &[2, 0], 1, &key)?;
        let mut sweeper = table.shared.split_seat::<Further>(&mut opener);
        if table.shared.swap::<Claim>(&mut sweeper, 1, 1) == 0 {
            return Ok(Some(Laid {
                table,
                opener,
                sweeper,
            }));
        }
        let mut closed = table.close_with(opener);
        let empty = closed.take(0);
        closed.free();
        let None = empty else { unreachable!() };
        Ok(None)
    }

    // Puts the value in.
    fn open(self, value: T) -> (Shared<T>, Pass<T>, Pass<T>)
        requires { IsLaid T.origin T.history value self }
        ensures begun { begun result.0 ≡ value }
        ensures passes { IsPassOf result.0 result.1 × IsPassOf result.0 result.2 }
        ensures actors { (actor_of result.1 ≡ Task) × (actor_of result.2 ≡ Sweep) }
        ensures views { (view result.1 ≡ starter Task (T.origin value) (T.history value))
            × (view result.2 ≡ starter Sweep (T.origin value) (T.history value)) }
    {
        let Laid {
            table,
            mut opener,
            sweeper,
        } = self;
        table.shared.swap::<Open>(&mut opener, 0, 1);
        let shared = Shared { table };
        shared.release(&mut opener, value);
        let task = Pass {
            seat: opener,
            actor: Actor::Task,
            made: 0,
        };
        let sweep = Pass {
            seat: sweeper,
            actor: Actor::Sweep,
            made: 0,
        };
        (shared, task, sweep)
    }
}

impl<T: Turned> Shared<T> {
    ghost use Rattle.ctx_lock.specs.Handles.{begun, actor_of, view, IsPassOf};

    /// Makes a lock for the value, with a pass for Task and one for Sweep, which are its only passes. For want of
    /// memory the value comes back.
    pub fn begin<R: Wait>(
        rt: &R,
        alloc: Global,
        value: T,
    ) -> Result<(Shared<T>, Pass<T>, Pass<T>), Refused<T>>
        requires { (a : Actor) → times a (T.history value) ≤ T.due (T.origin value) a }
        ensures begun { IfOk result (λ r. begun r.0 ≡ value) }
        ensures passes { IfOk result (λ r. IsPassOf r.0 r.1 × IsPassOf r.0 r.2) }
        ensures actors { IfOk result (λ r. (actor_of r.1 ≡ Task) × (actor_of r.2 ≡ Sweep)) }
        ensures views { IfOk result
            (λ r. (view r.1 ≡ starter Task (T.origin value) (T.history value))
            × (view r.2 ≡ starter Sweep (T.origin value) (T.history value))) }
        ensures refused { IfErr result (λ r. r.value ≡ value) }
    {
        for _ in rt.forever() {
            match Laid::new(alloc, &value) {
                Err(AllocError) => return Err(Refused { value }),
                Ok(Some(laid)) => return Ok(laid.open(value)),
                Ok(None) => {}
            }
        }
        unreachable!()
    }
}
