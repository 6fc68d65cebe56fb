//! Closures that are kept beside the fact that they answer an operation.

ghost use Rattle.std.specs.Prelude.{◌≡◌};
ghost use Rattle.guards_model.specs.declared.Code.{Code};
ghost use Rattle.guards_model.specs.declared.Code.TheVariants as codes;
ghost use Rattle.guards_model.specs.Natives.{native};
ghost use Rattle.native_calls.specs.Operation.{Computes};

use crate::{Calls, Code};
use std::marker::Model;

/// What can be called on three words: each closure `Fn(i64, i64, i64) -> i64`.
pub trait Operation: Drop {
    // Holds where the value may be called on all triples of words and answers the operation of the code there.
    ghost computes: { Code → Self → Type 0 };

    fn answer(&self, code: Code, a: i64, b: i64, c: i64) -> i64
        requires { computes code self.now }
        ensures { result ≡ native code a b c };
}

impl<F: Fn(i64, i64, i64) -> i64> Operation for F {
    ghost computes = { λ code f. Computes code (F.pre f) (F.post f) };

    fn answer(&self, _code: Code, a: i64, b: i64, c: i64) -> i64 {
        self(a, b, c)
    }
}

/// A closure that computes one of the operations. Contracts see its code.
#[derive(Drop)]
pub struct Native<F: Operation> {
    code: Code,
    f: F,
}

impl<F: Operation> Model for Native<F> {
    ghost Value = { Code };

    ghost view = { λ native. native.code };

    // The fact that the closure is kept beside.
    ghost invariant = { λ native. F.computes native.code native.f };
}

impl<F: Operation + Sync> Native<F> {
    /// Keeps a closure that may be called on all triples of words and answers the operation there.
    pub fn new(code: Code, f: F) -> Native<F>
        requires { F.computes code f }
        ensures { result ≡ code }
    {
        Native { code, f }
    }

    /// The code of the call.
    pub fn code(&self) -> Code
        ensures { result ≡ self.now }
    {
        self.code
    }
}

impl<F: Operation> Native<F> {
    fn answer(&self, a: i64, b: i64, c: i64) -> i64
        ensures { result ≡ native self.now a b c }
    {
        self.f.answer(self.code, a, b, c)
    }
}

/// The three operations, each by its closure.
#[derive(Drop)]
pub struct Natives<X: Operation, Y: Operation, Z: Operation> {
    sat: Native<X>,
    mid: Native<Y>,
    ramp: Native<Z>,
    ghost is_sat: { sat ≡ codes.Sat },
    ghost is_mid: { mid ≡ codes.Mid },
    ghost is_ramp: { ramp ≡ codes.Ramp },
}

impl<X: Operation + Sync, Y: Operation + Sync, Z: Operation + Sync> Natives<X, Y, Z> {
    /// The three calls of the task language.
    pub fn new(sat: Native<X>, mid: Native<Y>, ramp: Native<Z>) -> Natives<X, Y, Z>
        requires is_sat { sat ≡ codes.Sat }
        requires is_mid { mid ≡ codes.Mid }
        requires is_ramp { ramp ≡ codes.Ramp }
    {
        Natives { sat, mid, ramp }
    }
}

impl<X: Operation + Sync, Y: Operation + Sync, Z: Operation + Sync> Calls for Natives<X, Y, Z> {
    fn call(&self, code: Code, a: i64, b: i64, c: i64) -> i64 {
        match code {
            Code::Sat => self.sat.answer(a, b, c),
            Code::Mid => self.mid.answer(a, b, c),
            Code::Ramp => self.ramp.answer(a, b, c),
        }
    }
}
