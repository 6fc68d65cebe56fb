ghost use Rattle.std.specs.Prelude.{◌≡◌};
ghost use Rattle.guards_model.specs.declared.Code.TheVariants as codes;
ghost use Rattle.guards_model.specs.Natives.{native};

use native_calls::{Calls, Code, Native, Natives, Operation, ramp};
use std::test::Fail;

/// The answers of `answers`.
const ANSWERS: [i64; 14] = [10, 20, i64::MIN, 5, 0, -3, 3, -1, 0, 4, 3, i64::MIN, 5, 7];

/// The answers at triples on and across the bounds.
fn answers<C: Calls>(natives: &C) -> [i64; 14] {
    [
        natives.call(Code::Sat, 15, 0, 10),
        natives.call(Code::Sat, 15, 20, 10),
        natives.call(Code::Sat, i64::MIN, i64::MIN, i64::MAX),
        natives.call(Code::Mid, 9, 1, 5),
        natives.call(Code::Mid, i64::MAX, i64::MIN, 0),
        natives.call(Code::Ramp, 0, -7, 3),
        natives.call(Code::Ramp, 0, 7, -3),
        natives.call(Code::Ramp, i64::MIN, i64::MAX, i64::MIN),
        natives.call(Code::Ramp, i64::MAX, i64::MIN, i64::MIN),
        natives.call(Code::Sat, 4, 4, 4),
        natives.call(Code::Mid, 3, 8, 3),
        natives.call(Code::Mid, i64::MIN, i64::MAX, i64::MIN),
        natives.call(Code::Ramp, 5, 9, 0),
        natives.call(Code::Ramp, 7, 7, 0),
    ]
}

/// Keeps the three closures, and tries them.
fn keep<X: Operation + Sync, Y: Operation + Sync, Z: Operation + Sync>(
    sat: X,
    mid: Y,
    ramp: Z,
) -> [i64; 14]
    requires sat { X.computes codes.Sat sat }
    requires mid { Y.computes codes.Mid mid }
    requires ramp { Z.computes codes.Ramp ramp }
{
    let sat = Native::new(Code::Sat, sat);
    let mid = Native::new(Code::Mid, mid);
    let ramp = Native::new(Code::Ramp, ramp);
    answers(&Natives::new(sat, mid, ramp))
}

#[test]
fn closures_answer(rt: HostRuntime) -> Result<(), Fail> {
    let answers = keep(
        |a: i64, b: i64, c: i64| -> i64
            ensures { result ≡ native Code.Sat a b c }
        { b.max(a.min(c)) },
        |a: i64, b: i64, c: i64| -> i64
            ensures { result ≡ native Code.Mid a b c }
        { a.min(b).max(a.max(b).min(c)) },
        |a: i64, b: i64, c: i64| -> i64
            ensures { result ≡ native Code.Ramp a b c }
        { ramp(a, b, c) },
    );
    assert_eq!(rt; answers, ANSWERS);
    Ok(())
}

#[test]
fn closure_with_a_capture_answers(rt: HostRuntime) -> Result<(), Fail> {
    let quick = i64::MAX > 0;
    let answers = keep(
        move |a: i64, b: i64, c: i64| -> i64
            ensures { result ≡ native Code.Sat a b c }
        { if quick && a <= b { b } else { b.max(a.min(c)) } },
        |a: i64, b: i64, c: i64| -> i64
            ensures { result ≡ native Code.Mid a b c }
        { a.min(b).max(a.max(b).min(c)) },
        |a: i64, b: i64, c: i64| -> i64
            ensures { result ≡ native Code.Ramp a b c }
        { ramp(a, b, c) },
    );
    assert_eq!(rt; answers, ANSWERS);
    Ok(())
}
