//! The operations as functions, for the closures that a program hands in.

ghost use Rattle.std.specs.Prelude.{◌≡◌};
ghost use Rattle.guards_model.specs.Natives.{saturated, middle, ramp};

/// `value`, but at most `high`, and then at least `low`.
pub fn saturated(value: i64, low: i64, high: i64) -> i64
    ensures { result ≡ saturated value low high }
{
    low.max(value.min(high))
}

/// The second of the three in ascending order.
pub fn middle(a: i64, b: i64, c: i64) -> i64
    ensures { result ≡ middle a b c }
{
    a.min(b).max(a.max(b).min(c))
}

/// `last` moved towards `wanted` by at most the magnitude of `step`.
pub fn ramp(last: i64, wanted: i64, step: i64) -> i64
    ensures { result ≡ ramp last wanted step }
{
    let reach = step.unsigned_abs().min(i64::MAX as u64);
    if last.abs_diff(wanted) <= reach {
        wanted
    } else if last < wanted {
        last + reach as i64
    } else {
        last - reach as i64
    }
}
