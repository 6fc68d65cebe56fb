//! A step that all items of a list make at the same time.
ghost use Rattle.std.specs.Prelude.{◌≡◌, length, All, Ok, OnOk, vec_capacity};
ghost use Rattle.std.specs.List.{AllZip};
ghost use Rattle.std.specs.Thread.{IsSync};
ghost use denote.Param.Send.{IsSend};

use std::alloc::AllocError;
use std::thread::{Threads, join};

/// Each item makes the step in a thread of its own, while the others do. They go to the threads as values, and come
/// back in their order, also for want of memory.
pub(crate) fn each_beside<
    T: Drop + Send,
    F: Fn(T) -> (T, Result<(), AllocError>) + Sync,
    R: Threads + Sync,
>(rt: &R, mut items: Vec<T>, step: &F) -> (Vec<T>, Result<(), AllocError>)
    requires { All (λ x. F.pre step.now x) items.items }
    ensures made { OnOk result.1 (AllZip (λ x y. F.post step.now x (y, Ok tt)) items.items result.0.items) }
    ensures count { length result.0.items ≡ length items.items }
    ensures room { vec_capacity result.0 ≡ vec_capacity items }
{
    let Some(last) = items.pop() else {
        return (items, Ok(()));
    };
    if items.is_empty() {
        let (last, then) = step(last);
        items.push_reserved(last);
        return (items, then);
    }
    let ((mut others, first), (last, then)) = join(
        rt,
        || -> (Vec<T>, Result<(), AllocError>)
            requires sync { IsSync R.row × IsSync F.row × IsSend T.row }
            requires may { All (λ x. F.pre step.now x) items.items }
            ensures made { OnOk result.1
                (AllZip (λ x y. F.post step.entry.now x (y, Ok tt)) items.items result.0.items) }
            ensures count { length result.0.items ≡ length items.items }
            ensures room { vec_capacity result.0 ≡ vec_capacity items }
        { each_beside(rt, items, step) },
        || -> (T, Result<(), AllocError>)
            requires { F.pre step.now last }
            ensures { F.post step.entry.now last result }
        { step(last) },
    );
    others.push_reserved(last);
    (others, first.and(then))
}
