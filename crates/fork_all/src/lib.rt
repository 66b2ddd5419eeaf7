//! A function applied to each item of a list, all side by side, with the results in their order.
//!
//! The list is halved at each step and one half goes to a thread of its own. Where no thread can be
//! made, the halves run one after the other.
#![tactic(auto)]

mod slots;

ghost use Rattle.std.specs.Prelude.{◌≡◌, IfErr, IfOk};
ghost use Rattle.std.specs.List.{AllZip, AllByRecursion};

use crate::slots::{fill_all, gathered, waiting};
use std::alloc::Global;
use std::thread::Threads;

/// What the function gives for each item, in order. All memory is taken before the first call, and
/// where it is wanting there is no call, and the items are given back.
pub fn map_all<R: Threads + Sync, T: Send + Drop, D: Send + Drop, F: Fn(T) -> D + Sync>(
    rt: &R,
    alloc: Global,
    items: Vec<T>,
    apply: &F,
) -> Result<Vec<D>, Vec<T>>
    requires { AllByRecursion (F.pre apply.now) items.items }
    ensures ok { IfOk result (λ done. AllZip (F.post apply.now) items.items done.items) }
    ensures err { IfErr result (λ back. back.items ≡ items.items) }
{
    let Ok(slots) = Vec::with_capacity(alloc, items.len()) else {
        return Err(items);
    };
    let Ok(room) = Vec::with_capacity(alloc, items.len()) else {
        return Err(items);
    };
    let mut slots = waiting(items, slots);
    fill_all(rt, &mut slots, apply);
    Ok(gathered(slots, room))
}
