//! Places for items that wait and for what is given for them.
ghost use Rattle.std.specs.Prelude.{◌≡◌, ◌+◌, ◌≤◌, [], length, map, vec_len, vec_capacity};
ghost use Rattle.std.specs.List.{AllZip, AllByRecursion};
ghost use Rattle.fork_all.specs.Slots.{IsDone, IsFilled, Waits};

use std::mem;
use std::thread::{Threads, for_each_mut};

/// An item's place.
#[derive(Drop)]
pub(crate) enum Slot<T, D> {
    /// The item waits.
    Waiting(T),
    /// The item was taken.
    Taken,
    /// What was given for it.
    Done(D),
}

/// A place for each item. There is room for them.
pub(crate) fn waiting<T: Drop, D: Drop>(items: Vec<T>, room: Vec<Slot<T, D>>) -> Vec<Slot<T, D>>
    requires empty { room.items ≡ [] }
    requires room { vec_len items ≤ vec_capacity room }
    ensures { result.items ≡ map Slot.Waiting items.items }
{
    let mut slots = room;
    for item in items {
        slots.push_reserved(Slot::Waiting(item));
    }
    slots
}

/// Applies the function to the item of a place.
fn fill<T: Drop, D: Drop, F: Fn(T) -> D>(slot: &mut Slot<T, D>, apply: &F)
    requires { Waits (F.pre apply.now) slot.old }
    ensures { IsFilled (F.post apply.now) slot.old slot.new }
{
    if let Slot::Waiting(item) = mem::replace(slot, Slot::Taken) {
        *slot = Slot::Done(apply(item));
    }
}

/// Applies the function to the item of each place, all side by side.
pub(crate) fn fill_all<R: Threads + Sync, T: Send + Drop, D: Send + Drop, F: Fn(T) -> D + Sync>(
    rt: &R,
    slots: &mut [Slot<T, D>],
    apply: &F,
)
    requires { AllByRecursion (Waits (F.pre apply.now)) slots.old }
    ensures { AllZip (IsFilled (F.post apply.now)) slots.old slots.new }
{
    let threads = slots.len().max(1);
    let each = |_: usize, slot: &mut Slot<T, D>|
        requires { Waits (F.pre apply.now) slot.now }
        ensures { IsFilled (F.post apply.entry.now) slot.entry.now slot.exit.now }
    { fill(slot, apply) };
    for_each_mut(rt, slots, threads, &each);
}

/// What was given for each item. There is room for it.
pub(crate) fn gathered<T: Drop, D: Drop>(slots: Vec<Slot<T, D>>, room: Vec<D>) -> Vec<D>
    requires done { AllByRecursion IsDone slots.items }
    requires empty { room.items ≡ [] }
    requires room { vec_len slots ≤ vec_capacity room }
    ensures { map Slot.Done result.items ≡ slots.items }
{
    let mut all = room;
    for slot in slots {
        if let Slot::Done(done) = slot {
            all.push_reserved(done);
        }
    }
    all
}
