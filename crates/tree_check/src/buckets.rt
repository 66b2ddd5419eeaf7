//! The reads of a tree by their places.
ghost use Rattle.std.specs.Prelude.{◌≡◌, map, filter, IfOk, OnOk};
ghost use Rattle.trail_replay.specs.Reads.{list_below};
ghost use Rattle.tree_check.specs.Reads.{is_at};
ghost use Rattle.tree_check.specs.Buckets.{with_read};

use crate::read_at::{ReadAt, empty_lists};
use fold_law::Memory;
use std::alloc::Global;

/// Adds a read at its place, if that is one of these.
fn add_read(all: &mut Vec<Vec<ReadAt>>, read: ReadAt) -> Result<(), Memory>
    ensures { OnOk result (map (λ own. own.items) all.new.items
        ≡ with_read (map (λ own. own.items) all.old.items) read) }
{
    let place = read.place as usize;
    if place < all.len() {
        let own = &mut all[place];
        let Ok(()) = own.push(read) else {
            return Err(Memory);
        };
    }
    Ok(())
}

/// The reads at each of so many places, from 0 on, in their order.
pub(crate) fn by_place(
    alloc: Global,
    reads: &[ReadAt],
    places: usize,
) -> Result<Vec<Vec<ReadAt>>, Memory>
    ensures { IfOk result (λ all. map (λ own. own.items) all.items
        ≡ list_below (λ place. filter (is_at place) reads.now) places) }
{
    let mut all = empty_lists(alloc, places)?;
    for read in reads {
        add_read(&mut all, *read)?;
    }
    Ok(all)
}
