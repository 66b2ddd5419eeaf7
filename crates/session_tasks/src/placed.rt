//! The acts of sessions with the places of their reads.
ghost use Rattle.std.specs.Prelude.{◌≡◌, IfOk, map};
ghost use Rattle.risk_journal.specs.ActLists.{placed_by, place_in};

use fold_law::Memory;
use fork_all::map_all;
use risk_journal::{Act, set_places};
use std::alloc::Global;
use std::thread::Threads;

/// The acts of one session with the places of their reads.
fn placed(acts: Vec<Act>, places: &[Vec<u32>]) -> Vec<Act>
    ensures { result.items
        ≡ map (placed_by (place_in (map (λ own. own.items) places.now))) acts.items }
{
    let mut acts = acts;
    set_places(&mut acts, places);
    acts
}

/// The acts of all sessions with the places of their reads, by tree and stamp. They are set side by
/// side.
pub fn all_placed<R: Threads + Sync>(
    rt: &R,
    alloc: Global,
    acts: Vec<Vec<Act>>,
    places: &[Vec<u32>],
) -> Result<Vec<Vec<Act>>, Memory>
    ensures { IfOk result (λ all. map (λ own. own.items) all.items
        ≡ map (map (placed_by (place_in (map (λ own. own.items) places.now))))
        (map (λ own. own.items) acts.items)) }
{
    let place = |own: Vec<Act>| -> Vec<Act>
        ensures { result.items
            ≡ map (placed_by (place_in (map (λ own. own.items) places.entry.now))) own.items }
    { placed(own, places) };
    match map_all(rt, alloc, acts, &place) {
        Ok(all) => Ok(all),
        Err(_) => Err(Memory),
    }
}
