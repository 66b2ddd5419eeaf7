//! The histories of all trees of a record.
ghost use Rattle.std.specs.Prelude.{◌≡◌, ◌++◌, map, IfOk, OnOk};
ghost use Rattle.std.specs.List.{AllZip, AllByRecursion};
ghost use Rattle.trail_replay.specs.Fronts.{IsLawful};
ghost use Rattle.trail_replay.specs.Histories.{history_of, places_of};
ghost use Rattle.trail_replay.specs.Reads.{list_below};
ghost use Rattle.trail_replay.specs.Replayed.{HasReplayed, IsLawfulTree, IsReplayed, lines_in};
ghost use Rattle.trail_replay.specs.Replayed.{places_in};

use crate::history::History;
use crate::prepared::{Prepared, replay_of};
use f_array::Record;
use fold_law::{Fold, Memory};
use fork_all::map_all;
use risk_board::Line;
use std::alloc::Global;
use std::thread::Threads;

/// The lines of trees, and by tree and stamp of its root the places in them.
#[derive(Drop)]
pub struct Histories {
    pub lines: Vec<Vec<Line>>,
    pub places: Vec<Vec<u32>>,
}

/// The numbers from 0 on, so many.
pub fn numbers(alloc: Global, count: u32) -> Result<Vec<u32>, Memory>
    ensures { IfOk result (λ all. all.items ≡ list_below (λ number. number) count) }
{
    let mut all = Vec::new(alloc);
    for number in 0..count {
        let Ok(()) = all.push(number) else {
            return Err(Memory);
        };
    }
    Ok(all)
}

/// Replays each tree of a prepared record, side by side.
fn replay_all<R: Threads + Sync, F: Fold + Sync>(
    rt: &R,
    alloc: Global,
    taken: &Record,
) -> Result<Vec<Result<History, Memory>>, Memory>
    requires lawful { IsLawful F.UNIT F.CAP F.join taken.now }
    ensures { IfOk result (λ all. AllZip (HasReplayed taken.now)
        (list_below (λ tree. tree) taken.now.shape.trees) all.items) }
{
    let prepared = Prepared::of(alloc, taken)?;
    let trees = numbers(alloc, taken.shape.trees)?;
    let replay = |tree: u32| -> Result<History, Memory>
        requires { IsLawfulTree F.UNIT F.CAP F.join prepared tree }
        ensures { HasReplayed prepared.entry tree result }
    { replay_of::<F>(alloc, &prepared, tree) };
    match map_all(rt, alloc, trees, &replay) {
        Ok(all) => Ok(all),
        Err(_) => Err(Memory),
    }
}

/// Adds the histories of trees that were replayed, where memory was wanting in none.
fn add_all(done: Vec<Result<History, Memory>>, all: &mut Histories) -> Result<(), Memory>
    ensures whole { OnOk result (AllByRecursion IsReplayed done.items) }
    ensures lines { OnOk result (map (λ own. own.items) all.new.lines.items
        ≡ map (λ own. own.items) all.old.lines.items ++ map lines_in done.items) }
    ensures places { OnOk result (map (λ own. own.items) all.new.places.items
        ≡ map (λ own. own.items) all.old.places.items ++ map places_in done.items) }
{
    for replayed in done {
        let History { lines, places } = replayed?;
        let Ok(()) = all.lines.push(lines) else {
            return Err(Memory);
        };
        let Ok(()) = all.places.push(places) else {
            return Err(Memory);
        };
    }
    Ok(())
}

/// Adds the history of each tree of a lawful record. The record is prepared once, and its trees are
/// replayed side by side.
pub fn add_histories<R: Threads + Sync, F: Fold + Sync>(
    rt: &R,
    alloc: Global,
    taken: &Record,
    all: &mut Histories,
) -> Result<(), Memory>
    requires lawful { IsLawful F.UNIT F.CAP F.join taken.now }
    ensures lines { OnOk result (map (λ own. own.items) all.new.lines.items
        ≡ map (λ own. own.items) all.old.lines.items
        ++ list_below (history_of taken.now) taken.now.shape.trees) }
    ensures places { OnOk result (map (λ own. own.items) all.new.places.items
        ≡ map (λ own. own.items) all.old.places.items
        ++ list_below (places_of taken.now) taken.now.shape.trees) }
{
    let done = replay_all::<R, F>(rt, alloc, taken)?;
    add_all(done, all)
}
