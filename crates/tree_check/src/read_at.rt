//! The reads of trees, out of what sessions did.
ghost use Rattle.std.specs.Prelude.{◌≡◌, ◌<◌, ◌^◌, [], length, map, replicate, IfOk, OnOk};
ghost use Rattle.trail_replay.specs.Reads.{list_below};
ghost use Rattle.tree_check.specs.Buckets.{with_act, with_acts};
ghost use Rattle.tree_check.specs.Reads.{reads_by};

use fold_law::Memory;
use risk_journal::Act;
use std::alloc::Global;

/// A read of a tree's root: whose it is, from 0, its place in the tree's history, from 0, and its value.
#[derive(Clone, Copy, Debug, PartialEq, Eq)]
pub struct ReadAt {
    pub session: u32,
    pub place: u32,
    pub value: u64,
}

/// Empty lists, so many.
pub(crate) fn empty_lists(alloc: Global, count: usize) -> Result<Vec<Vec<ReadAt>>, Memory>
    ensures { IfOk result (λ all. map (λ own. own.items) all.items ≡ replicate count []) }
{
    let mut all = Vec::new(alloc);
    for _ in 0..count {
        let Ok(()) = all.push(Vec::new(alloc)) else {
            return Err(Memory);
        };
    }
    Ok(all)
}

/// Adds an act of a session that is a read to the list of its tree, if there is one.
fn add_act(all: &mut Vec<Vec<ReadAt>>, session: u32, act: &Act) -> Result<(), Memory>
    ensures { OnOk result (map (λ own. own.items) all.new.items
        ≡ with_act session (map (λ own. own.items) all.old.items) act.now) }
{
    let Act::Read {
        tree,
        place,
        value,
        ..
    } = *act
    else {
        return Ok(());
    };
    let tree = tree as usize;
    if tree < all.len() {
        let own = &mut all[tree];
        let read = ReadAt {
            session,
            place,
            value,
        };
        let Ok(()) = own.push(read) else {
            return Err(Memory);
        };
    }
    Ok(())
}

/// Adds the reads of a session to the lists of their trees.
fn add_session(all: &mut Vec<Vec<ReadAt>>, session: u32, acts: &[Act]) -> Result<(), Memory>
    ensures { OnOk result (map (λ own. own.items) all.new.items
        ≡ with_acts session (map (λ own. own.items) all.old.items) acts.now) }
{
    for act in acts {
        add_act(all, session, act)?;
    }
    Ok(())
}

/// The reads of each of so many trees, session by session, out of all that the sessions did.
pub fn reads_by_tree(
    alloc: Global,
    trees: usize,
    acts: &[Vec<Act>],
) -> Result<Vec<Vec<ReadAt>>, Memory>
    requires few { length acts.now < 2 ^ 32 }
    ensures { IfOk result (λ all. map (λ own. own.items) all.items
        ≡ list_below (λ tree. reads_by tree (map (λ own. own.items) acts.now)) trees) }
{
    let mut all = empty_lists(alloc, trees)?;
    for session in 0..acts.len() {
        add_session(&mut all, session as u32, acts[session].as_slice())?;
    }
    Ok(all)
}
