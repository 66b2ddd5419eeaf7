//! The posts of all sessions, each session's in lists by tree, made in one pass over its calls.
ghost use Rattle.std.specs.Prelude.{◌≡◌, [], map, replicate, IfOk, OnOk};
ghost use Rattle.trail_replay.specs.Reads.{lists_with, lists_of};

use f_array::PassRecord;
use fold_law::Memory;
use risk_board::Call;
use std::alloc::Global;

/// The posts of each session by tree.
pub(crate) fn lists_in(
    alloc: Global,
    passes: &[PassRecord],
    trees: u32,
) -> Result<Vec<Vec<Vec<u64>>>, Memory>
    ensures { IfOk result (λ all.
        map (λ lists. map (λ values. values.items) lists.items) all.items
        ≡ map (λ did. lists_of trees did.calls) passes.now) }
{
    let mut all = Vec::new(alloc);
    for did in passes {
        let lists = lists_by(alloc, &did.calls, trees)?;
        let Ok(()) = all.push(lists) else {
            return Err(Memory);
        };
    }
    Ok(all)
}

/// The posts of one session by tree.
fn lists_by(alloc: Global, calls: &[Call], trees: u32) -> Result<Vec<Vec<u64>>, Memory>
    ensures { IfOk result (λ lists.
        map (λ values. values.items) lists.items ≡ lists_of trees calls.now) }
{
    let mut lists = empty_lists(alloc, trees)?;
    for call in calls {
        add_to_list(&mut lists, call)?;
    }
    Ok(lists)
}

/// No posts in so many trees.
fn empty_lists(alloc: Global, trees: u32) -> Result<Vec<Vec<u64>>, Memory>
    ensures { IfOk result (λ lists.
        map (λ values. values.items) lists.items ≡ replicate trees []) }
{
    let mut lists = Vec::new(alloc);
    for _ in 0..trees {
        let Ok(()) = lists.push(Vec::new(alloc)) else {
            return Err(Memory);
        };
    }
    Ok(lists)
}

/// Adds the value of a call that is a post.
fn add_to_list(lists: &mut Vec<Vec<u64>>, call: &Call) -> Result<(), Memory>
    ensures { OnOk result (map (λ values. values.items) lists.new.items
        ≡ lists_with (map (λ values. values.items) lists.old.items) call.now) }
{
    let Call::Post { tree, value } = *call else {
        return Ok(());
    };
    let tree = tree as usize;
    if tree < lists.len() {
        let values = &mut lists[tree];
        let Ok(()) = values.push(value) else {
            return Err(Memory);
        };
    }
    Ok(())
}
