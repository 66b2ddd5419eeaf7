//! All trees of a forest, each checked by itself, side by side.
ghost use Rattle.std.specs.Prelude.{◌≡◌, IfOk};
ghost use Rattle.std.specs.List.{list_all, AllByRecursion};
ghost use Rattle.tree_check.specs.Agreeing.{CanBeChecked, IsAnswered, tree_agrees, yes_of};

use crate::read_at::ReadAt;
use crate::staying::stays_within;
use crate::walking::are_walked;
use fold_law::{Fold, Memory};
use fork_all::map_all;
use std::alloc::Global;
use std::thread::Threads;
use trail_replay::History;

/// A tree as its journal tells it: its history, the reads of all sessions in it, and its limit, where it
/// has one, in currency units.
#[derive(Drop)]
pub struct ToldTree {
    pub history: History,
    pub reads: Vec<ReadAt>,
    pub limit: Option<u64>,
}

/// Whether the reads of a tree agree with a walk, and what is admitted stays within its limit.
fn tree_agrees<F: Fold>(alloc: Global, sessions: u32, tree: ToldTree) -> Result<bool, Memory>
    requires { CanBeChecked F.CAP sessions tree }
    ensures { IfOk result (λ found. found ≡ tree_agrees F.join F.UNIT sessions tree) }
{
    let ToldTree {
        history,
        reads,
        limit,
    } = tree;
    if !are_walked::<F>(alloc, &history, &reads)? {
        return Ok(false);
    }
    match limit {
        None => Ok(true),
        Some(limit) => stays_within(alloc, sessions, &history.lines, &reads, limit),
    }
}

/// Whether the answer is yes for each tree, where memory was wanting for none.
fn all_agree(done: Vec<Result<bool, Memory>>) -> Result<bool, Memory>
    ensures { IfOk result (λ found. AllByRecursion IsAnswered done.items
        × (found ≡ list_all yes_of done.items)) }
{
    let mut all = true;
    for one in done {
        let yes = one?;
        all = all && yes;
    }
    Ok(all)
}

/// Whether each tree of a forest agrees with what its journal tells: each is checked by itself, all side
/// by side.
pub fn trees_agree<R: Threads + Sync, F: Fold + Sync>(
    rt: &R,
    alloc: Global,
    sessions: u32,
    trees: Vec<ToldTree>,
) -> Result<bool, Memory>
    requires { AllByRecursion (CanBeChecked F.CAP sessions) trees.items }
    ensures { IfOk result (λ all. all ≡ list_all (tree_agrees F.join F.UNIT sessions) trees.items) }
{
    let check = |tree: ToldTree| -> Result<bool, Memory>
        requires { CanBeChecked F.CAP sessions tree }
        ensures { IfOk result (λ found. found ≡ tree_agrees F.join F.UNIT sessions tree) }
    { tree_agrees::<F>(alloc, sessions, tree) };
    match map_all(rt, alloc, trees, &check) {
        Ok(done) => all_agree(done),
        Err(_) => Err(Memory),
    }
}
