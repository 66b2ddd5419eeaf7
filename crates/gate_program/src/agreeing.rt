//! The trees of a load against what its journal tells of them.
ghost use Rattle.std.specs.Prelude.{◌≡◌, ◌^◌, ◌≤◌, ◌<◌, ◌++◌, length, map, IfOk};
ghost use Rattle.limit_table.specs.Trees.{halt_tree, limit_of};
ghost use Rattle.gate_program.specs.Agreeing.{AreTold, CanBeTold};

use crate::totals::row_of;
use admit_core::admitted_stays_within;
use fold_law::{Max, Memory, Sum};
use limit_table::Limits;
use risk_journal::Journal;
use std::alloc::Global;
use std::thread::Threads;
use trail_replay::History;
use tree_check::{ToldTree, legal_reads_are_walked, reads_by_tree, staying_is_within, trees_agree};

/// The limit of a tree in currency units, where it has one.
fn limit_in(limits: &Limits, tree: usize) -> Option<u64>
    ensures { result ≡ limit_of limits.now tree }
{
    if tree < limits.halt_tree() as usize {
        Some(row_of(limits, tree).limit)
    } else {
        None
    }
}

/// The trees of a journal, each with its reads and its limit.
fn told_trees(alloc: Global, limits: &Limits, journal: Journal) -> Result<Vec<ToldTree>, Memory>
    requires few { length journal.acts.items < 2 ^ 32 }
    ensures trees { IfOk result (λ trees. AreTold limits.now
        (map (λ own. own.items) journal.acts.items)
        (map (λ own. own.items) journal.lines.items) trees.items) }
    ensures many { IfOk result (λ trees. length trees.items ≡ length journal.lines.items) }
{
    let Journal { acts, mut lines } = journal;
    let count = lines.len();
    let mut reads = reads_by_tree(alloc, count, &acts)?;
    let mut trees = Vec::new(alloc);
    for tree in 0..count {
        let told = ToldTree {
            history: History {
                lines: lines.remove(0),
                places: Vec::new(alloc),
            },
            reads: reads.remove(0),
            limit: limit_in(limits, tree),
        };
        let Ok(()) = trees.push(told) else {
            return Err(Memory);
        };
    }
    Ok(trees)
}

/// The trees of sums, and the halt tree by itself.
#[derive(Drop)]
struct Split {
    sums: Vec<ToldTree>,
    halts: Vec<ToldTree>,
}

/// Takes the last tree, which is the halt tree, from the others.
fn split_halt(alloc: Global, trees: Vec<ToldTree>) -> Result<Split, Memory>
    requires some { 1 ≤ length trees.items }
    ensures all { IfOk result (λ split. trees.items ≡ split.sums.items ++ split.halts.items) }
    ensures one { IfOk result (λ split. length split.halts.items ≡ 1) }
{
    let mut sums = trees;
    let mut halts = Vec::new(alloc);
    let Some(halt) = sums.pop() else {
        unreachable!()
    };
    let Ok(()) = halts.push(halt) else {
        return Err(Memory);
    };
    Ok(Split { sums, halts })
}

/// Compares each read of a journal with a walk along its tree's history, and what is admitted with the
/// tree's limit. That they agree is proved of every journal that can be told.
pub(crate) fn compare_trees<R: Threads + Sync>(
    rt: &R,
    alloc: Global,
    limits: &Limits,
    journal: Journal,
) -> Result<(), Memory>
    requires { CanBeTold limits.now (map (λ own. own.items) journal.acts.items)
        (map (λ own. own.items) journal.lines.items) }
{
    admitted_stays_within();
    legal_reads_are_walked::<Sum>();
    legal_reads_are_walked::<Max>();
    staying_is_within();
    let sessions = journal.acts.len() as u32;
    let trees = told_trees(alloc, limits, journal)?;
    let Split { sums, halts } = split_halt(alloc, trees)?;
    let sums_agree = trees_agree::<R, Sum>(rt, alloc, sessions, sums)?;
    let halts_agree = trees_agree::<R, Max>(rt, alloc, sessions, halts)?;
    if sums_agree && halts_agree {
        Ok(())
    } else {
        unreachable!()
    }
}
