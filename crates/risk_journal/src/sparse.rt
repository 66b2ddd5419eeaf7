//! The lines of a journal, kept only of the trees that have some: memory is linear in the lines,
//! whatever the trees' numbers are.
ghost use Rattle.std.specs.Prelude.{◌≡◌, ◌++◌, ◌+◌, ◌-◌, ◌^◌, ◌≤◌, ◌<◌, [], length, map};
ghost use Rattle.std.specs.Prelude.{◌↔◌, IsTrue, OnOk, IfOk, replicate, slice_index_or};
ghost use Rattle.risk_journal.specs.Reading.{put_line};
ghost use Rattle.risk_journal.specs.SparseTrees.{expand_from, AreRising};

use crate::acts::Act;
use crate::journal::Journal;
use fold_law::Memory;
use risk_board::Line;
use std::alloc::Global;

/// The lines of a tree, by its number from 0, in their order.
#[derive(Drop)]
pub struct TreeLines {
    pub tree: u32,
    pub lines: Vec<Line>,
}

/// What the sessions did, and the lines of each tree that has some, by ascending number.
#[derive(Drop)]
pub struct SparseJournal {
    pub acts: Vec<Vec<Act>>,
    pub trees: Vec<TreeLines>,
}

/// Whether no tree has a line.
pub(crate) fn has_none(trees: &[TreeLines]) -> bool
    ensures { IsTrue result ↔ (expand_from 0 trees.now ≡ []) }
{
    trees.is_empty()
}

/// How many trees there are up to the last that has a line.
pub(crate) fn trees_count(trees: &[TreeLines]) -> usize
    requires { AreRising 0 trees.now }
    ensures { result ≡ length (expand_from 0 trees.now) }
{
    let count = trees.len();
    if count == 0 {
        return 0;
    }
    trees[count - 1].tree as usize + 1
}

/// How many lines a tree has that isn't before the last.
pub(crate) fn lines_in(trees: &[TreeLines], tree: u32) -> usize
    requires rising { AreRising 0 trees.now }
    requires behind { length (expand_from 0 trees.now) ≤ tree + 1 }
    ensures lines { result ≡ length (slice_index_or (expand_from 0 trees.now) tree []) }
    ensures small { result < 2 ^ 63 }
{
    if trees_count(trees) != tree as usize + 1 {
        return 0;
    }
    trees[trees.len() - 1].lines.len()
}

/// Takes a line of a tree that isn't before the last.
pub(crate) fn take_line(
    alloc: Global,
    trees: &mut Vec<TreeLines>,
    tree: u32,
    line: Line,
) -> Result<(), Memory>
    requires rising { AreRising 0 trees.old.items }
    requires behind { length (expand_from 0 trees.old.items) ≤ tree + 1 }
    ensures rising { OnOk result (AreRising 0 trees.new.items) }
    ensures taken { OnOk result (expand_from 0 trees.new.items
        ≡ put_line (expand_from 0 trees.old.items) tree line) }
{
    if trees_count(trees) == tree as usize + 1 {
        take_later(trees, line)
    } else {
        take_first(alloc, trees, tree, line)
    }
}

/// Takes a line more of the last tree.
fn take_later(trees: &mut Vec<TreeLines>, line: Line) -> Result<(), Memory>
    requires rising { AreRising 0 trees.old.items }
    requires some { 0 < length (expand_from 0 trees.old.items) }
    ensures rising { OnOk result (AreRising 0 trees.new.items) }
    ensures taken { OnOk result (expand_from 0 trees.new.items
        ≡ put_line (expand_from 0 trees.old.items)
        (length (expand_from 0 trees.old.items) - 1) line) }
{
    let last = trees.len() - 1;
    trees[last].lines.push(line).map_err(|_| Memory)?;
    Ok(())
}

/// Takes the first line of a tree behind the last.
fn take_first(
    alloc: Global,
    trees: &mut Vec<TreeLines>,
    tree: u32,
    line: Line,
) -> Result<(), Memory>
    requires rising { AreRising 0 trees.old.items }
    requires behind { length (expand_from 0 trees.old.items) ≤ tree }
    ensures rising { OnOk result (AreRising 0 trees.new.items) }
    ensures taken { OnOk result (expand_from 0 trees.new.items
        ≡ put_line (expand_from 0 trees.old.items) tree line) }
{
    let mut lines = Vec::new(alloc);
    lines.push(line).map_err(|_| Memory)?;
    trees.push(TreeLines { tree, lines }).map_err(|_| Memory)?;
    Ok(())
}

/// The journal with its lines by tree, a list for each tree up to the last that has some.
pub fn expand_journal(alloc: Global, told: SparseJournal) -> Result<Journal, Memory>
    requires { AreRising 0 told.trees.items }
    ensures acts { IfOk result (λ journal. journal.acts ≡ told.acts) }
    ensures lines { IfOk result (λ journal.
        map (λ own. own.items) journal.lines.items ≡ expand_from 0 told.trees.items) }
{
    let lines = expand(alloc, told.trees)?;
    Ok(Journal {
        acts: told.acts,
        lines,
    })
}

/// The lines by tree, a list for each tree up to the last that has some.
fn expand(alloc: Global, trees: Vec<TreeLines>) -> Result<Vec<Vec<Line>>, Memory>
    requires { AreRising 0 trees.items }
    ensures { IfOk result (λ lists.
        map (λ own. own.items) lists.items ≡ expand_from 0 trees.items) }
{
    let mut lists = Vec::new(alloc);
    for own in trees {
        fill_up(alloc, &mut lists, own.tree as usize)?;
        lists.push(own.lines).map_err(|_| Memory)?;
    }
    Ok(lists)
}

/// Adds empty lists up to this count.
fn fill_up(alloc: Global, lists: &mut Vec<Vec<Line>>, count: usize) -> Result<(), Memory>
    requires { length lists.old.items ≤ count }
    ensures { OnOk result (map (λ own. own.items) lists.new.items
        ≡ map (λ own. own.items) lists.old.items
        ++ replicate (count - length lists.old.items) []) }
{
    for _ in lists.len()..count {
        lists.push(Vec::new(alloc)).map_err(|_| Memory)?;
    }
    Ok(())
}
