//! The first row of a journal's lines that isn't right.
ghost use Rattle.std.specs.Prelude.{◌≡◌, ℕ, ◌+◌, ◌≤◌, ◌<◌, ◌^◌, List, [], length, map, IfOk, IfSome, None};
ghost use Rattle.std.specs.Prelude.{slice_index_or};
ghost use Rattle.risk_board.specs.History.{lines_of};
ghost use Rattle.risk_board.specs.declared.hand.Line.{Line as LineValue};
ghost use Rattle.journal_check.specs.Items.{items_of};
ghost use Rattle.journal_check.specs.Buckets.{tree_value, AreByTree};
ghost use Rattle.journal_check.specs.LineFaults.{IsLineFault, IsFoundOf, AreRightTrees, EndsBefore};
ghost use Rattle.journal_check.specs.RightLines.{CountsLines, HaveAllLines};
ghost use Rattle.journal_check.specs.RowNumbers.{count_all};
ghost use Rattle.journal_check.specs.Trees.{tree_lines};

use crate::right_lines::first_wrong_line;
use crate::tree_acts::TreeActs;
use fold_law::Memory;
use risk_board::Line;
use risk_journal::{Act, Journal};
use std::alloc::Global;

/// What the lines of a tree are.
#[derive(Clone, Copy, Debug, PartialEq, Eq)]
pub(crate) enum LinesFound {
    /// The line at this place, from 0, isn't right, and those before it are.
    Wrong(usize),
    /// All are right, and a post has none.
    Lacking,
    /// All are right, and each post has one.
    Right,
}

/// A session that has more posts than lines, if there is one.
fn lacking(posts: &[Vec<u64>], counts: &[u32]) -> Option<usize>
    requires { length counts.now ≡ length posts.now }
    ensures found { IfSome result (λ session. (lines : List LineValue) → CountsLines counts.now lines
        → length (lines_of session lines)
        < length (slice_index_or (items_of posts.now) session [])) }
    ensures none { result ≡ None → (lines : List LineValue) → CountsLines counts.now lines
        → HaveAllLines (items_of posts.now) lines }
{
    for session in 0..posts.len() {
        if posts[session].len() > counts[session] as usize {
            return Some(session);
        }
    }
    None
}

/// What the lines of a tree are, by what each session posted in it.
fn judge_lines(alloc: Global, posts: &[Vec<u64>], lines: &[Line]) -> Result<LinesFound, Memory>
    ensures { IfOk result (IsFoundOf (items_of posts.now) lines.now) }
{
    let Ok(mut counts) = vec![in alloc; 0u32; posts.len()] else {
        return Err(Memory);
    };
    if let Some(place) = first_wrong_line(posts, &mut counts, lines) {
        return Ok(LinesFound::Wrong(place));
    }
    match lacking(posts, &counts) {
        Some(_) => Ok(LinesFound::Lacking),
        None => Ok(LinesFound::Right),
    }
}

/// The lines of the tree with this number, none past the last.
pub(crate) fn lines_in(lines: &[Vec<Line>], tree: usize) -> &[Line]
    ensures { result.now ≡ tree_lines tree (items_of lines.now) }
{
    match lines.get(tree) {
        Some(own) => own,
        None => &[],
    }
}

/// How many acts all sessions have.
pub(crate) fn acts_count(acts: &[Vec<Act>]) -> u32
    requires { count_all (items_of acts.now) < 2 ^ 32 }
    ensures { result ≡ count_all (items_of acts.now) }
{
    let mut count = 0;
    for own in acts {
        count += own.len() as u32;
    }
    count
}

/// The row of the first line that isn't right; 0 where all are right and a post has none. The trees are
/// those of the journal's acts, and there is no line past them.
pub(crate) fn first_line_row(
    alloc: Global,
    journal: &Journal,
    trees: &[TreeActs],
) -> Result<Option<u32>, Memory>
    requires rows { 2 + count_all (items_of journal.now.acts.items)
        + count_all (items_of journal.now.lines.items) < 2 ^ 32 }
    requires trees { AreByTree (length trees.now) (items_of journal.now.acts.items)
        (map tree_value trees.now) }
    requires near { EndsBefore (length trees.now) (items_of journal.now.acts.items)
        (items_of journal.now.lines.items) }
    ensures found { IfOk result (λ row. IfSome row
        (IsLineFault (items_of journal.now.acts.items)
        (items_of journal.now.lines.items))) }
    ensures none { IfOk result (λ row. row ≡ None
        → AreRightTrees (items_of journal.now.acts.items)
        (items_of journal.now.lines.items)) }
{
    let mut row = 2 + acts_count(&journal.acts);
    let mut lacks = false;
    for tree in 0..trees.len() {
        let own = lines_in(&journal.lines, tree);
        match judge_lines(alloc, &trees[tree].posts, own)? {
            LinesFound::Wrong(place) => return Ok(Some(row + place as u32)),
            LinesFound::Lacking => lacks = true,
            LinesFound::Right => {}
        }
        row += own.len() as u32;
    }
    Ok(if lacks { Some(0) } else { None })
}
