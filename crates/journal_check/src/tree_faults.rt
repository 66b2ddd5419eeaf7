//! The faults that the trees of a journal have: of their lines, and then of their reads.
ghost use Rattle.std.specs.Prelude.{◌≡◌, ℕ, ◌+◌, ◌≤◌, ◌<◌, ◌^◌, length, map, All, IfOk, IfSome, None};
ghost use Rattle.fold_law.specs.declared.limits.TheConstants.{LEAF, SESSIONS};
ghost use Rattle.journal_check.specs.Items.{items_of};
ghost use Rattle.journal_check.specs.Buckets.{tree_value, AreByTree};
ghost use Rattle.journal_check.specs.FarRows.{IsFarRow};
ghost use Rattle.journal_check.specs.LineFaults.{AreRightTrees, EndsBefore};
ghost use Rattle.journal_check.specs.RowNumbers.{count_all};
ghost use Rattle.journal_check.specs.Tables.{AreCapped};
ghost use Rattle.journal_check.specs.TreeFaults.{IsReadsFault, IsTreeFault, AreRightAll};

use crate::judging::CheckFault;
use crate::tree_acts::{TreeActs, acts_by_tree};
use crate::tree_lines::first_line_row;
use crate::tree_reads::first_read_row;
use fold_law::Memory;
use risk_journal::Journal;
use std::alloc::Global;

/// The first read that isn't right, as a fault. All lines are right.
fn read_fault(
    alloc: Global,
    journal: &Journal,
    trees: &[TreeActs],
) -> Result<Option<CheckFault>, Memory>
    requires sessions { length journal.now.acts.items ≤ SESSIONS }
    requires capped { AreCapped LEAF (items_of journal.now.acts.items) }
    requires places { All (λ own. length own < 2 ^ 32) (items_of journal.now.lines.items) }
    requires trees { AreByTree (length trees.now) (items_of journal.now.acts.items) (map tree_value
        trees.now) }
    requires near { EndsBefore (length trees.now) (items_of journal.now.acts.items) (items_of
        journal.now.lines.items) }
    requires right { AreRightTrees (items_of journal.now.acts.items) (items_of
        journal.now.lines.items) }
    ensures found { (last : ℕ) → length trees.now ≡ last + 1 → IfOk result (λ fault. IfSome fault
        (IsReadsFault last (items_of journal.now.acts.items) (items_of journal.now.lines.items))) }
    ensures none { (last : ℕ) → length trees.now ≡ last + 1 → IfOk result (λ fault. fault ≡ None →
        AreRightAll last (items_of journal.now.acts.items) (items_of journal.now.lines.items)) }
{
    match first_read_row(alloc, journal, trees)? {
        Some(row) => Ok(Some(CheckFault { row, kind: 7 })),
        None => Ok(None),
    }
}

/// The first line that isn't right, or a post without one, as a fault; else the first read.
fn fault_in(
    alloc: Global,
    journal: &Journal,
    trees: &[TreeActs],
) -> Result<Option<CheckFault>, Memory>
    requires sessions { length journal.now.acts.items ≤ SESSIONS }
    requires rows { 2 + count_all (items_of journal.now.acts.items) + count_all (items_of
        journal.now.lines.items) < 2 ^ 32 }
    requires capped { AreCapped LEAF (items_of journal.now.acts.items) }
    requires places { All (λ own. length own < 2 ^ 32) (items_of journal.now.lines.items) }
    requires trees { AreByTree (length trees.now) (items_of journal.now.acts.items) (map tree_value
        trees.now) }
    requires near { EndsBefore (length trees.now) (items_of journal.now.acts.items) (items_of
        journal.now.lines.items) }
    ensures found { (last : ℕ) → length trees.now ≡ last + 1 → IfOk result (λ fault. IfSome fault
        (IsTreeFault last (items_of journal.now.acts.items) (items_of journal.now.lines.items))) }
    ensures none { (last : ℕ) → length trees.now ≡ last + 1 → IfOk result (λ fault. fault ≡ None →
        AreRightAll last (items_of journal.now.acts.items) (items_of journal.now.lines.items)) }
{
    match first_line_row(alloc, journal, trees)? {
        Some(row) => Ok(Some(CheckFault { row, kind: 6 })),
        None => read_fault(alloc, journal, trees),
    }
}

/// The first fault of the trees of a journal, of which this one is the last.
pub(crate) fn first_tree_fault(
    alloc: Global,
    journal: &Journal,
    last: u32,
) -> Result<Option<CheckFault>, Memory>
    requires sessions { length journal.now.acts.items ≤ SESSIONS }
    requires rows { 2 + count_all (items_of journal.now.acts.items) + count_all (items_of
        journal.now.lines.items) < 2 ^ 32 }
    requires places { All (λ own. length own < 2 ^ 32) (items_of journal.now.lines.items) }
    requires capped { AreCapped LEAF (items_of journal.now.acts.items) }
    requires near { (row : ℕ) → ¬ IsFarRow last (items_of journal.now.acts.items) (items_of
        journal.now.lines.items) row }
    ensures found { IfOk result (λ fault. IfSome fault (IsTreeFault last (items_of
        journal.now.acts.items) (items_of journal.now.lines.items))) }
    ensures none { IfOk result (λ fault. fault ≡ None → AreRightAll last (items_of
        journal.now.acts.items) (items_of journal.now.lines.items)) }
{
    let trees = acts_by_tree(alloc, last as usize + 1, &journal.acts)?;
    fault_in(alloc, journal, &trees)
}
