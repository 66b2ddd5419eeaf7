//! The first row of a journal that is of a tree above the last.
ghost use Rattle.std.specs.Prelude.{◌≡◌, ℕ, ◌+◌, ◌<◌, ◌^◌, IfSome, None};
ghost use Rattle.risk_journal.specs.SparseTrees.{expand_from, AreRising};
ghost use Rattle.journal_check.specs.Items.{items_of};
ghost use Rattle.journal_check.specs.FarRows.{IsFarLine, IsFarRow};
ghost use Rattle.journal_check.specs.Firsts.{IsFirstRow};
ghost use Rattle.journal_check.specs.RowNumbers.{count_all};

use crate::act_rows::{ActFault, first_act_row};
use crate::tree_lines::acts_count;
use risk_journal::SparseJournal;

/// The row of the first line of a tree above the last.
fn first_far_line(told: &SparseJournal, last: u32) -> Option<u32>
    requires rising { AreRising 0 told.now.trees.items }
    requires rows { 2 + count_all (items_of told.now.acts.items)
        + count_all (expand_from 0 told.now.trees.items) < 2 ^ 32 }
    ensures found { IfSome result
        (IsFirstRow (IsFarLine last (items_of told.now.acts.items)
        (expand_from 0 told.now.trees.items))) }
    ensures none { result ≡ None → (row : ℕ)
        → ¬ IsFarLine last (items_of told.now.acts.items)
        (expand_from 0 told.now.trees.items) row }
{
    let mut row = 2 + acts_count(&told.acts);
    for index in 0..told.trees.len() {
        if told.trees[index].tree > last {
            return Some(row);
        }
        row += told.trees[index].lines.len() as u32;
    }
    None
}

/// The row of the first act or line of a tree above the last.
pub(crate) fn first_far_row(told: &SparseJournal, last: u32) -> Option<u32>
    requires rising { AreRising 0 told.now.trees.items }
    requires rows { 2 + count_all (items_of told.now.acts.items)
        + count_all (expand_from 0 told.now.trees.items) < 2 ^ 32 }
    ensures found { IfSome result
        (IsFirstRow (IsFarRow last (items_of told.now.acts.items)
        (expand_from 0 told.now.trees.items))) }
    ensures none { result ≡ None → (row : ℕ)
        → ¬ IsFarRow last (items_of told.now.acts.items)
        (expand_from 0 told.now.trees.items) row }
{
    match first_act_row(&told.acts, ActFault::Above(last)) {
        Some(row) => Some(row),
        None => first_far_line(told, last),
    }
}
