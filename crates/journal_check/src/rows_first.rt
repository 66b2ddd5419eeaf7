//! The faults that a journal's rows have by themselves: their number of sessions, ends and trees.
ghost use Rattle.std.specs.Prelude.{◌≡◌, ℕ, ◌+◌, ◌<◌, ◌^◌, length, map, IfSome, None};
ghost use Rattle.risk_journal.specs.SparseTrees.{expand_from, AreRising};
ghost use Rattle.journal_check.specs.Items.{items_of};
ghost use Rattle.journal_check.specs.RowFaults.{IsRowFault, HasNoRowFault};
ghost use Rattle.journal_check.specs.RowNumbers.{count_all};

use crate::act_rows::{ActFault, first_act_row};
use crate::far_rows::first_far_row;
use crate::judging::CheckFault;
use risk_journal::SparseJournal;

/// The first fault that a journal of so many sessions, with this last tree, has by its rows alone.
pub(crate) fn first_row_fault(
    told: &SparseJournal,
    sessions: usize,
    last: u32,
) -> Option<CheckFault>
    requires rising { AreRising 0 told.now.trees.items }
    requires rows { 2 + count_all (items_of told.now.acts.items)
        + count_all (expand_from 0 told.now.trees.items) < 2 ^ 32 }
    ensures found { IfSome result
        (IsRowFault sessions last (items_of told.now.acts.items)
        (expand_from 0 told.now.trees.items)) }
    ensures none { result ≡ None
        → HasNoRowFault sessions last (items_of told.now.acts.items)
        (expand_from 0 told.now.trees.items) }
{
    if told.acts.len() != sessions {
        return Some(CheckFault { row: 0, kind: 2 });
    }
    if let Some(row) = first_act_row(&told.acts, ActFault::Early) {
        return Some(CheckFault { row, kind: 3 });
    }
    match first_far_row(told, last) {
        Some(row) => Some(CheckFault { row, kind: 4 }),
        None => None,
    }
}
