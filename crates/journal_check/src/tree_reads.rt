//! The first row of a journal's reads that isn't right.
ghost use Rattle.std.specs.Prelude.{◌≡◌, ℕ, ◌+◌, ◌≤◌, ◌<◌, ◌^◌, ◌==◌, List, max, length, map, All, IfOk, IfSome, None};
ghost use Rattle.std.specs.Prelude.{if◌then◌else◌};
ghost use Rattle.fold_law.specs.Sum.{sum_of};
ghost use Rattle.fold_law.specs.Whole.{whole_of};
ghost use Rattle.fold_law.specs.declared.limits.TheConstants.{SESSIONS, LEAF};
ghost use Rattle.risk_board.specs.History.{components_of};
ghost use Rattle.journal_check.specs.Items.{items_of};
ghost use Rattle.journal_check.specs.Buckets.{tree_value, AreByTree};
ghost use Rattle.journal_check.specs.Firsts.{IsFirstRow};
ghost use Rattle.journal_check.specs.LineFaults.{AreRightTrees, EndsBefore};
ghost use Rattle.journal_check.specs.ReadFaults.{IsFoundRead, IsWrongRead, AreRightReads};
ghost use Rattle.journal_check.specs.Tables.{AreCapped, least_of, AreValues, AreAllPlaces};
ghost use Rattle.risk_board.specs.declared.hand.Line.{Line as LineValue};

use crate::read_rows::ReadRow;
use crate::right_reads::first_wrong_read;
use crate::tables::{places_of, values_of};
use crate::tree_acts::TreeActs;
use crate::tree_lines::lines_in;
use fold_law::{Fold, Max, Memory, Sum};
use risk_board::{Line, components};
use risk_journal::Journal;
use std::alloc::Global;

/// The row of the first read that isn't right, whatever lines the tables are of.
fn first_of(
    alloc: Global,
    values: &[u64],
    places: &[Vec<u32>],
    reads: &[ReadRow],
) -> Result<Option<u32>, Memory>
    requires { All (λ read. read.session < length places.now) reads.now }
    ensures { IfOk result (λ row. (whole : List ℕ → ℕ) (unit components : ℕ) (lines : List LineValue)
        → AreValues whole unit components lines (length lines) values.now
        → AreAllPlaces lines (length lines) (items_of places.now)
        → IsFoundRead whole unit components lines reads.now row) }
{
    match first_wrong_read(alloc, values, places, reads)? {
        Some(index) => Ok(Some(reads[index].row)),
        None => Ok(None),
    }
}

/// The row of the first read of a tree with this fold that isn't right.
fn first_by<F: Fold>(
    alloc: Global,
    components: u32,
    reads: &[ReadRow],
    lines: &[Line],
) -> Result<Option<u32>, Memory>
    requires few { components ≤ SESSIONS }
    requires unit { F.UNIT ≤ F.CAP }
    requires own_lines { All (λ line. line.session < components) lines.now }
    requires capped { All (λ line. line.value ≤ F.CAP) lines.now }
    requires own_reads { All (λ read. read.session < components) reads.now }
    requires places { length lines.now < 2 ^ 32 }
    ensures { IfOk result
        (IsFoundRead (whole_of F.join F.UNIT) F.UNIT components lines.now reads.now) }
{
    let values = values_of::<F>(alloc, components, lines)?;
    let places = places_of(alloc, components, lines)?;
    first_of(alloc, &values, &places, reads)
}

/// The same of a tree that is the halt tree, with the largest value, or has the sum.
fn first_in(
    alloc: Global,
    is_halt: bool,
    components: u32,
    reads: &[ReadRow],
    lines: &[Line],
) -> Result<Option<u32>, Memory>
    requires few { components ≤ SESSIONS }
    requires own_lines { All (λ line. line.session < components) lines.now }
    requires capped { All (λ line. line.value ≤ LEAF) lines.now }
    requires own_reads { All (λ read. read.session < components) reads.now }
    requires places { length lines.now < 2 ^ 32 }
    ensures { IfOk result (IsFoundRead (if is_halt then whole_of max 0 else whole_of sum_of 0) 0
        components lines.now reads.now) }
{
    if is_halt {
        first_by::<Max>(alloc, components, reads, lines)
    } else {
        first_by::<Sum>(alloc, components, reads, lines)
    }
}

/// The least of two rows, where there are any.
fn earlier(one: Option<u32>, other: Option<u32>) -> Option<u32>
    ensures { result ≡ least_of one other }
{
    match one {
        None => other,
        Some(row) => match other {
            None => Some(row),
            Some(next) => Some(row.min(next)),
        },
    }
}

/// The row of the first read that isn't right. The trees are those of the journal's acts, the last is
/// the halt tree, and all lines are right.
pub(crate) fn first_read_row(
    alloc: Global,
    journal: &Journal,
    trees: &[TreeActs],
) -> Result<Option<u32>, Memory>
    requires sessions { length journal.now.acts.items ≤ SESSIONS }
    requires capped { AreCapped LEAF (items_of journal.now.acts.items) }
    requires places { All (λ own. length own < 2 ^ 32) (items_of journal.now.lines.items) }
    requires trees { AreByTree (length trees.now) (items_of journal.now.acts.items) (map tree_value
        trees.now) }
    requires near { EndsBefore (length trees.now) (items_of journal.now.acts.items) (items_of
        journal.now.lines.items) }
    requires right { AreRightTrees (items_of journal.now.acts.items) (items_of
        journal.now.lines.items) }
    ensures found { (last : ℕ) → length trees.now ≡ last + 1 → IfOk result (λ row. IfSome row
        (IsFirstRow (IsWrongRead last (items_of journal.now.acts.items) (items_of
        journal.now.lines.items)))) }
    ensures none { (last : ℕ) → length trees.now ≡ last + 1 → IfOk result (λ row. row ≡ None → (tree
        : ℕ) → AreRightReads last (items_of journal.now.acts.items) (items_of
        journal.now.lines.items) tree) }
{
    let components = components(journal.acts.len() as u32);
    let mut first = None;
    for tree in 0..trees.len() {
        let lines = lines_in(&journal.lines, tree);
        let is_halt = tree + 1 == trees.len();
        let own = first_in(alloc, is_halt, components, &trees[tree].reads, lines)?;
        first = earlier(first, own);
    }
    Ok(first)
}
