//! The answer to a journal, limits and the sources of its sessions.
ghost use Rattle.std.specs.Prelude.{◌≡◌, ◌≢◌, ℕ, ◌+◌, ◌≤◌, ◌<◌, ◌^◌, length, map, All};
ghost use Rattle.fold_law.specs.declared.limits.TheConstants.{LEAF, SESSIONS};
ghost use Rattle.limit_table.specs.Trees.{halt_tree};
ghost use Rattle.risk_journal.specs.SparseTrees.{expand_from, AreRising};
ghost use Rattle.journal_check.specs.Answers.{IfNo, AreBack};
ghost use Rattle.journal_check.specs.FarRows.{IsFarRow};
ghost use Rattle.journal_check.specs.Faults.{case_of};
ghost use Rattle.journal_check.specs.Items.{items_of};
ghost use Rattle.journal_check.specs.Judging.{AreEnough, AreReadRows, IsAnswerOf, IsAnswerTo};
ghost use Rattle.journal_check.specs.Judging.{FailsByRows, StopsAtSource};
ghost use Rattle.journal_check.specs.RowFaults.{HasNoRowFault};
ghost use Rattle.journal_check.specs.RowNumbers.{count_all};
ghost use Rattle.journal_check.specs.Sessions.{FailsBehind};
ghost use Rattle.journal_check.specs.Tables.{AreCapped};
ghost use Rattle.journal_check.specs.TreeFaults.{IsTreeFault, AreRightAll};

use crate::rows_first::first_row_fault;
use crate::screen_sets::SessionScreens;
use crate::session_acts::{ActsFound, compare_all};
use crate::tree_faults::first_tree_fault;
use gate_ports::Source;
use limit_table::Limits;
use risk_journal::{Journal, JournalFault, SparseJournal, expand_journal, read_sparse_journal};
use screen_kit::Screen;
use std::alloc::Global;

/// The most bytes of a journal that is judged.
pub const JOURNAL_MOST: usize = 1_073_741_824;

/// A fault of a journal: its row, from 1 with the header and 0 where it has none, and its kind, from 1
/// to 7.
#[derive(Clone, Copy, Debug, PartialEq, Eq)]
pub struct CheckFault {
    pub row: u32,
    pub kind: u8,
}

/// What a judge says of a journal.
#[derive(Clone, Copy, Debug, PartialEq, Eq)]
pub enum Checked {
    /// No kind of fault applies.
    Yes,
    /// The first kind of fault that applies, and its row.
    No(CheckFault),
    /// A source failed.
    ReadFault,
    /// Memory was wanting.
    Memory,
}

/// A journal that was judged, and the sources, in their order.
#[derive(Drop)]
pub struct CheckDone<S: Source> {
    pub answer: Checked,
    pub sources: Vec<S>,
}

/// An answer, with the sources.
fn answered<S: Source>(answer: Checked, sources: Vec<S>) -> CheckDone<S>
    ensures answer { result.answer ≡ answer }
    ensures sources { result.sources.items ≡ sources.items }
{
    CheckDone { answer, sources }
}

/// What is said of a journal whose sessions did what their inputs give, by its trees alone. This one is
/// the last of them.
fn judge_trees(alloc: Global, journal: &Journal, last: u32) -> Checked
    requires sessions { length journal.now.acts.items ≤ SESSIONS }
    requires rows { 2 + count_all (items_of journal.now.acts.items) + count_all (items_of
        journal.now.lines.items) < 2 ^ 32 }
    requires places { All (λ own. length own < 2 ^ 32) (items_of journal.now.lines.items) }
    requires capped { AreCapped LEAF (items_of journal.now.acts.items) }
    requires near { (row : ℕ) → ¬ IsFarRow last (items_of journal.now.acts.items) (items_of
        journal.now.lines.items) row }
    ensures yes { result ≡ Checked.Yes → AreRightAll last (items_of journal.now.acts.items)
        (items_of journal.now.lines.items) }
    ensures no { IfNo result (IsTreeFault last (items_of journal.now.acts.items) (items_of
        journal.now.lines.items)) }
    ensures no_fault { result ≢ Checked.ReadFault }
{
    match first_tree_fault(alloc, journal, last) {
        Ok(Some(fault)) => Checked::No(fault),
        Ok(None) => Checked::Yes,
        Err(_) => Checked::Memory,
    }
}

/// Judges a journal that has no fault by its rows alone: by its sessions, and by its trees.
fn judge_sessions<S: Source, K: SessionScreens>(
    alloc: Global,
    limits: &Limits,
    journal: &Journal,
    sources: Vec<S>,
    screens: Vec<K>,
) -> CheckDone<S>
    requires enough { AreEnough (length sources.items) (length screens.items) }
    requires read { AreReadRows (items_of journal.now.acts.items)
        (items_of journal.now.lines.items) }
    requires rows { HasNoRowFault (length sources.items) (halt_tree limits.now)
        (items_of journal.now.acts.items) (items_of journal.now.lines.items) }
    ensures answer { IsAnswerOf limits.now (map S.left sources.items) (map K.meaning screens.items)
        (items_of journal.now.acts.items) (items_of journal.now.lines.items) result.answer }
    ensures read_fault { result.answer ≡ Checked.ReadFault → FailsBehind S.left S.faults limits.now
        (map K.meaning screens.items) (items_of journal.now.acts.items) sources.items
        result.sources.items }
    ensures back { AreBack S.faults S.name sources.items result.sources.items }
{
    let done = compare_all(alloc, limits, &journal.acts, sources, screens);
    match done.found {
        ActsFound::Alike => {
            let answer = judge_trees(alloc, journal, limits.halt_tree());
            answered(answer, done.sources)
        }
        ActsFound::Apart(row) => answered(Checked::No(CheckFault { row, kind: 5 }), done.sources),
        ActsFound::ReadFault => answered(Checked::ReadFault, done.sources),
        ActsFound::Memory => answered(Checked::Memory, done.sources),
    }
}

/// Judges a journal that has no fault by its rows alone, and so no line of a tree above the halt tree:
/// its lines are listed by tree.
fn judge_near<S: Source, K: SessionScreens>(
    alloc: Global,
    limits: &Limits,
    told: SparseJournal,
    sources: Vec<S>,
    screens: Vec<K>,
) -> CheckDone<S>
    requires enough { AreEnough (length sources.items) (length screens.items) }
    requires rising { AreRising 0 told.trees.items }
    requires read { AreReadRows (items_of told.acts.items) (expand_from 0 told.trees.items) }
    requires rows { HasNoRowFault (length sources.items) (halt_tree limits.now)
        (items_of told.acts.items) (expand_from 0 told.trees.items) }
    ensures answer { IsAnswerOf limits.now (map S.left sources.items) (map K.meaning screens.items)
        (items_of told.acts.items) (expand_from 0 told.trees.items) result.answer }
    ensures read_fault { result.answer ≡ Checked.ReadFault → FailsBehind S.left S.faults limits.now
        (map K.meaning screens.items) (items_of told.acts.items) sources.items
        result.sources.items }
    ensures back { AreBack S.faults S.name sources.items result.sources.items }
{
    match expand_journal(alloc, told) {
        Ok(journal) => judge_sessions(alloc, limits, &journal, sources, screens),
        Err(_) => answered(Checked::Memory, sources),
    }
}

/// Judges a journal that was read: by its rows, by its sessions, and by its trees.
fn judge<S: Source, K: SessionScreens>(
    alloc: Global,
    limits: &Limits,
    told: SparseJournal,
    sources: Vec<S>,
    screens: Vec<K>,
) -> CheckDone<S>
    requires enough { AreEnough (length sources.items) (length screens.items) }
    requires rising { AreRising 0 told.trees.items }
    requires read { AreReadRows (items_of told.acts.items) (expand_from 0 told.trees.items) }
    ensures answer { IsAnswerOf limits.now (map S.left sources.items) (map K.meaning screens.items)
        (items_of told.acts.items) (expand_from 0 told.trees.items) result.answer }
    ensures read_fault { result.answer ≡ Checked.ReadFault → FailsByRows S.left S.faults limits.now
        (map K.meaning screens.items) (items_of told.acts.items)
        (expand_from 0 told.trees.items) sources.items result.sources.items }
    ensures back { AreBack S.faults S.name sources.items result.sources.items }
{
    match first_row_fault(&told, sources.len(), limits.halt_tree()) {
        Some(fault) => answered(Checked::No(fault), sources),
        None => judge_near(alloc, limits, told, sources, screens),
    }
}

/// Judges a journal by its limits, the input of each of its sessions, and each session's screens.
pub fn check<S: Source>(
    alloc: Global,
    limits: &Limits,
    journal: &[u8],
    sources: Vec<S>,
    screens: Vec<Vec<Box<dyn Screen + Send>>>,
) -> CheckDone<S>
    requires some { 1 ≤ length sources.items }
    requires few { length sources.items ≤ SESSIONS }
    requires screens { length sources.items ≤ length screens.items }
    ensures answer { IsAnswerTo (case_of limits.now journal.now (map S.left sources.items)
        (map (λ own. map (λ b. (Screen-box b).meaning b.value) own.items) screens.items))
        (map S.left sources.items) result.answer }
    ensures read_fault { result.answer ≡ Checked.ReadFault
        → StopsAtSource S.left S.faults limits.now journal.now
        (map (λ own. map (λ b. (Screen-box b).meaning b.value) own.items) screens.items)
        sources.items result.sources.items }
    ensures back { AreBack S.faults S.name sources.items result.sources.items }
{
    if journal.len() > JOURNAL_MOST {
        return answered(Checked::No(CheckFault { row: 0, kind: 1 }), sources);
    }
    match read_sparse_journal(alloc, journal) {
        Ok(told) => judge(alloc, limits, told, sources, screens),
        Err(JournalFault::Row(row)) => {
            answered(Checked::No(CheckFault { row, kind: 1 }), sources)
        }
        Err(JournalFault::Memory) => answered(Checked::Memory, sources),
    }
}
