//! The acts of all sessions against their inputs.
ghost use Rattle.std.specs.Prelude.{◌≡◌, ℕ, ◌+◌, ◌≤◌, ◌<◌, ◌^◌, ◌++◌, length, map, All};
ghost use Rattle.std.specs.Prelude.{vec_len, vec_capacity};
ghost use Rattle.fold_law.specs.declared.limits.TheConstants.{LEAF, SESSIONS};
ghost use Rattle.limit_table.specs.Trees.{halt_tree};
ghost use Rattle.risk_journal.specs.JournalGrammar.{HasEnded};
ghost use Rattle.journal_check.specs.Items.{items_of};
ghost use Rattle.journal_check.specs.Answers.{AreBack};
ghost use Rattle.journal_check.specs.RowNumbers.{count_all};
ghost use Rattle.journal_check.specs.SameActs.{IsInTrees};
ghost use Rattle.journal_check.specs.PostBounds.{PostsAtMost};
ghost use Rattle.journal_check.specs.Sessions.{AreAlike, IsFirstApart, FailsBehind};
ghost use Rattle.journal_check.specs.TakingNext.{TakesNext};
ghost use Rattle.journal_check.specs.Tables.{AreCapped};

use crate::replay::Likeness;
use crate::screen_sets::SessionScreens;
use gate_ports::Source;
use limit_table::Limits;
use risk_journal::Act;
use std::alloc::Global;

/// How the acts of all sessions compare with those of their inputs.
#[derive(Clone, Copy, Debug, PartialEq, Eq)]
pub(crate) enum ActsFound {
    Alike,
    /// The first act that differs, of the first session that has one, stands in this row.
    Apart(u32),
    /// A source failed.
    ReadFault,
    /// Memory was wanting.
    Memory,
}

/// Sessions that were compared, and their sources in their order.
#[derive(Drop)]
pub(crate) struct ActsDone<S: Source> {
    pub(crate) found: ActsFound,
    pub(crate) sources: Vec<S>,
}

/// Sources that came back, and the sources and the screens of the sessions that wait.
#[derive(Drop)]
struct Progress<S: Source, K: SessionScreens> {
    back: Vec<S>,
    rest: Vec<S>,
    screens: Vec<K>,
}

/// The answer, with the sources that came back and those that weren't called.
fn with_rest<S: Source, K: SessionScreens>(
    found: ActsFound,
    progress: Progress<S, K>,
) -> ActsDone<S>
    requires { vec_len progress.back + vec_len progress.rest ≤ vec_capacity progress.back }
    ensures found { result.found ≡ found }
    ensures sources { result.sources.items ≡ progress.back.items ++ progress.rest.items }
{
    let Progress {
        back,
        rest,
        screens: _,
    } = progress;
    let mut sources = back;
    for source in rest {
        sources.push_reserved(source);
    }
    ActsDone { found, sources }
}

/// Compares the acts of the next session with those of its input. Its source comes back.
fn compare_next<S: Source, K: SessionScreens>(
    alloc: Global,
    limits: &Limits,
    session: u32,
    progress: &mut Progress<S, K>,
    acts: &[Act],
) -> Likeness
    requires source { 1 ≤ length progress.old.rest.items }
    requires set { 1 ≤ length progress.old.screens.items }
    requires room { vec_len progress.old.back + vec_len progress.old.rest
        ≤ vec_capacity progress.old.back }
    requires ended { HasEnded acts.now }
    requires trees { All (IsInTrees (halt_tree limits.now)) acts.now }
    ensures next { TakesNext S.left S.faults S.name limits.now acts.now
        (record {
          back = progress.old.back.items;
          rest = progress.old.rest.items;
          screens = map K.meaning progress.old.screens.items;
        })
        (record {
          back = progress.new.back.items;
          rest = progress.new.rest.items;
          screens = map K.meaning progress.new.screens.items;
        })
        result }
    ensures capped { result ≡ Likeness.Alike → All (PostsAtMost LEAF) acts.now }
    ensures inside { (index : ℕ) → result ≡ Likeness.Apart index → index < length acts.now }
    ensures room { vec_len progress.new.back + vec_len progress.new.rest
        ≤ vec_capacity progress.new.back }
{
    let set = progress.screens.remove(0);
    let source = progress.rest.remove(0);
    let compared = set.rerun(alloc, limits, session, source, acts);
    progress.back.push_reserved(compared.source);
    compared.likeness
}

/// Compares the acts of each session with those of its input, up to the first session that differs, or
/// cannot be compared. All sources come back. What this takes of memory for the list of them is taken
/// before the first is called.
pub(crate) fn compare_all<S: Source, K: SessionScreens>(
    alloc: Global,
    limits: &Limits,
    acts: &[Vec<Act>],
    sources: Vec<S>,
    screens: Vec<K>,
) -> ActsDone<S>
    requires count { length acts.now ≡ length sources.items }
    requires few { length sources.items ≤ SESSIONS }
    requires screens { length sources.items ≤ length screens.items }
    requires rows { 2 + count_all (items_of acts.now) < 2 ^ 32 }
    requires ended { All HasEnded (items_of acts.now) }
    requires trees { All (λ own. All (IsInTrees (halt_tree limits.now)) own) (items_of acts.now) }
    ensures alike { result.found ≡ ActsFound.Alike → AreAlike limits.now (map S.left sources.items)
        (map K.meaning screens.items) (items_of acts.now) (length acts.now) }
    ensures capped { result.found ≡ ActsFound.Alike → AreCapped LEAF (items_of acts.now) }
    ensures apart { (row : ℕ) → result.found ≡ ActsFound.Apart row → IsFirstApart limits.now (map
        S.left sources.items) (map K.meaning screens.items) (items_of acts.now) row }
    ensures read_fault { result.found ≡ ActsFound.ReadFault → FailsBehind S.left S.faults limits.now
        (map K.meaning screens.items) (items_of acts.now) sources.items result.sources.items }
    ensures back { AreBack S.faults S.name sources.items result.sources.items }
{
    let mut back = Vec::new(alloc);
    let Ok(()) = back.reserve(sources.len()) else {
        return ActsDone {
            found: ActsFound::Memory,
            sources,
        };
    };
    let mut progress = Progress {
        back,
        rest: sources,
        screens,
    };
    let mut row = 2;
    for session in 0..acts.len() {
        let own = acts[session].as_slice();
        match compare_next(alloc, limits, session as u32, &mut progress, own) {
            Likeness::Alike => row += own.len() as u32,
            Likeness::Apart(index) => {
                return with_rest(ActsFound::Apart(row + index as u32), progress);
            }
            Likeness::ReadFault => return with_rest(ActsFound::ReadFault, progress),
            Likeness::Memory => return with_rest(ActsFound::Memory, progress),
        }
    }
    with_rest(ActsFound::Alike, progress)
}
