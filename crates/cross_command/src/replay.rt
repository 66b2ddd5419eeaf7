//! The journal of sessions that have ended, from the record of their forest.
ghost use Rattle.std.specs.Prelude.{◌≡◌, ℕ, IfOk, map};
ghost use Rattle.limit_table.specs.Trees.{LimitsValue};
ghost use Rattle.cross_guard.specs.Told.{Placing};
ghost use Rattle.cross_command.specs.Finish.{ArePlaced, all_with_places};
ghost use Rattle.cross_command.specs.Forest.{HaveCalled, HaveLeft};
ghost use Rattle.cross_command.specs.Replayed.{AreHistories};

use crate::forest::{CrossForest, close_forest};
use cross_guard::Cross;
use f_array::{Pass, Record};
use fold_law::Memory;
use risk_journal::{Act, Journal};
use session_tasks::all_placed;
use std::alloc::Global;
use std::thread::Threads;
use trail_replay::{
    Histories, add_histories, components_are_leaves, histories_are_legal_by_places,
};

/// Replays each tree of a record, side by side, and sets the place of each read to that of its
/// stamp in its tree.
fn journal_of<R: Threads + Sync>(
    rt: &R,
    alloc: Global,
    taken: &Record,
    acts: Vec<Vec<Act>>,
) -> Result<Journal, Memory>
    requires left { (trees : ℕ) × HaveLeft trees taken.now (map (λ own. own.items) acts.items) }
    ensures { IfOk result (λ journal. (trees : ℕ)
        → HaveLeft trees taken.now (map (λ own. own.items) acts.items)
        → AreHistories trees (map (λ own. own.items) acts.items)
        (map (λ own. own.items) journal.acts.items)
        (map (λ own. own.items) journal.lines.items)) }
{
    histories_are_legal_by_places::<Cross>();
    components_are_leaves();
    let mut all = Histories {
        lines: Vec::new(alloc),
        places: Vec::new(alloc),
    };
    add_histories::<R, Cross>(rt, alloc, taken, &mut all)?;
    let acts = all_placed(rt, alloc, acts, &all.places)?;
    Ok(Journal {
        acts,
        lines: all.lines,
    })
}

/// The journal of sessions that ran over this forest, which is closed.
pub(crate) fn journal_after<R: Threads + Sync>(
    rt: &R,
    alloc: Global,
    forest: CrossForest,
    passes: Vec<Pass<Cross>>,
    acts: Vec<Vec<Act>>,
) -> Result<Journal, Memory>
    requires called { (limits : LimitsValue)
        × HaveCalled limits forest passes.items (map (λ own. own.items) acts.items) }
    ensures { IfOk result (λ journal. (limits : LimitsValue)
        → HaveCalled limits forest passes.items (map (λ own. own.items) acts.items)
        → ArePlaced limits (map (λ own. own.items) acts.items)
        (map (λ own. own.items) journal.acts.items)
        (map (λ own. own.items) journal.lines.items)) }
{
    let taken = close_forest(forest, passes)?;
    journal_of(rt, alloc, &taken, acts)
}
