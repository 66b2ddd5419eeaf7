//! The journal of sessions that have ended, from the records of their forests.
ghost use Rattle.std.specs.Prelude.{◌≡◌, ℕ, IfOk, length, map};
ghost use Rattle.risk_journal.specs.ActLists.{placed_by, place_in, unplaced};
ghost use Rattle.limit_table.specs.Trees.{LimitsValue};
ghost use Rattle.gate_program.specs.Forests.{HaveLeft, HaveRun};
ghost use Rattle.gate_program.specs.Histories.{AreHistories, AreLegalLines};
ghost use Rattle.gate_program.specs.Totals.{HaveTotals};

use crate::forests::{Forests, Passes, Records, close_forests};
use fold_law::{Max, Memory, Sum};
use fork_all::map_all;
use risk_journal::{Act, Journal, set_places};
use std::alloc::Global;
use std::thread::Threads;
use trail_replay::{
    Histories, add_histories, components_are_leaves, histories_are_legal_by_places,
    histories_have_totals,
};

/// The acts of one session with the places of their reads.
fn placed(acts: Vec<Act>, places: &[Vec<u32>]) -> Vec<Act>
    ensures { result.items
        ≡ map (placed_by (place_in (map (λ own. own.items) places.now))) acts.items }
{
    let mut acts = acts;
    set_places(&mut acts, places);
    acts
}

/// The acts of all sessions with the places of their reads, which are set side by side.
fn all_placed<R: Threads + Sync>(
    rt: &R,
    alloc: Global,
    acts: Vec<Vec<Act>>,
    places: &[Vec<u32>],
) -> Result<Vec<Vec<Act>>, Memory>
    ensures { IfOk result (λ all. map (λ own. own.items) all.items
        ≡ map (map (placed_by (place_in (map (λ own. own.items) places.now))))
        (map (λ own. own.items) acts.items)) }
{
    let place = |own: Vec<Act>| -> Vec<Act>
        ensures { result.items
            ≡ map (placed_by (place_in (map (λ own. own.items) places.entry.now))) own.items }
    { placed(own, places) };
    match map_all(rt, alloc, acts, &place) {
        Ok(all) => Ok(all),
        Err(_) => Err(Memory),
    }
}

/// Replays each tree of both forests, side by side, and sets the place of each read to that of its
/// stamp in its tree. The halt tree's lines are the last.
fn journal_of<R: Threads + Sync>(
    rt: &R,
    alloc: Global,
    records: &Records,
    acts: Vec<Vec<Act>>,
) -> Result<Journal, Memory>
    requires left { (trees : ℕ) × HaveLeft trees records.now (map (λ own. own.items) acts.items) }
    ensures histories { IfOk result (λ journal. (trees : ℕ)
        → HaveLeft trees records.now (map (λ own. own.items) acts.items)
        → AreHistories trees (map (λ own. own.items) journal.acts.items)
        (map (λ own. own.items) journal.lines.items)) }
    ensures acts { IfOk result (λ journal.
        map (map unplaced) (map (λ own. own.items) journal.acts.items)
        ≡ map (map unplaced) (map (λ own. own.items) acts.items)) }
{
    histories_are_legal_by_places::<Sum>();
    histories_are_legal_by_places::<Max>();
    histories_have_totals::<Sum>();
    histories_have_totals::<Max>();
    components_are_leaves();
    let mut all = Histories {
        lines: Vec::new(alloc),
        places: Vec::new(alloc),
    };
    add_histories::<R, Sum>(rt, alloc, &records.sums, &mut all)?;
    add_histories::<R, Max>(rt, alloc, &records.halts, &mut all)?;
    let acts = all_placed(rt, alloc, acts, &all.places)?;
    Ok(Journal {
        acts,
        lines: all.lines,
    })
}

/// The journal of sessions that ran over these forests, which are closed.
pub(crate) fn journal_after<R: Threads + Sync>(
    rt: &R,
    alloc: Global,
    forests: Forests,
    passes: Passes,
    acts: Vec<Vec<Act>>,
) -> Result<Journal, Memory>
    requires ran { (limits : LimitsValue)
        × HaveRun limits forests passes (map (λ own. own.items) acts.items) }
    ensures legal { IfOk result (λ journal. (limits : LimitsValue)
        → HaveRun limits forests passes (map (λ own. own.items) acts.items)
        → AreLegalLines limits (map (λ own. own.items) journal.acts.items)
        (map (λ own. own.items) journal.lines.items)) }
    ensures totals { IfOk result (λ journal. HaveTotals (length journal.acts.items)
        (map (λ own. own.items) journal.lines.items)) }
    ensures acts { IfOk result (λ journal.
        map (map unplaced) (map (λ own. own.items) journal.acts.items)
        ≡ map (map unplaced) (map (λ own. own.items) acts.items)) }
{
    let records = close_forests(forests, passes)?;
    journal_of(rt, alloc, &records, acts)
}
