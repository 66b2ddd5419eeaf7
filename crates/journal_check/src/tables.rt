//! What is looked up of a tree's lines.
ghost use Rattle.std.specs.Prelude.{◌≡◌, ◌^◌, ◌≤◌, ◌<◌, ◌↔◌, [], length, map, All, IfOk, IsTrue, replicate};
ghost use Rattle.std.specs.Prelude.{slice_index_or, slice_set, ◌++◌, ◌∷◌, OnOk};
ghost use Rattle.fold_law.specs.Whole.{whole_of};
ghost use Rattle.fold_law.specs.declared.limits.TheConstants.{SESSIONS};
ghost use Rattle.journal_check.specs.Items.{items_of};
ghost use Rattle.journal_check.specs.Tables.{AreValues, AreAllPlaces, ArePlaces, lines_by};

use fold_law::{Fold, Memory, whole};
use risk_board::Line;
use std::alloc::Global;

/// The fold of the plain array at each place of the history.
pub(crate) fn values_of<F: Fold>(
    alloc: Global,
    components: u32,
    lines: &[Line],
) -> Result<Vec<u64>, Memory>
    requires few { components ≤ SESSIONS }
    requires unit { F.UNIT ≤ F.CAP }
    requires sessions { All (λ line. line.session < components) lines.now }
    requires capped { All (λ line. line.value ≤ F.CAP) lines.now }
    ensures { IfOk result (λ values. AreValues (whole_of F.join F.UNIT) F.UNIT components lines.now
        (length lines.now) values.items) }
{
    let mut leaves = Vec::from_elem(alloc, F::UNIT, components as usize).map_err(|_| Memory)?;
    let mut values = Vec::new(alloc);
    values.push(whole::<F>(&leaves)).map_err(|_| Memory)?;
    for line in lines {
        leaves[line.session as usize] = line.value;
        values.push(whole::<F>(&leaves)).map_err(|_| Memory)?;
    }
    Ok(values)
}

/// So many empty lists.
fn empty_lists(alloc: Global, count: u32) -> Result<Vec<Vec<u32>>, Memory>
    ensures { IfOk result (λ all. map (λ own. own.items) all.items ≡ replicate count []) }
{
    let mut all = Vec::new(alloc);
    for _ in 0..count {
        all.push(Vec::new(alloc)).map_err(|_| Memory)?;
    }
    Ok(all)
}

/// Adds a place to a session's.
fn add_place(places: &mut Vec<Vec<u32>>, session: u32, place: u32) -> Result<(), Memory>
    requires { session < length places.old.items }
    ensures { let before = map (λ own. own.items) places.old.items in
        OnOk result (map (λ own. own.items) places.new.items
        ≡ slice_set before session (slice_index_or before session [] ++ place ∷ [])) }
{
    match places[session as usize].push(place) {
        Ok(()) => Ok(()),
        Err(_) => Err(Memory),
    }
}

/// The places, from 1, of the lines of each session.
pub(crate) fn places_of(
    alloc: Global,
    sessions: u32,
    lines: &[Line],
) -> Result<Vec<Vec<u32>>, Memory>
    requires sessions { All (λ line. line.session < sessions) lines.now }
    requires few { length lines.now < 2 ^ 32 }
    ensures count { IfOk result (λ places. length places.items ≡ sessions) }
    ensures places { IfOk result (λ places. AreAllPlaces lines.now (length lines.now)
        (items_of places.items)) }
{
    let mut places = empty_lists(alloc, sessions)?;
    let mut place = 0;
    for line in lines {
        place += 1;
        add_place(&mut places, line.session, place)?;
    }
    Ok(places)
}

/// Whether a session with lines at these places has so many up to a place.
pub(crate) fn has_made(places: &[u32], made: usize, place: u32) -> bool
    ensures { (session : _) (lines : _) (count : _) → ArePlaces session lines count places.now
        → place ≤ count → (IsTrue result ↔ (lines_by session lines place ≡ made)) }
{
    if made > places.len() {
        return false;
    }
    if made > 0 && places[made - 1] > place {
        return false;
    }
    made == places.len() || places[made] > place
}
