//! Where the reads of a session stand in the histories of their trees.
ghost use Rattle.std.specs.Prelude.{◌≡◌, map};
ghost use Rattle.risk_journal.specs.ActLists.{placed_by, place_in};

use crate::acts::Act;

/// Sets the place of each read to that of its stamp in its tree, by these places by tree and by
/// stamp. Where they have none it is 0.
pub fn set_places(acts: &mut [Act], places: &[Vec<u32>])
    ensures { acts.new ≡ map (placed_by (place_in (map (λ own. own.items) places.now))) acts.old }
{
    for index in 0..acts.len() {
        acts[index] = at_its_place(acts[index], places);
    }
}

/// The act, with a read's place in its tree.
fn at_its_place(act: Act, places: &[Vec<u32>]) -> Act
    ensures { result ≡ placed_by (place_in (map (λ own. own.items) places.now)) act }
{
    match act {
        Act::Read {
            tree,
            stamp,
            place: _,
            value,
        } => Act::Read {
            tree,
            stamp,
            place: place_of(places, tree, stamp),
            value,
        },
        Act::Post { .. }
        | Act::Sent { .. }
        | Act::Refused { .. }
        | Act::Noted { .. }
        | Act::Ended { .. } => act,
    }
}

/// The place of a stamp in a tree, and 0 where there is none.
fn place_of(places: &[Vec<u32>], tree: u32, stamp: u32) -> u32
    ensures { result ≡ place_in (map (λ own. own.items) places.now) tree stamp }
{
    if tree as usize >= places.len() {
        return 0;
    }
    let own = &places[tree as usize];
    if stamp as usize >= own.len() {
        return 0;
    }
    own[stamp as usize]
}
