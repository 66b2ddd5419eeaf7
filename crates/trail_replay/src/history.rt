//! The history of one tree.
ghost use Rattle.std.specs.Prelude.{◌≡◌, ◌<◌, ◌≤◌, length, slice_index};
ghost use Rattle.trail_replay.specs.Arrays.{AreLines, IsWholeAt, whole_at};

use crate::walk::Walk;
use fold_law::Fold;
use risk_board::Line;

/// The posts of a tree in one order, and by stamp of its root the place in it: how many lines there
/// are up to the block of that stamp. Stamps are counted from 0.
#[derive(Drop)]
pub struct History {
    pub lines: Vec<Line>,
    pub places: Vec<u32>,
}

/// The place of a stamp of the root.
pub fn place(history: &History, stamp: u32) -> u32
    requires { stamp < length history.now.places.items }
    ensures { result ≡ slice_index history.now.places.items stamp }
{
    history.places[stamp as usize]
}

/// The fold of the plain array after so many lines of the history.
pub fn at<F: Fold>(history: &History, place: u32) -> u64
    requires lines { AreLines F.CAP history.now.lines.items }
    requires within { place ≤ length history.now.lines.items }
    ensures value { result ≡ whole_at F.join F.UNIT history.now.lines.items place }
    ensures whole { IsWholeAt F.join F.UNIT history.now.lines.items place result }
{
    let mut walk = Walk::<F>::start(history);
    walk.to(place)
}
