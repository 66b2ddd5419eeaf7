//! A walk along a history, from place to place.
ghost use Rattle.std.specs.Prelude.{◌≡◌, ◌≤◌, length};
ghost use Rattle.trail_replay.specs.Arrays.{AreLines, IsWholeAt, whole_at};

use crate::array::{Leaves, set_lines};
use crate::history::History;
use fold_law::{Fold, SESSIONS, whole};
use risk_board::Line;
use std::marker::{Model, PhantomData};

/// The lines of a history with a place among them, at first 0. Contracts see the two.
#[derive(Drop)]
pub struct Walk<'a, F: Fold> {
    lines: &'a [Line],
    place: usize,
    leaves: Leaves,
    fold: PhantomData<F>,
}

impl<'a, F: Fold> Model for Walk<'a, F> {
    ghost use Rattle.trail_replay.specs.Arrays.{WalkValue, IsWalk};

    ghost Value = { WalkValue };

    ghost view = { λ w. record { lines = w.lines.now; place = w.place } };

    ghost invariant = { λ w. IsWalk F.UNIT F.CAP w.lines.now w.place w.leaves };
}

impl<'a, F: Fold> Walk<'a, F> {
    /// A walk at the beginning of a history, before its first line.
    pub fn start(history: &'a History) -> Walk<'a, F>
        requires lines { AreLines F.CAP history.now.lines.items }
        ensures lines { result.lines ≡ history.now.lines.items }
        ensures place { result.place ≡ 0 }
    {
        Walk {
            lines: history.lines.as_slice(),
            place: 0,
            leaves: [F::UNIT; SESSIONS as usize],
            fold: PhantomData,
        }
    }

    /// The fold of the plain array at a place, which isn't before the last one. The cost is that of
    /// the lines between the two, and of one fold of the components.
    pub fn to(&mut self, place: u32) -> u64
        requires after { self.old.place ≤ place }
        requires within { place ≤ length self.old.lines }
        ensures place { self.new.place ≡ place }
        ensures lines { self.new.lines ≡ self.old.lines }
        ensures value { result ≡ whole_at F.join F.UNIT self.old.lines place }
        ensures whole { IsWholeAt F.join F.UNIT self.old.lines place result }
    {
        let some = &self.lines[self.place..place as usize];
        set_lines(&mut self.leaves, some);
        self.place = place as usize;
        whole::<F>(&self.leaves)
    }
}
