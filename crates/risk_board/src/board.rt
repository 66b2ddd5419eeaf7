//! A board of plain arrays, which keeps the calls on it and its own history.
ghost use Rattle.std.specs.Prelude.{◌≡◌, ◌^◌, ◌≤◌, ◌<◌, [], length, replicate, Some, slice_get};
ghost use Rattle.std.specs.Prelude.{map, All, IfOk};
ghost use Rattle.fold_law.specs.Whole.{whole_of};
ghost use Rattle.fold_law.specs.declared.limits.TheConstants.{SESSIONS, QUOTA};
ghost use Rattle.risk_board.specs.History.{array_after, components_of};
ghost use Rattle.risk_board.specs.Plain.{empty_board, IsLegalTree};

use crate::hand::{Call, Line};
use crate::kept::Kept;
use crate::plain_hand::PlainHand;
use crate::tree::PlainTree;
use fold_law::{Fold, Memory};
use std::alloc::Global;
use std::marker::{Model, PhantomData};

/// A plain array for each tree, at first all `UNIT`, with the lines of its history and the calls of
/// each session. Trees and sessions are counted from 0. The stamp of a read is the number of posts in
/// its tree so far.
#[derive(Drop)]
pub struct PlainBoard<F: Fold> {
    pub(crate) kept: Kept,
    pub(crate) fold: PhantomData<F>,
}

impl<F: Fold> Model for PlainBoard<F> {
    ghost use Rattle.fold_law.specs.Whole.{whole_of};
    ghost use Rattle.risk_board.specs.Plain.{BoardValue};

    ghost Value = { BoardValue };

    ghost use Rattle.risk_board.specs.Kept.{board_of, IsKept};

    ghost view = { λ b. board_of b.kept };

    ghost invariant = { λ b. IsKept (whole_of F.join F.UNIT) F.UNIT (F.under 1) b.kept };
}

impl<F: Fold> PlainBoard<F> {
    /// A board before any call, for so many trees and sessions, and at most so many posts of a session
    /// in a tree.
    pub fn open(
        alloc: Global,
        trees: u32,
        sessions: u32,
        quota: u32,
    ) -> Result<PlainBoard<F>, Memory>
        requires sessions { (1 ≤ sessions) × (sessions ≤ SESSIONS) }
        requires quota { (1 ≤ quota) × (quota ≤ QUOTA) }
        ensures { IfOk result (λ board. board ≡ empty_board trees sessions quota) }
    {
        let kept = Kept {
            quota,
            trees: open_trees(alloc, F::UNIT, trees, sessions)?,
            calls: open_calls(alloc, sessions)?,
        };
        Ok(PlainBoard {
            kept,
            fold: PhantomData,
        })
    }

    /// The lines of a tree, in order. With the calls of all sessions they are one legal history, a
    /// read's place being its stamp. A `u32` counts them, and the array behind them has leaf values
    /// alone.
    pub fn lines(&self, tree: u32) -> &[Line]
        requires tree { tree < length self.now.lines }
        ensures lines { slice_get self.now.lines tree ≡ Some result.now }
        ensures legal { IsLegalTree (whole_of F.join F.UNIT) F.UNIT self.now tree result.now }
        ensures few { length result.now < 2 ^ 32 }
        ensures leaves { All (F.under 1)
            (array_after F.UNIT (components_of (length self.now.calls)) result.now) }
    {
        self.kept.trees[tree as usize].lines.as_slice()
    }

    /// The calls of a session, in order.
    pub fn calls(&self, session: u32) -> &[Call]
        requires { session < length self.now.calls }
        ensures { slice_get self.now.calls session ≡ Some result.now }
    {
        self.kept.calls[session as usize].as_slice()
    }
}

/// How many components the arrays of so many sessions have: the least power of two that is enough.
pub fn components(sessions: u32) -> u32
    requires { sessions ≤ SESSIONS }
    ensures value { result ≡ components_of sessions }
    ensures least { sessions ≤ result }
    ensures most { result ≤ SESSIONS }
{
    let mut power = 1;
    while power < sessions {
        power *= 2;
    }
    power
}

ghost use Rattle.risk_board.specs.Tree.{contents, empty_tree};

/// So many trees before any post.
fn open_trees(alloc: Global, unit: u64, trees: u32, sessions: u32) -> Result<Vec<PlainTree>, Memory>
    requires { sessions ≤ SESSIONS }
    ensures { let tree = empty_tree unit (components_of sessions) sessions in
        IfOk result (λ all. map contents all.items ≡ replicate trees tree) }
{
    let components = components(sessions);
    let mut all = Vec::new(alloc);
    for _ in 0..trees {
        let tree = PlainTree::open(alloc, unit, components, sessions)?;
        all.push(tree).map_err(|_| Memory)?;
    }
    Ok(all)
}

/// No calls of so many sessions.
fn open_calls(alloc: Global, sessions: u32) -> Result<Vec<Vec<Call>>, Memory>
    ensures { IfOk result (λ all. map (λ calls. calls.items) all.items ≡ replicate sessions []) }
{
    let mut all = Vec::new(alloc);
    for _ in 0..sessions {
        all.push(Vec::new(alloc)).map_err(|_| Memory)?;
    }
    Ok(all)
}
