//! The forest: its opening, posts and reads, and its close.
ghost use Rattle.std.specs.Prelude.{◌≡◌, ℕ, suc, ◌+◌, ◌*◌, ◌-◌, ◌≤◌, ◌<◌, IfOk};
ghost use Rattle.fold_law.specs.declared.limits.TheConstants.{SESSIONS, QUOTA};
ghost use Rattle.stamp_word.specs.Places.{IsLeast};
ghost use Rattle.node_rule.specs.Sums.{posts_in};
ghost use Rattle.node_rule.specs.Standing.{plan_of, IsKeeperOf};
ghost use Rattle.f_array.specs.Passes.{IsPassOf, new_passes, HasPostAdded, HasReadAdded, IsLatestIn};
ghost use Rattle.f_array.specs.Passes.{IsDealtUpTo};

use crate::pass::{Keeper, Pass};
use crate::rise_up::rise_up;
use fold_law::{Fold, Memory};
use node_rule::{KeeperSeat, Words};
use risk_board::Seen;
use stamp_word::{Shape, Steps};
use std::alloc::Global;
use std::marker::Model;
use std::sync::ledger::Ledger;

/// The words of the trees, shared by all sessions. Contracts see the table and its plan.
#[derive(Drop)]
pub struct Forest<F: Fold> {
    pub(crate) words: Words<F>,
    pub(crate) alloc: Global,
}

impl<F: Fold> Model for Forest<F> {
    ghost use Rattle.node_rule.specs.Standing.{Forested};

    ghost Value = { Forested };

    ghost view = { λ f. f.words };
}

impl<F: Fold> Forest<F> {
    /// A new forest, with each node at the fold's unit, its keeper, and a pass for each session in
    /// order of number.
    pub fn open(
        alloc: Global,
        shape: Shape,
        sessions: u32,
        quota: u32,
    ) -> Result<(Forest<F>, Keeper<F>, Vec<Pass<F>>), Memory>
        requires sessions { (1 ≤ sessions) × (sessions ≤ SESSIONS) }
        requires quota { (1 ≤ quota) × (quota ≤ QUOTA) }
        requires shape { IsLeast sessions shape.levels }
        ensures plan { IfOk result (λ new.
            new.0.plan ≡ plan_of shape.levels shape.trees sessions quota) }
        ensures keeper { IfOk result (λ new. new.1 ≡ new.0) }
        ensures passes { IfOk result (λ new. new.2.items ≡ new_passes new.0 sessions) }
    {
        let Ok((words, mut keeper)) = Words::<F>::open(alloc, shape, sessions, quota) else {
            return Err(Memory);
        };
        let Ok(passes) = deal(&words, alloc, &mut keeper, sessions) else {
            return Err(Memory);
        };
        Ok((Forest { words, alloc }, Keeper { seat: keeper }, passes))
    }

    /// Sets the session's component of the tree: a store of its leaf, and an ascent to the root. It
    /// takes effect at the won exchange on the root that first covers it, its own or another's.
    ///
    /// The pass counts its own steps, whatever counter is handed in, so no body of this call waits
    /// for another session: it could only do so by loading a word again and again.
    pub fn post<L: Ledger>(&self, pass: &mut Pass<F>, tree: u32, value: u64, steps: &mut Steps<L>)
        requires forest { IsPassOf self.now pass.old }
        requires tree { tree < pass.old.plan.trees }
        requires left { posts_in tree pass.old.track < pass.old.plan.quota }
        requires spare { 1 ≤ pass.old.spare }
        requires capped { value ≤ F.CAP }
        ensures added { HasPostAdded tree value pass.old pass.new }
        ensures own_least { pass.old.steps + 1 ≤ pass.new.steps }
        ensures own_most { pass.new.steps ≤ pass.old.steps + (8 * pass.old.plan.levels + 1) }
        ensures least { steps.old + 1 ≤ steps.new }
        ensures most { steps.new ≤ steps.old + (8 * pass.old.plan.levels + 1) }
    {
        self.words.store_leaf(&mut pass.climb, tree, value, steps);
        rise_up(&self.words, &mut pass.climb, steps);
    }

    /// Reads the tree's root, in one step. The stamp is at least that of each earlier read of the
    /// pass there.
    pub fn read<L: Ledger>(&self, pass: &mut Pass<F>, tree: u32, steps: &mut Steps<L>) -> Seen
        requires forest { IsPassOf self.now pass.old }
        requires tree { tree < pass.old.plan.trees }
        requires spare { 1 ≤ pass.old.spare }
        ensures added { HasReadAdded tree result.stamp result.value pass.old pass.new }
        ensures latest { IsLatestIn tree result.stamp pass.old }
        ensures own_step { pass.new.steps ≡ pass.old.steps + 1 }
        ensures one_step { steps.new ≡ steps.old + 1 }
    {
        self.words.read_root(&mut pass.climb, tree, steps)
    }
}

// A pass for each session, in order of number.
fn deal<F: Fold>(
    words: &Words<F>,
    alloc: Global,
    keeper: &mut KeeperSeat<F>,
    sessions: u32,
) -> Result<Vec<Pass<F>>, Memory>
    requires table { IsKeeperOf words.now keeper.old }
    requires all { sessions ≤ words.now.plan.sessions }
    requires none_given { IsDealtUpTo 0 keeper.old }
    ensures table { IfOk result (λ _. IsKeeperOf words.now keeper.new) }
    ensures given { IfOk result (λ _. IsDealtUpTo sessions keeper.new) }
    ensures passes { IfOk result (λ passes. passes.items ≡ new_passes words.now sessions) }
{
    let mut passes = Vec::new(alloc);
    for _ in 0..sessions {
        let Ok(climb) = words.split(alloc, keeper) else {
            return Err(Memory);
        };
        let Ok(()) = passes.push(Pass { climb }) else {
            return Err(Memory);
        };
    }
    Ok(passes)
}
