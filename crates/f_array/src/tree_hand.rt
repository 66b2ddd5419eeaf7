//! A session's hand on a forest.
ghost use Rattle.std.specs.Prelude.{◌≡◌, ℕ, ◌+◌, ◌*◌, ◌≤◌, ◌<◌};
ghost use Rattle.risk_board.specs.declared.hand.Call.TheVariants.{Post, Read};
ghost use Rattle.risk_board.specs.Calls.{post_count};
ghost use Rattle.risk_board.specs.Hands.{with_call};
ghost use Rattle.node_rule.specs.Sums.{posts_in};
ghost use Rattle.f_array.specs.Passes.{IsPassOf, IsSamePass, HasPostAdded, HasReadAdded};
ghost use Rattle.f_array.specs.Handed.{hand_of, same_pass_itself, same_pass_next, same_pass_keeps};

use crate::forest::Forest;
use crate::pass::Pass;
use fold_law::{Fold, Memory};
use risk_board::{Hand, Seen};
use stamp_word::count_steps;
use std::marker::{Brand, Model};
use std::sync::ledger::{Blank, Ledger};

/// The hand over a forest: a pass, with a reference to its forest. Contracts see the forest's table
/// and plan, and the pass, whose own count bounds the steps of each call.
#[derive(Drop)]
pub struct TreeHand<'a, F: Fold> {
    forest: &'a Forest<F>,
    pass: Pass<F>,
}

impl<'a, F: Fold> Model for TreeHand<'a, F> {
    ghost use Rattle.f_array.specs.Passes.{IsPassOf};
    ghost use Rattle.f_array.specs.Handed.{HeldPass};

    ghost Value = { HeldPass };

    ghost view = { λ h. record { forest = h.forest.now; pass = h.pass } };

    ghost invariant = { λ h. IsPassOf h.forest.now h.pass };
}

impl<'a, F: Fold> TreeHand<'a, F> {
    /// The hand of a pass of this forest.
    pub fn new(forest: &'a Forest<F>, pass: Pass<F>) -> TreeHand<'a, F>
        requires { IsPassOf forest.now pass }
        ensures forest { result.forest ≡ forest.now }
        ensures pass { result.pass ≡ pass }
    {
        TreeHand { forest, pass }
    }

    /// The pass, with the hand's calls.
    pub fn give_back(self) -> Pass<F>
        ensures pass { result ≡ self.entry.pass }
        ensures forest { IsPassOf self.entry.forest result }
    {
        let TreeHand { forest: _, pass } = self;
        pass
    }
}

impl<'a, F: Fold> Hand for TreeHand<'a, F> {
    ghost meaning = { λ h. hand_of F.CAP h.pass };

    ghost SameOrigin = { λ a b. IsSamePass a.pass b.pass };

    fn number(&self) -> u32 {
        self.pass.number()
    }

    fn left(&self, tree: u32) -> u32 {
        self.pass.left(tree)
    }

    fn spare(&self) -> u32 {
        self.pass.spare()
    }

    fn reserve(&mut self, calls: u32) -> Result<(), Memory> {
        self.pass.reserve(calls)
    }

    // In one step, and at most 8 for each level.
    fn post(&mut self, tree: u32, value: u64)
        requires tree { tree < self.old.pass.plan.trees }
        requires left { post_count tree self.old.pass.track.calls < self.old.pass.plan.quota }
        requires spare { 1 ≤ self.old.pass.spare }
        requires capped { value ≤ F.CAP }
        ensures added { hand_of F.CAP self.new.pass
            ≡ with_call (Post tree value) (hand_of F.CAP self.old.pass) }
        ensures origin { IsSamePass self.old.pass self.new.pass }
        ensures own_least { self.old.pass.steps + 1 ≤ self.new.pass.steps }
        ensures own_most { self.new.pass.steps
            ≤ self.old.pass.steps + (8 * self.old.pass.plan.levels + 1) }
    {
        post_counted::<F, Brand>(self.forest, &mut self.pass, tree, value, Blank::new(1));
    }

    // In one step.
    fn read(&mut self, tree: u32) -> Seen
        requires tree { tree < self.old.pass.plan.trees }
        requires spare { 1 ≤ self.old.pass.spare }
        ensures added { let call = Read tree result.stamp result.value in
            hand_of F.CAP self.new.pass ≡ with_call call (hand_of F.CAP self.old.pass) }
        ensures origin { IsSamePass self.old.pass self.new.pass }
        ensures own_step { self.new.pass.steps ≡ self.old.pass.steps + 1 }
    {
        read_counted::<F, Brand>(self.forest, &mut self.pass, tree, Blank::new(1))
    }

    ghost origin_same = { λ a. same_pass_itself a.pass };

    ghost origin_next = { λ a b c. same_pass_next a.pass b.pass c.pass };

    ghost origin_means = { λ a b. same_pass_keeps F.CAP a.pass b.pass };
}

// A post with a count of its own.
fn post_counted<F: Fold, L: Ledger>(
    forest: &Forest<F>,
    pass: &mut Pass<F>,
    tree: u32,
    value: u64,
    blank: Blank,
)
    requires forest { IsPassOf forest.now pass.old }
    requires tree { tree < pass.old.plan.trees }
    requires left { posts_in tree pass.old.track < pass.old.plan.quota }
    requires spare { 1 ≤ pass.old.spare }
    requires capped { value ≤ F.CAP }
    requires blank { (blank.name ≡ L.name) × (blank.parts ≡ L.parts) × (0 < L.parts) }
    ensures added { HasPostAdded tree value pass.old pass.new }
    ensures own_least { pass.old.steps + 1 ≤ pass.new.steps }
    ensures own_most { pass.new.steps ≤ pass.old.steps + (8 * pass.old.plan.levels + 1) }
{
    let mut steps = count_steps::<L>(blank);
    forest.post(pass, tree, value, &mut steps);
}

// A read with a count of its own.
fn read_counted<F: Fold, L: Ledger>(
    forest: &Forest<F>,
    pass: &mut Pass<F>,
    tree: u32,
    blank: Blank,
) -> Seen
    requires forest { IsPassOf forest.now pass.old }
    requires tree { tree < pass.old.plan.trees }
    requires spare { 1 ≤ pass.old.spare }
    requires blank { (blank.name ≡ L.name) × (blank.parts ≡ L.parts) × (0 < L.parts) }
    ensures added { HasReadAdded tree result.stamp result.value pass.old pass.new }
    ensures own_step { pass.new.steps ≡ pass.old.steps + 1 }
{
    let mut steps = count_steps::<L>(blank);
    forest.read(pass, tree, &mut steps)
}
