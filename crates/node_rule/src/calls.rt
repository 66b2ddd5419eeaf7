//! The two steps that are calls of a session: the store of a post, and the read of a root.
ghost use Rattle.std.specs.Prelude.{◌≡◌, ℕ, ◌+◌, ◌-◌, ◌*◌, ◌^◌, ◌<◌, ◌≤◌, Some, None};
ghost use Rattle.node_rule.specs.declared.view.View.TheVariants.{Session};
ghost use Rattle.risk_board.specs.declared.hand.Call.TheVariants.{Post, Read};
ghost use Rattle.node_rule.specs.Views.{called, started};
ghost use Rattle.node_rule.specs.Sums.{posts_in};
ghost use Rattle.node_rule.specs.Standing.{IsOf, KeepsTable, IsIdle, HasPostLeft};
ghost use Rattle.node_rule.specs.Standing.{HasPosted, HasRead, IsLatestRead};
ghost use Rattle.stamp_word.specs.Places.{leaf_of};

use crate::climb::Climb;
use crate::rule::{NodeRule, ReadRoot, StoreLeaf};
use crate::view::{Ascent, Plan, Stage, View};
use crate::words::{Words, shape_of};
use fold_law::Fold;
use risk_board::{Call, Seen};
use stamp_word::{Steps, load, pack, stamp_of, store, value_of};
use std::sync::ledger::Ledger;

fn started_at(levels: u32, tree: u32, leaf: u32, stamp: u32) -> Option<Ascent>
    ensures { result ≡ started levels tree leaf stamp }
{
    if levels == 0 {
        None
    } else {
        Some(Ascent {
            tree,
            node: leaf,
            height: 0,
            held: stamp,
            stage: Stage::Fresh,
        })
    }
}

impl<F: Fold> Words<F> {
    /// Stores a post in the session's leaf, which begins its ascent. Where the leaf is the root
    /// there is none.
    pub fn store_leaf<L: Ledger>(
        &self,
        climb: &mut Climb<F>,
        tree: u32,
        value: u64,
        steps: &mut Steps<L>,
    )
        requires table { IsOf self.now climb.old }
        requires tree { tree < climb.old.plan.trees }
        requires value { value ≤ F.CAP }
        requires idle { HasPostLeft tree climb.old }
        requires spare { 1 ≤ climb.old.spare }
        ensures table { KeepsTable climb.old climb.new }
        ensures spare { climb.new.spare ≡ climb.old.spare - 1 }
        ensures view { HasPosted tree value climb.old climb.new }
        ensures own_step { climb.new.steps ≡ climb.old.steps + 1 }
        ensures one_step { steps.new ≡ steps.old + 1 }
    {
        let posts = climb.counts[tree as usize];
        let word = pack(posts + 1, value);
        let shape = shape_of(&self.plan);
        let leaf = shape.leaf(climb.number);
        let place = shape.path(tree, leaf);
        store::<View, Plan, NodeRule<F>, StoreLeaf, L>(
            &self.table,
            &mut climb.seat,
            place,
            word,
            steps,
        );
        climb.counts[tree as usize] = posts + 1;
        climb.calls.push_reserved(Call::Post { tree, value });
        climb.spare -= 1;
        climb.ascent = started_at(self.plan.levels, tree, leaf, posts + 1);
    }

    /// Reads the root of a tree. The stamp is at least that of each earlier read of this session
    /// there.
    pub fn read_root<L: Ledger>(
        &self,
        climb: &mut Climb<F>,
        tree: u32,
        steps: &mut Steps<L>,
    ) -> Seen
        requires table { IsOf self.now climb.old }
        requires tree { tree < climb.old.plan.trees }
        requires idle { IsIdle climb.old }
        requires spare { 1 ≤ climb.old.spare }
        ensures table { KeepsTable climb.old climb.new }
        ensures spare { climb.new.spare ≡ climb.old.spare - 1 }
        ensures view { HasRead tree result.stamp result.value climb.old climb.new }
        ensures latest { IsLatestRead tree result.stamp climb.old }
        ensures own_step { climb.new.steps ≡ climb.old.steps + 1 }
        ensures one_step { steps.new ≡ steps.old + 1 }
    {
        let place = shape_of(&self.plan).root(tree);
        let word = load::<View, Plan, NodeRule<F>, ReadRoot, L>(
            &self.table,
            &mut climb.seat,
            place,
            steps,
        );
        let seen = Seen {
            stamp: stamp_of(word),
            value: value_of(word),
        };
        climb.calls.push_reserved(Call::Read {
            tree,
            stamp: seen.stamp,
            value: seen.value,
        });
        climb.spare -= 1;
        seen
    }
}
