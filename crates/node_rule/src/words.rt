//! The words of the trees, and the steps of an ascent.
ghost use Rattle.std.specs.Prelude.{◌≡◌, ℕ, ◌+◌, ◌*◌, ◌/◌, ◌^◌, ◌<◌, ◌≤◌, Some};
ghost use Rattle.std.specs.Bool.{OnTrue, OnFalse};
ghost use Rattle.node_rule.specs.declared.view.Stage.TheVariants.{Fresh, First, Lost, Second};
ghost use Rattle.stamp_word.specs.Places.{place_of};
ghost use Rattle.node_rule.specs.Standing.{IsOf, KeepsSeat, HasAscent, IsAt, IsOnWay, IsStanding};
ghost use Rattle.node_rule.specs.Standing.{IsFresh, HasLostOnce, AwaitsParent, HasTry, HasFullTry};
ghost use Rattle.node_rule.specs.Standing.{HasLoaded, HasLost};
ghost use Rattle.node_rule.specs.StampPart.{IsPlan};
ghost use Rattle.node_rule.specs.Steps.{parent_stage, left_stage, right_stage, after_win};
ghost use Rattle.node_rule.specs.Views.{staged};
ghost use Rattle.node_rule.specs.Own.{number_in};

use crate::climb::Climb;
use crate::rule::{Exchange, LoadLeft, LoadParent, LoadRight, NodeRule};
use crate::tries::{after_lost, full_word, install, risen_to, try_held};
use crate::view::{Ascent, Plan, Stage, Try, View};
use fold_law::Fold;
use stamp_word::{CountedTable, Shape, Steps, exchange_if, load, stamp_of};
use std::alloc::Global;
use std::marker::Model;
use std::sync::ledger::Ledger;

/// The words of the trees, under the running rule. Contracts see the table and its plan.
#[derive(Drop)]
pub struct Words<F: Fold> {
    /// The words, with the views of all seats.
    pub(crate) table: CountedTable<View, Plan, NodeRule<F>>,
    /// What the table's rule was told.
    pub(crate) plan: Plan,
    /// The memory of the words that a close gives.
    pub(crate) alloc: Global,
}

impl<F: Fold> Model for Words<F> {
    ghost use Rattle.std.specs.Prelude.{◌≡◌, ◌*◌, ◌^◌};
    ghost use Rattle.node_rule.specs.StampPart.{IsPlan};
    ghost use Rattle.node_rule.specs.Standing.{Forested};

    ghost Value = { Forested };

    ghost view = { λ w. record { table = w.table.table_id; plan = w.plan } };

    ghost invariant = { λ w. IsPlan w.plan × (w.table.key ≡ w.plan)
        × (w.table.table_id.slots ≡ 0)
        × (w.table.table_id.words ≡ w.plan.trees * (2 * 2 ^ w.plan.levels)) };
}

impl<F: Fold> Words<F> {
    /// The shape of the trees.
    pub fn shape(&self) -> Shape
        ensures levels { result.levels ≡ self.now.plan.levels }
        ensures trees { result.trees ≡ self.now.plan.trees }
    {
        shape_of(&self.plan)
    }

    /// Loads the parent of the ascent's node, for the first try.
    pub fn first_load<L: Ledger>(&self, climb: &mut Climb<F>, steps: &mut Steps<L>)
        requires table { IsOf self.now climb.old }
        requires stage { IsFresh climb.old }
        ensures table { KeepsSeat climb.old climb.new }
        ensures view { HasLoaded parent_stage climb.old climb.new }
        ensures own_step { climb.new.steps ≡ climb.old.steps + 1 }
        ensures one_step { steps.new ≡ steps.old + 1 }
    {
        self.load_parent(climb, steps);
    }

    /// Loads the parent of the ascent's node again, for the second try.
    pub fn second_load<L: Ledger>(&self, climb: &mut Climb<F>, steps: &mut Steps<L>)
        requires table { IsOf self.now climb.old }
        requires stage { HasLostOnce climb.old }
        ensures table { KeepsSeat climb.old climb.new }
        ensures view { HasLoaded parent_stage climb.old climb.new }
        ensures own_step { climb.new.steps ≡ climb.old.steps + 1 }
        ensures one_step { steps.new ≡ steps.old + 1 }
    {
        self.load_parent(climb, steps);
    }

    // The ascent in hand.
    fn in_hand(&self, climb: &Climb<F>) -> Ascent
        requires table { IsOf self.now climb.now }
        requires ascent { HasAscent climb.now }
        ensures view { IsAt climb.now result }
        ensures on_way { IsOnWay F.under self.now.plan (number_in climb.now.view) result }
        ensures stands { IsStanding self.now.plan result }
    {
        match climb.ascent {
            Some(x) => x,
            None => unreachable!(),
        }
    }

    // The place of the word of the parent of the ascent's node, or of a child of that parent.
    fn place_near(&self, x: &Ascent, node: u32) -> u32
        requires stands { IsStanding self.now.plan x.now }
        requires near { node < 2 * (x.now.node / 2) + 2 }
        ensures place { result ≡ place_of self.now.plan.levels x.now.tree node }
        ensures within { result < self.now.table.words }
    {
        shape_of(&self.plan).path(x.tree, node)
    }

    // Loads the parent of the ascent's node, for a try.
    fn load_parent<L: Ledger>(&self, climb: &mut Climb<F>, steps: &mut Steps<L>)
        requires table { IsOf self.now climb.old }
        requires stage { AwaitsParent climb.old }
        ensures table { KeepsSeat climb.old climb.new }
        ensures view { HasLoaded parent_stage climb.old climb.new }
        ensures own_step { climb.new.steps ≡ climb.old.steps + 1 }
        ensures one_step { steps.new ≡ steps.old + 1 }
    {
        let x = self.in_hand(climb);
        let place = self.place_near(&x, x.node / 2);
        let word = load::<View, Plan, NodeRule<F>, LoadParent, L>(
            &self.table,
            &mut climb.seat,
            place,
            steps,
        );
        if let Some(ascent) = &mut climb.ascent {
            keep_parent(ascent, word);
        }
    }

    /// Loads the left child of the parent, once the parent is loaded.
    pub fn load_left<L: Ledger>(&self, climb: &mut Climb<F>, steps: &mut Steps<L>)
        requires table { IsOf self.now climb.old }
        requires stage { HasTry climb.old }
        ensures table { KeepsSeat climb.old climb.new }
        ensures view { HasLoaded left_stage climb.old climb.new }
        ensures own_step { climb.new.steps ≡ climb.old.steps + 1 }
        ensures one_step { steps.new ≡ steps.old + 1 }
    {
        let x = self.in_hand(climb);
        let node = self.shape().left(x.node / 2);
        let place = self.place_near(&x, node);
        let word = load::<View, Plan, NodeRule<F>, LoadLeft<F>, L>(
            &self.table,
            &mut climb.seat,
            place,
            steps,
        );
        if let Some(ascent) = &mut climb.ascent {
            keep_left(ascent, word);
        }
    }

    /// Loads the right child of the parent, once the parent is loaded.
    pub fn load_right<L: Ledger>(&self, climb: &mut Climb<F>, steps: &mut Steps<L>)
        requires table { IsOf self.now climb.old }
        requires stage { HasTry climb.old }
        ensures table { KeepsSeat climb.old climb.new }
        ensures view { HasLoaded right_stage climb.old climb.new }
        ensures own_step { climb.new.steps ≡ climb.old.steps + 1 }
        ensures one_step { steps.new ≡ steps.old + 1 }
    {
        let x = self.in_hand(climb);
        let node = self.shape().right(x.node / 2);
        let place = self.place_near(&x, node);
        let word = load::<View, Plan, NodeRule<F>, LoadRight<F>, L>(
            &self.table,
            &mut climb.seat,
            place,
            steps,
        );
        if let Some(ascent) = &mut climb.ascent {
            keep_right(ascent, word);
        }
    }

    /// Exchanges the parent's word for the next stamp with the join of the loaded children's values.
    /// It answers true where it won: the word was still the one that the try loaded.
    pub fn exchange<L: Ledger>(&self, climb: &mut Climb<F>, steps: &mut Steps<L>) -> bool
        requires table { IsOf self.now climb.old }
        requires stage { HasFullTry climb.old }
        ensures table { KeepsSeat climb.old climb.new }
        ensures won { OnTrue result (climb.new.view ≡ after_win climb.old.view) }
        ensures lost { OnFalse result (HasLost climb.old climb.new) }
        ensures own_step { climb.new.steps ≡ climb.old.steps + 1 }
        ensures one_step { steps.new ≡ steps.old + 1 }
    {
        let x = self.in_hand(climb);
        let Some(tried) = try_held(&x) else {
            unreachable!()
        };
        let word = full_word::<F>(&tried, &x);
        let place = self.place_near(&x, x.node / 2);
        match exchange_if::<View, Plan, NodeRule<F>, Exchange, L>(
            &self.table,
            &mut climb.seat,
            place,
            tried.parent,
            word,
            steps,
        ) {
            Ok(()) => {
                climb.trail.push_reserved(install(&x, &tried));
                climb.ascent = risen_to(&x, stamp_of(tried.parent) + 1);
                true
            }
            Err(found) => {
                climb.ascent = after_lost(&x, found);
                false
            }
        }
    }
}

pub(crate) fn shape_of(plan: &Plan) -> Shape
    requires planned { IsPlan plan.now }
    ensures { (result.levels ≡ plan.now.levels) × (result.trees ≡ plan.now.trees) }
{
    Shape {
        levels: plan.levels,
        trees: plan.trees,
    }
}

fn keep_parent(x: &mut Ascent, word: u64)
    ensures { x.new ≡ staged x.old (parent_stage x.old.stage word) }
{
    let tried = Try {
        parent: word,
        left: None,
        right: None,
    };
    match x.stage {
        Stage::Fresh => x.stage = Stage::First(tried),
        Stage::Lost { first } => x.stage = Stage::Second { first, tried },
        _ => {}
    }
}

fn keep_left(x: &mut Ascent, word: u64)
    ensures { x.new ≡ staged x.old (left_stage x.old.stage word) }
{
    match x.stage {
        Stage::First(tried) => {
            x.stage = Stage::First(Try {
                left: Some(word),
                ..tried
            })
        }
        Stage::Second { first, tried } => {
            x.stage = Stage::Second {
                first,
                tried: Try {
                    left: Some(word),
                    ..tried
                },
            }
        }
        _ => {}
    }
}

fn keep_right(x: &mut Ascent, word: u64)
    ensures { x.new ≡ staged x.old (right_stage x.old.stage word) }
{
    match x.stage {
        Stage::First(tried) => {
            x.stage = Stage::First(Try {
                right: Some(word),
                ..tried
            })
        }
        Stage::Second { first, tried } => {
            x.stage = Stage::Second {
                first,
                tried: Try {
                    right: Some(word),
                    ..tried
                },
            }
        }
        _ => {}
    }
}
