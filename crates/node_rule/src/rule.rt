//! The rule, and what each kind of step tells. Each kind is an empty type, named for the step.
use crate::view::{Plan, View};
use atomic_table::{Join, Play, Split, TableRule};
use fold_law::Fold;
use std::marker::PhantomData;

/// The rule over the words and the views, for one fold.
pub struct NodeRule<F: Fold> {
    fold: PhantomData<F>,
}

impl<F: Fold> TableRule<(), View, Plan> for NodeRule<F> {
    ghost use Rattle.std.specs.Prelude.{[]};
    ghost use Rattle.node_rule.specs.declared.view.View.TheVariants.{Keeper};
    ghost use Rattle.node_rule.specs.ValuePart.{IsKept};

    ghost holds = { λ plan s. IsKept plan F.UNIT F.CAP F.join s.words s.views };

    ghost first = { λ plan. Keeper plan.levels 0 [] };
}

pub struct StoreLeaf;

impl Play<(), View> for StoreLeaf {
    ghost use Rattle.node_rule.specs.Steps.{Stores};

    ghost then = { Stores };
}

pub struct LoadParent;

impl Play<(), View> for LoadParent {
    ghost use Rattle.node_rule.specs.Steps.{LoadsParent};

    ghost then = { LoadsParent };
}

pub struct LoadLeft<F: Fold> {
    fold: PhantomData<F>,
}

impl<F: Fold> Play<(), View> for LoadLeft<F> {
    ghost use Rattle.node_rule.specs.Steps.{LoadsLeft};

    ghost then = { LoadsLeft F.under };
}

pub struct LoadRight<F: Fold> {
    fold: PhantomData<F>,
}

impl<F: Fold> Play<(), View> for LoadRight<F> {
    ghost use Rattle.node_rule.specs.Steps.{LoadsRight};

    ghost then = { LoadsRight F.under };
}

pub struct Exchange;

impl Play<(), View> for Exchange {
    ghost use Rattle.node_rule.specs.Steps.{Exchanges};

    ghost then = { Exchanges };
}

pub struct ReadRoot;

impl Play<(), View> for ReadRoot {
    ghost use Rattle.node_rule.specs.Steps.{Reads};

    ghost then = { Reads };
}

pub struct Deal;

impl Split<View> for Deal {
    ghost use Rattle.node_rule.specs.Steps.{keeper_after_split, session_after_split};

    ghost left = { keeper_after_split };

    ghost right = { session_after_split };
}

pub struct Take;

impl Join<View> for Take {
    ghost use Rattle.node_rule.specs.declared.view.View.TheVariants.{Spent};
    ghost use Rattle.node_rule.specs.Steps.{keeper_after_join};

    ghost both = { keeper_after_join };

    ghost spent = { Spent };
}
