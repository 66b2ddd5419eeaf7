//! The keeper's seat.
use crate::view::{Plan, View};
use fold_law::Fold;
use stamp_word::CountedSeat;
use std::marker::{Model, PhantomData};

/// The keeper's seat, which gives each session its seat and takes it back. Contracts see the table
/// and its plan, how many numbers it gave, what each joined session did, and how many steps the seat
/// made on the table's words.
#[derive(Drop)]
pub struct KeeperSeat<F: Fold> {
    /// With what the keeper makes its steps.
    pub(crate) seat: CountedSeat<View>,
    /// The plan of the table's rule.
    pub(crate) plan: Plan,
    /// How many numbers it gave, and so the next one.
    pub(crate) given: u32,
    pub(crate) fold: PhantomData<F>,
}

impl<F: Fold> Model for KeeperSeat<F> {
    ghost use Rattle.std.specs.Prelude.{◌≡◌, []};
    ghost use Rattle.node_rule.specs.declared.view.View.TheVariants.{Keeper};
    ghost use Rattle.node_rule.specs.Views.{tracks_of};
    ghost use Rattle.node_rule.specs.StampPart.{IsPlan};
    ghost use Rattle.node_rule.specs.Standing.{Keeping};

    ghost Value = { Keeping };

    ghost view = { λ k. record {
      table = k.seat.table_id;
      plan = k.plan;
      given = k.given;
      joined = tracks_of k.seat.me.0;
      steps = k.seat.steps;
    } };

    ghost invariant = { λ k. IsPlan k.plan
        × (k.seat.me ≡ (Keeper k.plan.levels k.given (tracks_of k.seat.me.0), [])) };
}
