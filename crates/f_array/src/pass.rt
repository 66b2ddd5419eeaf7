//! What a session posts and reads with, and what closes the forest.
ghost use Rattle.std.specs.Prelude.{◌≡◌, ◌-◌, ◌≤◌, ◌<◌, OnOk, OnErr};
ghost use Rattle.node_rule.specs.Sums.{posts_in};
ghost use Rattle.f_array.specs.Passes.{KeepsPass};

use fold_law::{Fold, Memory};
use node_rule::{Climb, KeeperSeat};
use std::marker::Model;

/// A session's pass. Contracts see its forest's table and plan, what the session did, for how many
/// more calls there is room, and how many steps the session made on the forest's words.
#[derive(Drop)]
pub struct Pass<F: Fold> {
    pub(crate) climb: Climb<F>,
}

impl<F: Fold> Model for Pass<F> {
    ghost use Rattle.node_rule.specs.Standing.{IsIdle};
    ghost use Rattle.f_array.specs.Passes.{PassValue, pass_of};

    ghost Value = { PassValue };

    ghost view = { λ p. pass_of p.climb };

    ghost invariant = { λ p. IsIdle p.climb };
}

/// The keeper of a forest all of whose passes were given. Contracts see its forest's table and plan.
#[derive(Drop)]
pub struct Keeper<F: Fold> {
    pub(crate) seat: KeeperSeat<F>,
}

impl<F: Fold> Model for Keeper<F> {
    ghost use Rattle.node_rule.specs.Standing.{Forested};
    ghost use Rattle.f_array.specs.Passes.{IsAllGiven};

    ghost Value = { Forested };

    ghost view = { λ k. record { table = k.seat.table; plan = k.seat.plan } };

    ghost invariant = { λ k. IsAllGiven k.seat };
}

impl<F: Fold> Pass<F> {
    /// The session's number, from 0.
    pub fn number(&self) -> u32
        ensures { result ≡ self.now.track.number }
    {
        self.climb.number()
    }

    /// How many more posts the quota lets the session make in the tree.
    pub fn left(&self, tree: u32) -> u32
        requires { tree < self.now.plan.trees }
        ensures { result ≡ self.now.plan.quota - posts_in tree self.now.track }
    {
        self.climb.left(tree)
    }

    /// For how many more calls there is room.
    pub fn spare(&self) -> u32
        ensures { result ≡ self.now.spare }
    {
        self.climb.spare()
    }

    /// Takes room for so many calls and the installs that they may win. A refusal leaves the pass as
    /// it was; room may have grown in part.
    pub fn reserve(&mut self, calls: u32) -> Result<(), Memory>
        requires { calls ≤ 1000 }
        ensures ok { OnOk result (calls ≤ self.new.spare) }
        ensures spare { self.old.spare ≤ self.new.spare }
        ensures kept { KeepsPass self.old self.new }
        ensures err { OnErr result (self.new ≡ self.old) }
    {
        self.climb.reserve(calls)
    }
}
