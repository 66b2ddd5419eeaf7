//! A session's seat, with its lists of calls and installs.
ghost use Rattle.std.specs.Prelude.{◌≡◌, ◌-◌, ◌≤◌, ◌<◌, OnOk, OnErr, IfSome};
ghost use Rattle.node_rule.specs.Views.{ascent_of};
ghost use Rattle.node_rule.specs.Own.{number_in, posts_by, node_in, IsBelowRoot};
ghost use Rattle.node_rule.specs.Standing.{KeepsTable};

use crate::view::{Ascent, Install, Plan, View};
use fold_law::{Fold, Memory};
use risk_board::Call;
use stamp_word::CountedSeat;
use std::marker::{Model, PhantomData};

/// A session's seat, with its lists of calls and installs. Contracts see the table and its plan, the
/// seat's view, for how many more calls there is room, and how many steps the seat made on the
/// table's words.
#[derive(Drop)]
pub struct Climb<F: Fold> {
    /// With what the session makes its steps.
    pub(crate) seat: CountedSeat<View>,
    /// The plan of the table's rule.
    pub(crate) plan: Plan,
    /// The session's number, from 0.
    pub(crate) number: u32,
    /// The session's calls, in order.
    pub(crate) calls: Vec<Call>,
    /// The installs that its posts won, in order.
    pub(crate) trail: Vec<Install>,
    /// How many posts it made in each tree.
    pub(crate) counts: Vec<u32>,
    /// Its post on the way; none between two posts.
    pub(crate) ascent: Option<Ascent>,
    /// For how many more calls, with their installs, there is room in the lists.
    pub(crate) spare: u32,
    pub(crate) fold: PhantomData<F>,
}

impl<F: Fold> Model for Climb<F> {
    ghost use Rattle.std.specs.Prelude.{◌≡◌, [], vec_len, vec_capacity};
    ghost use Rattle.node_rule.specs.Standing.{Standing, IsSound, HasRoom, AreCounted};

    ghost Value = { Standing };

    ghost view = { λ c. record {
      table = c.seat.table_id;
      plan = c.plan;
      view = c.seat.me.0;
      spare = c.spare;
      steps = c.seat.steps;
    } };

    ghost invariant = { λ c.
        IsSound F.under c.plan c.number c.calls.items c.trail.items c.ascent c.seat.me.0
        × (c.seat.me.1 ≡ [])
        × HasRoom c.plan.levels c.spare (vec_len c.calls) (vec_capacity c.calls) (vec_len c.trail)
        (vec_capacity c.trail) c.ascent
        × AreCounted c.plan c.calls.items c.counts.items };
}

impl<F: Fold> Climb<F> {
    /// The tree of the ascent in hand.
    pub fn tree(&self) -> u32
        ensures { IfSome (ascent_of self.now.view) (λ x. result ≡ x.tree) }
    {
        match self.ascent {
            Some(x) => x.tree,
            None => 0,
        }
    }

    /// The node at which the ascent stands, below the root; between two posts the root.
    pub fn node(&self) -> u32
        ensures node { result ≡ node_in (ascent_of self.now.view) }
        ensures below { IfSome (ascent_of self.now.view) (IsBelowRoot self.now.plan) }
    {
        match self.ascent {
            Some(x) => x.node,
            None => 1,
        }
    }

    /// The stamp of that node which covers the post.
    pub fn held(&self) -> u32
        ensures { IfSome (ascent_of self.now.view) (λ x. result ≡ x.held) }
    {
        match self.ascent {
            Some(x) => x.held,
            None => 0,
        }
    }

    /// The session's number.
    pub fn number(&self) -> u32
        ensures { result ≡ number_in self.now.view }
    {
        self.number
    }

    /// How many more posts the quota lets the session make in the tree.
    pub fn left(&self, tree: u32) -> u32
        requires tree { tree < self.now.plan.trees }
        ensures { result ≡ self.now.plan.quota - posts_by tree self.now.view }
    {
        self.plan.quota.saturating_sub(self.counts[tree as usize])
    }

    /// For how many more calls there is room.
    pub fn spare(&self) -> u32
        ensures { result ≡ self.now.spare }
    {
        self.spare
    }

    /// Makes room for so many calls, and for the installs that they and the ascent in hand may win.
    pub fn reserve(&mut self, calls: u32) -> Result<(), Memory>
        requires { calls ≤ 1000 }
        ensures ok { OnOk result (calls ≤ self.new.spare) }
        ensures table { KeepsTable self.old self.new }
        ensures view { self.new.view ≡ self.old.view }
        ensures spare { self.old.spare ≤ self.new.spare }
        ensures steps { self.new.steps ≡ self.old.steps }
        ensures err { OnErr result (self.new ≡ self.old) }
    {
        if self.spare >= calls {
            return Ok(());
        }
        let Ok(()) = self.calls.reserve(calls as usize) else {
            return Err(Memory);
        };
        let installs = self.plan.levels * calls + self.plan.levels;
        let Ok(()) = self.trail.reserve(installs as usize) else {
            return Err(Memory);
        };
        self.spare = calls;
        Ok(())
    }
}
