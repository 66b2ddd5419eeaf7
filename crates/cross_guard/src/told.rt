//! A session's hand on the trees of the symbols: each call is made on the hand, and told as the next act.
ghost use Rattle.std.specs.Prelude.{◌≡◌, ◌+◌, ◌-◌, ◌≤◌, ◌<◌, ◌⊎◌, ◌++◌, [], ◌∷◌, OnOk, IfOk, IfErr};
ghost use Rattle.std.specs.Prelude.{vec_capacity, vec_len};
ghost use Rattle.admit_core.specs.Tapes.{with_post, IsNoCall};
ghost use Rattle.risk_journal.specs.ActLists.{last_post, posts_in, calls_of};
ghost use Rattle.cross_guard.specs.Halves.{cross_cap};
ghost use Rattle.cross_guard.specs.Session.{guarding};
ghost use Rattle.cross_guard.specs.Told.{AsksUnder, IsAfter, IsCrossHand, IsFresh, cross_trees};

use crate::cross::joined;
use crate::guarding::{CrossVerdict, guard};
use fold_law::Memory;
use limit_table::Limits;
use risk_board::{Hand, Seen};
use risk_journal::{Act, End};
use std::alloc::Global;
use std::marker::Model;

/// A session's hand on the trees of the symbols, and the acts that tell its calls in order. Trees are
/// counted from 0, in the order of the symbols' rows.
#[derive(Drop)]
pub(crate) struct ToldHand<H: Hand> {
    hand: H,
    quota: u32,
    /// Always with room for one more than is asked for, the act that ends the session.
    acts: Vec<Act>,
    /// What was last posted in each tree, 0 before any post.
    lasts: Vec<u64>,
}

/// The hand of a session that has ended, and its acts.
#[derive(Drop)]
pub(crate) struct ToldEnd<H: Hand> {
    pub(crate) hand: H,
    pub(crate) acts: Vec<Act>,
}

impl<H: Hand> Model for ToldHand<H> {
    ghost use Rattle.std.specs.Prelude.{◌-◌, ◌<◌, min, vec_len, vec_capacity, length};
    ghost use Rattle.cross_guard.specs.Told.{ToldValue, InStep};

    ghost Value = { ToldValue H };

    ghost view = { λ a. record {
      hand = a.hand;
      trees = length a.lasts.items;
      quota = a.quota;
      acts = a.acts.items;
      room = min (vec_capacity a.acts - vec_len a.acts - 1) (H.meaning a.hand).spare;
    } };

    ghost invariant = { λ a. InStep (H.meaning a.hand) a.quota a.acts.items a.lasts.items
        × (vec_len a.acts < vec_capacity a.acts) };
}

/// The number of trees: one for each symbol, and one where the limits have none.
fn trees_of(limits: &Limits) -> usize
    ensures { result ≡ cross_trees limits.now }
{
    limits.symbols().len().max(1)
}

/// Tells the post of a value that is asked about, and the read of the root after it. The root's place in
/// the tree's history isn't known here, and told as 0.
fn tell_asked(acts: &mut Vec<Act>, tree: u32, index: u32, value: u64, root: Seen)
    requires { vec_len acts.old + 1 < vec_capacity acts.old }
    ensures items { acts.new.items ≡ acts.old.items ++ Act.Post tree index value
        ∷ Act.Read tree root.stamp 0 root.value ∷ [] }
    ensures len { vec_len acts.new ≡ vec_len acts.old + 2 }
    ensures capacity { vec_capacity acts.new ≡ vec_capacity acts.old }
{
    acts.push_reserved(Act::Post { tree, index, value });
    acts.push_reserved(Act::Read {
        tree,
        stamp: root.stamp,
        place: 0,
        value: root.value,
    });
}

impl<H: Hand> ToldHand<H> {
    /// The hand of a session that has made no call yet, over the trees of these limits. Where memory is
    /// wanting it comes back, with the act of that end if there is room for it.
    pub(crate) fn open(alloc: Global, limits: &Limits, hand: H) -> Result<ToldHand<H>, ToldEnd<H>>
        requires hand { IsCrossHand limits.now (H.meaning hand) }
        requires idle { (H.meaning hand).calls ≡ [] }
        ensures ok { IfOk result (IsFresh limits.now hand) }
        ensures back { IfErr result (λ ended. ended.hand ≡ hand) }
        ensures ended { IfErr result (λ ended. (ended.acts.items ≡ Act.Ended End.Memory ∷ [])
            ⊎ ((ended.acts.items ≡ []) × (vec_capacity ended.acts ≡ 0))) }
    {
        let mut acts = Vec::new(alloc);
        if acts.reserve(1).is_err() {
            return Err(ToldEnd { hand, acts });
        }
        match vec![in alloc; 0u64; trees_of(limits)] {
            Ok(lasts) => Ok(ToldHand {
                hand,
                quota: limits.quota(),
                acts,
                lasts,
            }),
            Err(_) => {
                acts.push_reserved(Act::Ended { end: End::Memory });
                Err(ToldEnd { hand, acts })
            }
        }
    }

    /// How many posts the quota leaves in a tree.
    pub(crate) fn left(&self, tree: u32) -> u32
        requires { tree < self.now.trees }
        ensures { result ≡ self.now.quota - posts_in tree self.now.acts }
    {
        let _ = &self.acts;
        self.hand.left(tree)
    }

    /// What was last posted in a tree, 0 before any post.
    pub(crate) fn last(&self, tree: u32) -> u64
        requires { tree < self.now.trees }
        ensures last { result ≡ last_post tree self.now.acts }
        ensures capped { result ≤ cross_cap }
    {
        self.lasts[tree as usize]
    }

    /// Takes room for so many acts. Refused, no act is told; room may have grown in part.
    pub(crate) fn reserve(&mut self, acts: u32) -> Result<(), Memory>
        requires { acts ≤ 1000 }
        ensures after { IsAfter H.SameOrigin self.old self.new 0 }
        ensures acts { self.new.acts ≡ self.old.acts }
        ensures ok { OnOk result (acts ≤ self.new.room) }
    {
        if self.acts.reserve(acts as usize + 1).is_err() {
            return Err(Memory);
        }
        self.hand.reserve(acts)
    }

    /// Posts a value in a tree.
    pub(crate) fn post(&mut self, tree: u32, value: u64)
        requires tree { tree < self.old.trees }
        requires left { posts_in tree self.old.acts < self.old.quota }
        requires capped { value ≤ cross_cap }
        requires room { 1 ≤ self.old.room }
        ensures after { IsAfter H.SameOrigin self.old self.new 1 }
        ensures acts { self.new.acts ≡ with_post tree value self.old.acts }
    {
        let index = self.quota - self.hand.left(tree) + 1;
        self.hand.post(tree, value);
        self.lasts[tree as usize] = value;
        self.acts.push_reserved(Act::Post { tree, index, value });
    }

    /// Puts an order of this value to the guard of a tree: with what was last posted there it is posted,
    /// the root is read, and where that isn't clear the last value is posted again.
    pub(crate) fn ask(&mut self, tree: u32, value: u64) -> CrossVerdict
        requires tree { tree < self.old.trees }
        requires capped { value ≤ cross_cap }
        requires room { 3 ≤ self.old.room }
        ensures after { IsAfter H.SameOrigin self.old self.new 3 }
        ensures asked { AsksUnder self.old.quota (λ limits. guarding limits tree value)
            self.old.acts self.new.acts result }
    {
        let old = self.lasts[tree as usize];
        let new = joined(old, value);
        let made = self.quota - self.hand.left(tree);
        let outcome = guard(&mut self.hand, tree, old, new);
        match outcome.verdict {
            CrossVerdict::Quota => CrossVerdict::Quota,
            CrossVerdict::Sent => {
                tell_asked(&mut self.acts, tree, made + 1, new, outcome.root);
                self.lasts[tree as usize] = new;
                CrossVerdict::Sent
            }
            CrossVerdict::Cross => {
                tell_asked(&mut self.acts, tree, made + 1, new, outcome.root);
                let index = made + 2;
                self.acts.push_reserved(Act::Post {
                    tree,
                    index,
                    value: old,
                });
                CrossVerdict::Cross
            }
        }
    }

    /// Tells an act that is no call.
    pub(crate) fn tell(&mut self, act: Act)
        requires no_call { IsNoCall act }
        requires room { 1 ≤ self.old.room }
        ensures after { IsAfter H.SameOrigin self.old self.new 1 }
        ensures acts { self.new.acts ≡ self.old.acts ++ act ∷ [] }
    {
        self.acts.push_reserved(act);
    }

    /// The hand and the acts at last, with the one that ends the session, for which there is always room.
    /// The hand's calls are the acts' posts and reads, in order.
    pub(crate) fn end(self, end: End) -> ToldEnd<H>
        ensures acts { result.acts.items ≡ self.acts ++ Act.Ended end ∷ [] }
        ensures hand { result.hand ≡ self.hand }
        ensures calls { (H.meaning self.hand).calls ≡ calls_of result.acts.items }
    {
        let mut acts = self.acts;
        acts.push_reserved(Act::Ended { end });
        ToldEnd {
            hand: self.hand,
            acts,
        }
    }
}
