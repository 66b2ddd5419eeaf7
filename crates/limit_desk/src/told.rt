//! An officer's hands: each post is made on the hand of its tree, and told as the next act.
ghost use Rattle.std.specs.Prelude.{◌≡◌, ◌+◌, ◌≤◌, ◌<◌, ◌++◌, [], ◌∷◌, OnOk, IfOk, IfErr, length};
ghost use Rattle.std.specs.Prelude.{vec_capacity};
ghost use Rattle.risk_journal.specs.ActLists.{calls_at};
ghost use Rattle.admit_core.specs.Tapes.{with_post};
ghost use Rattle.limit_desk.specs.Hands.{IsAfter, IsFresh, IsLevelHand, IsLimitHand};
ghost use Rattle.limit_desk.specs.Posting.{CanPost, with_row};
ghost use Rattle.limit_desk.specs.Trees.{limit_calls, limit_tree};

use crate::least::OPEN;
use crate::officer::{OfficerRow, OfficerTree, ROWS_MOST};
use fold_law::{LEAF, Memory};
use limit_table::Limits;
use risk_board::Hand;
use risk_journal::{Act, End};
use std::alloc::Global;
use std::marker::Model;

/// The most posts in a tree.
const POSTS_MOST: u32 = ROWS_MOST as u32;

/// An officer's hand on the halt tree, its hand on the limit trees, and the acts that tell the posts of
/// both in the order in which they were made. Trees are counted from 0: those of sums, the halt tree,
/// and behind it the limit tree of each tree of sums.
#[derive(Drop)]
pub(crate) struct ToldOfficer<M: Hand, D: Hand> {
    /// The halt tree is its tree 0.
    halt: M,
    /// The limit tree of a tree of sums has that tree's number in it.
    desk: D,
    halt_tree: u32,
    /// Always with room for one more than is asked for, the act that ends the officer.
    acts: Vec<Act>,
}

/// The hands of an officer that has ended, and its acts.
#[derive(Drop)]
pub(crate) struct ToldEnd<M: Hand, D: Hand> {
    pub(crate) halt: M,
    pub(crate) desk: D,
    pub(crate) acts: Vec<Act>,
}

impl<M: Hand, D: Hand> Model for ToldOfficer<M, D> {
    ghost use Rattle.std.specs.Prelude.{◌-◌, ◌<◌, min, vec_len, vec_capacity};
    ghost use Rattle.limit_desk.specs.Hands.{OfficerValue, InStep};

    ghost Value = { OfficerValue M D };

    ghost view = { λ a. record {
      halt = a.halt;
      desk = a.desk;
      halt_tree = a.halt_tree;
      acts = a.acts.items;
      room = min (vec_capacity a.acts - vec_len a.acts - 1)
          (min (M.meaning a.halt).spare (D.meaning a.desk).spare);
    } };

    ghost invariant = { λ a. InStep (M.meaning a.halt) (D.meaning a.desk) a.halt_tree a.acts.items
        × (vec_len a.acts < vec_capacity a.acts) };
}

impl<M: Hand, D: Hand> ToldOfficer<M, D> {
    /// The hands of an officer that has made no post yet, over the trees of these limits. Where there is
    /// no room for the act of an end, they come back.
    pub(crate) fn open(
        alloc: Global,
        limits: &Limits,
        halt: M,
        desk: D,
    ) -> Result<ToldOfficer<M, D>, ToldEnd<M, D>>
        requires halt_hand { IsLevelHand (M.meaning halt) }
        requires desk_hand { IsLimitHand limits.now (D.meaning desk) }
        requires halt_idle { (M.meaning halt).calls ≡ [] }
        requires desk_idle { (D.meaning desk).calls ≡ [] }
        ensures ok { IfOk result (IsFresh limits.now halt desk) }
        ensures halt { IfErr result (λ ended. ended.halt ≡ halt) }
        ensures desk { IfErr result (λ ended. ended.desk ≡ desk) }
        ensures acts { IfErr result (λ ended. ended.acts.items ≡ []) }
        ensures no_room { IfErr result (λ ended. vec_capacity ended.acts ≡ 0) }
    {
        let mut acts = Vec::new(alloc);
        if acts.reserve(1).is_err() {
            return Err(ToldEnd { halt, desk, acts });
        }
        Ok(ToldOfficer {
            halt,
            desk,
            halt_tree: limits.halt_tree(),
            acts,
        })
    }

    /// Takes room for one more post. Refused, no act is told; room may have grown in part.
    pub(crate) fn reserve(&mut self) -> Result<(), Memory>
        ensures after { IsAfter M.SameOrigin D.SameOrigin self.old self.new }
        ensures acts { self.new.acts ≡ self.old.acts }
        ensures ok { OnOk result (1 ≤ self.new.room) }
    {
        if self.acts.reserve(2).is_err() {
            return Err(Memory);
        }
        self.halt.reserve(1)?;
        self.desk.reserve(1)
    }

    /// Posts a limit in the limit tree of a tree of sums.
    fn post_limit(&mut self, tree: u32, limit: u64)
        requires tree { tree < self.old.halt_tree }
        requires capped { limit ≤ OPEN }
        requires left { length self.old.acts < ROWS_MOST }
        requires room { 1 ≤ self.old.room }
        ensures after { IsAfter M.SameOrigin D.SameOrigin self.old self.new }
        ensures acts { let number = limit_tree self.old.halt_tree tree in
            self.new.acts ≡ with_post number limit self.old.acts }
    {
        let index = POSTS_MOST - self.desk.left(tree) + 1;
        self.desk.post(tree, limit);
        self.acts.push_reserved(Act::Post {
            tree: self.halt_tree + 1 + tree,
            index,
            value: limit,
        });
    }

    /// Posts a level in the halt tree.
    fn post_level(&mut self, level: u64)
        requires capped { level ≤ LEAF }
        requires left { length self.old.acts < ROWS_MOST }
        requires room { 1 ≤ self.old.room }
        ensures after { IsAfter M.SameOrigin D.SameOrigin self.old self.new }
        ensures acts { self.new.acts ≡ with_post self.old.halt_tree level self.old.acts }
    {
        let index = POSTS_MOST - self.halt.left(0) + 1;
        self.halt.post(0, level);
        self.acts.push_reserved(Act::Post {
            tree: self.halt_tree,
            index,
            value: level,
        });
    }

    /// Posts what a row of an officer file says.
    pub(crate) fn post(&mut self, row: OfficerRow)
        requires row { CanPost self.old.halt_tree row.tree row.value }
        requires left { length self.old.acts < ROWS_MOST }
        requires room { 1 ≤ self.old.room }
        ensures after { IsAfter M.SameOrigin D.SameOrigin self.old self.new }
        ensures acts { self.new.acts ≡ with_row self.old.halt_tree self.old.acts row }
    {
        match row.tree {
            OfficerTree::Limit(tree) => self.post_limit(tree, row.value),
            OfficerTree::Halt => self.post_level(row.value),
        }
    }

    /// The hands and the acts at last, with the one that ends the officer, for which there is always
    /// room. The calls of both hands are the acts' posts, in order.
    pub(crate) fn end(self, end: End) -> ToldEnd<M, D>
        ensures acts { result.acts.items ≡ self.acts ++ Act.Ended end ∷ [] }
        ensures halt { result.halt ≡ self.halt }
        ensures desk { result.desk ≡ self.desk }
        ensures halt_calls { (M.meaning self.halt).calls ≡ calls_at self.halt_tree result.acts.items }
        ensures desk_calls { (D.meaning self.desk).calls ≡ limit_calls self.halt_tree result.acts.items }
    {
        let mut acts = self.acts;
        acts.push_reserved(Act::Ended { end });
        ToldEnd {
            halt: self.halt,
            desk: self.desk,
            acts,
        }
    }
}
