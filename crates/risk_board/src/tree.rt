//! One tree as a plain array, with the lines of its history.
ghost use Rattle.std.specs.Prelude.{◌≡◌, ◌+◌, ◌-◌, ◌<◌, ◌≤◌, ◌^◌, length, All, IfOk, slice_index};
ghost use Rattle.std.specs.Prelude.{OnOk, vec_len, vec_capacity};
ghost use Rattle.fold_law.specs.Whole.{whole_of};
ghost use Rattle.fold_law.specs.declared.limits.TheConstants.{SESSIONS};

use crate::hand::{Line, Seen};
use fold_law::{Fold, Memory, whole};
use std::alloc::Global;

/// A tree's lines in order, its array by component, and its number of posts by session.
#[derive(Drop)]
pub(crate) struct PlainTree {
    pub(crate) lines: Vec<Line>,
    pub(crate) leaves: Vec<u64>,
    pub(crate) posts: Vec<u32>,
}

impl PlainTree {
    ghost use Rattle.risk_board.specs.Tree.{contents, empty_tree, with_post};

    /// A tree before any post.
    pub(crate) fn open(
        alloc: Global,
        unit: u64,
        components: u32,
        sessions: u32,
    ) -> Result<PlainTree, Memory>
        ensures { IfOk result (λ tree. contents tree ≡ empty_tree unit components sessions) }
    {
        let leaves = Vec::from_elem(alloc, unit, components as usize).map_err(|_| Memory)?;
        let posts = Vec::from_elem(alloc, 0, sessions as usize).map_err(|_| Memory)?;
        Ok(PlainTree {
            lines: Vec::new(alloc),
            leaves,
            posts,
        })
    }

    /// Sets the session's component and adds the line of this post.
    pub(crate) fn post(&mut self, session: u32, value: u64)
        requires component { session < length self.old.leaves.items }
        requires session { session < length self.old.posts.items }
        requires few { slice_index self.old.posts.items session < 2 ^ 32 - 1 }
        requires room { vec_len self.old.lines < vec_capacity self.old.lines }
        ensures posted { contents self.new ≡ with_post session value (contents self.old) }
        ensures taken { vec_len self.new.lines ≡ vec_len self.old.lines + 1 }
        ensures room { vec_capacity self.new.lines ≡ vec_capacity self.old.lines }
    {
        let index = self.posts[session as usize] + 1;
        self.lines.push_reserved(Line {
            session,
            index,
            value,
        });
        self.leaves[session as usize] = value;
        self.posts[session as usize] = index;
    }

    /// Takes room for so many more lines. The room never shrinks.
    pub(crate) fn reserve(&mut self, lines: u32) -> Result<(), Memory>
        ensures ok { OnOk result (vec_len self.new.lines + lines ≤ vec_capacity self.new.lines) }
        ensures contents { contents self.new ≡ contents self.old }
        ensures taken { vec_len self.new.lines ≡ vec_len self.old.lines }
        ensures room { vec_capacity self.old.lines ≤ vec_capacity self.new.lines }
    {
        if self.lines.reserve(lines as usize).is_err() {
            return Err(Memory);
        }
        Ok(())
    }

    /// The number of posts so far, and the join of the array.
    pub(crate) fn root<F: Fold>(&self) -> Seen
        requires few { length self.now.lines.items < 2 ^ 32 }
        requires components { length self.now.leaves.items ≤ SESSIONS }
        requires leaves { All (F.under 1) self.now.leaves.items }
        ensures stamp { result.stamp ≡ length self.now.lines.items }
        ensures value { result.value ≡ whole_of F.join F.UNIT self.now.leaves.items }
    {
        Seen {
            stamp: self.lines.len() as u32,
            value: whole::<F>(&self.leaves),
        }
    }
}
