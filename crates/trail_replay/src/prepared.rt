//! A record prepared once, and the histories of its trees.
ghost use Rattle.std.specs.Prelude.{◌≡◌, ◌+◌, ◌<◌, length, IfOk};
ghost use Rattle.trail_replay.specs.Arrays.{AreLines};
ghost use Rattle.trail_replay.specs.Fronts.{last_stamp, IsLawful, IsStampedRecord};
ghost use Rattle.trail_replay.specs.Histories.{history_of, places_of, AreLegalIn};

use crate::blocks::history_to;
use crate::history::History;
use crate::reads::{ChildStamps, rows_in};
use crate::tree_posts::lists_in;
use f_array::Record;
use fold_law::{Fold, Memory};
use stamp_word::stamp_of;
use std::alloc::Global;
use std::marker::Model;

/// A record with what its installs read and what its sessions posted, by tree. Contracts see the
/// record.
#[derive(Drop)]
pub struct Prepared<'a> {
    pub(crate) taken: &'a Record,
    pub(crate) rows: Vec<Vec<Vec<ChildStamps>>>,
    pub(crate) posts: Vec<Vec<Vec<u64>>>,
}

impl<'a> Model for Prepared<'a> {
    ghost use Rattle.std.specs.Prelude.{map};
    ghost use Rattle.f_array.specs.declared.record.Record.{Record};
    ghost use Rattle.trail_replay.specs.Reads.{IsPrepared};

    ghost Value = { Record };

    ghost view = { λ p. p.taken.now };

    ghost invariant = { λ p. IsPrepared p.taken.now
        (map (λ nodes. map (λ row. row.items) nodes.items) p.rows.items)
        (map (λ lists. map (λ values. values.items) lists.items) p.posts.items) };
}

impl<'a> Prepared<'a> {
    /// The record prepared for all its trees, in one pass over all calls and trails.
    pub fn of(alloc: Global, taken: &'a Record) -> Result<Prepared<'a>, Memory>
        ensures { IfOk result (λ p. p ≡ taken.now) }
    {
        let rows = rows_in(alloc, taken)?;
        let posts = lists_in(alloc, &taken.passes, taken.shape.trees)?;
        Ok(Prepared { taken, rows, posts })
    }
}

/// The history of a tree of a prepared lawful record, as `replay` gives it. The cost is that of the
/// tree's own posts and stamps.
pub fn replay_of<F: Fold>(alloc: Global, prepared: &Prepared, tree: u32) -> Result<History, Memory>
    requires lawful { IsLawful F.UNIT F.CAP F.join prepared.now }
    requires tree { tree < prepared.now.shape.trees }
    ensures lines { IfOk result (λ h. h.lines.items ≡ history_of prepared.now tree) }
    ensures places { IfOk result (λ h. h.places.items ≡ places_of prepared.now tree) }
    ensures legal { IfOk result (λ h.
        AreLegalIn F.join F.UNIT prepared.now tree h.lines.items h.places.items) }
    ensures stamps { IfOk result (λ h.
        length h.places.items ≡ last_stamp prepared.now tree + 1) }
    ensures walkable { IfOk result (λ h. AreLines F.CAP h.lines.items) }
{
    let last = last_of(prepared.taken, tree);
    history_to(alloc, prepared, tree, last)
}

// The last stamp of a tree's root.
fn last_of(taken: &Record, tree: u32) -> u32
    requires stamped { IsStampedRecord taken.now }
    requires tree { tree < taken.now.shape.trees }
    ensures { result ≡ last_stamp taken.now tree }
{
    stamp_of(taken.words[taken.shape.root(tree) as usize])
}

/// The history of a tree of a lawful record: the posts in the order of the first stamp of the root
/// that covers them, and of one stamp by session and index. With each read at the place of its
/// stamp it is legal. It prepares the record for all trees: for more than one, prepare it once.
pub fn replay<F: Fold>(alloc: Global, taken: &Record, tree: u32) -> Result<History, Memory>
    requires lawful { IsLawful F.UNIT F.CAP F.join taken.now }
    requires tree { tree < taken.now.shape.trees }
    ensures lines { IfOk result (λ h. h.lines.items ≡ history_of taken.now tree) }
    ensures places { IfOk result (λ h. h.places.items ≡ places_of taken.now tree) }
    ensures legal { IfOk result (λ h.
        AreLegalIn F.join F.UNIT taken.now tree h.lines.items h.places.items) }
    // So it has a place for each stamp of the root, and can be walked.
    ensures stamps { IfOk result (λ h.
        length h.places.items ≡ last_stamp taken.now tree + 1) }
    ensures walkable { IfOk result (λ h. AreLines F.CAP h.lines.items) }
{
    let prepared = Prepared::of(alloc, taken)?;
    replay_of::<F>(alloc, &prepared, tree)
}
