//! What the installs of a record read, in rows by tree, node and stamp, made in one pass over all
//! trails. A node's stamps are dense from 1, so a row has no gaps.
ghost use Rattle.std.specs.Prelude.{◌≡◌, ◌+◌, ◌/◌, ◌^◌, ◌<◌, ◌≤◌, map, replicate, slice_index};
ghost use Rattle.std.specs.Prelude.{length, slice_index_or, IfOk};
ghost use Rattle.stamp_word.specs.Word.{stamp_in};
ghost use Rattle.trail_replay.specs.Reads.{unread, row_with, nodes_with, rows_with, rows_after};
ghost use Rattle.trail_replay.specs.Reads.{rows_of, row_of};
ghost use Rattle.trail_replay.specs.Reads.{empty_nodes, empty_rows, end_stamp, AreRows};
ghost use Rattle.trail_replay.specs.Sums.{read_in_all};

use f_array::{PassRecord, Record};
use fold_law::Memory;
use node_rule::Install;
use stamp_word::{Shape, stamp_of};
use std::alloc::Global;

/// The stamps at which an install read the children of its node, each counted from 0.
#[derive(Clone, Copy)]
pub(crate) struct ChildStamps {
    pub(crate) left: u32,
    pub(crate) right: u32,
}

/// The rows of the inner nodes of all trees, with all installs of the record.
pub(crate) fn rows_in(alloc: Global, taken: &Record) -> Result<Vec<Vec<Vec<ChildStamps>>>, Memory>
    ensures { IfOk result (λ rows.
        map (λ nodes. map (λ row. row.items) nodes.items) rows.items
        ≡ rows_of (empty_rows (end_stamp taken.now) (2 ^ taken.now.shape.levels)
        taken.now.shape.trees) taken.now.passes.items) }
{
    let mut rows = rows_before(alloc, taken)?;
    for did in &taken.passes {
        add_trail(&mut rows, &did.trail);
    }
    Ok(rows)
}

/// The rows of all trees before any install.
fn rows_before(alloc: Global, taken: &Record) -> Result<Vec<Vec<Vec<ChildStamps>>>, Memory>
    ensures { IfOk result (λ rows.
        map (λ nodes. map (λ row. row.items) nodes.items) rows.items
        ≡ empty_rows (end_stamp taken.now) (2 ^ taken.now.shape.levels) taken.now.shape.trees) }
{
    let mut rows = Vec::new(alloc);
    for tree in 0..taken.shape.trees {
        let nodes = nodes_before(alloc, taken, tree)?;
        let Ok(()) = rows.push(nodes) else {
            return Err(Memory);
        };
    }
    Ok(rows)
}

/// The rows of one tree before any install.
fn nodes_before(alloc: Global, taken: &Record, tree: u32) -> Result<Vec<Vec<ChildStamps>>, Memory>
    requires tree { tree < taken.now.shape.trees }
    ensures { IfOk result (λ nodes. map (λ row. row.items) nodes.items
        ≡ empty_nodes (end_stamp taken.now tree) (2 ^ taken.now.shape.levels)) }
{
    let mut nodes = Vec::new(alloc);
    for node in 0..1 << taken.shape.levels {
        let last = stamp_at(&taken.words, taken.shape.path(tree, node));
        let row = row_before(alloc, last)?;
        let Ok(()) = nodes.push(row) else {
            return Err(Memory);
        };
    }
    Ok(nodes)
}

/// A row with a place for each stamp from 0 to this one.
fn row_before(alloc: Global, last: u32) -> Result<Vec<ChildStamps>, Memory>
    ensures { IfOk result (λ row. row.items ≡ replicate (last + 1) unread) }
{
    let unread = ChildStamps { left: 0, right: 0 };
    let mut row = Vec::new(alloc);
    let Ok(()) = row.resize(last as usize + 1, unread) else {
        return Err(Memory);
    };
    Ok(row)
}

/// The stamp of the word at a place; 0 past the last word.
fn stamp_at(words: &[u64], place: u32) -> u32
    ensures { result ≡ stamp_in (slice_index words.now place) }
{
    if (place as usize) < words.len() {
        stamp_of(words[place as usize])
    } else {
        0
    }
}

/// Adds what the installs of a trail read.
fn add_trail(rows: &mut Vec<Vec<Vec<ChildStamps>>>, trail: &[Install])
    ensures { map (λ nodes. map (λ row. row.items) nodes.items) rows.new.items
        ≡ rows_after (map (λ nodes. map (λ row. row.items) nodes.items) rows.old.items) trail.now }
{
    for install in trail {
        add_install(rows, install);
    }
}

/// Adds what an install read, where its tree has rows.
fn add_install(rows: &mut Vec<Vec<Vec<ChildStamps>>>, install: &Install)
    ensures { map (λ nodes. map (λ row. row.items) nodes.items) rows.new.items
        ≡ rows_with (map (λ nodes. map (λ row. row.items) nodes.items) rows.old.items) install.now }
{
    let tree = install.tree as usize;
    if tree < rows.len() {
        let nodes = &mut rows[tree];
        add_to_tree(nodes, install);
    }
}

/// Adds what an install read, where its node has a row.
fn add_to_tree(nodes: &mut Vec<Vec<ChildStamps>>, install: &Install)
    ensures { map (λ row. row.items) nodes.new.items
        ≡ nodes_with install.now (map (λ row. row.items) nodes.old.items) }
{
    let node = install.node as usize;
    if node < nodes.len() {
        let row = &mut nodes[node];
        add_to_row(row, install);
    }
}

/// Adds what an install read, where the row has its stamp.
fn add_to_row(row: &mut Vec<ChildStamps>, install: &Install)
    ensures { row.new.items ≡ row_with install.now row.old.items }
{
    let stamp = install.stamp as usize;
    if stamp < row.len() {
        let old = row[stamp];
        row[stamp] = ChildStamps {
            left: old.left.saturating_add(install.left),
            right: old.right.saturating_add(install.right),
        };
    }
}

/// What the install of a node with a stamp of its row read.
pub(crate) fn stamps_at(
    rows: &[Vec<Vec<ChildStamps>>],
    tree: u32,
    node: u32,
    stamp: u32,
) -> ChildStamps
    requires has { let all = map (λ nodes. map (λ row. row.items) nodes.items) rows.now in
        stamp < length (row_of all tree node) }
    ensures { let all = map (λ nodes. map (λ row. row.items) nodes.items) rows.now in
        result ≡ slice_index_or (row_of all tree node) stamp unread }
{
    let row = &rows[tree as usize][node as usize];
    row[stamp as usize]
}
