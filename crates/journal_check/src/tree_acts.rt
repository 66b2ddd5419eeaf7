//! What the sessions did, tree by tree.
ghost use Rattle.std.specs.Prelude.{◌≡◌, ◌+◌, ◌≤◌, ◌<◌, ◌^◌, [], length, map, replicate, IfOk, OnOk};
ghost use Rattle.std.specs.Prelude.{slice_index_or};
ghost use Rattle.fold_law.specs.declared.limits.TheConstants.{SESSIONS};
ghost use Rattle.journal_check.specs.Items.{items_of};
ghost use Rattle.journal_check.specs.Buckets.{tree_value, empty_tree, begun, changed_at, with_post};
ghost use Rattle.journal_check.specs.Buckets.{with_read, with_act, with_acts, with_sessions, AreByTree};
ghost use Rattle.journal_check.specs.RowNumbers.{count_all};

use crate::read_rows::ReadRow;
use fold_law::Memory;
use risk_journal::Act;
use std::alloc::Global;

/// What the sessions did in one tree: the values that each posted, and the reads in order of row; and
/// the stamp of the last read of the session that is being told, 0 before its first.
#[derive(Drop)]
pub(crate) struct TreeActs {
    pub(crate) posts: Vec<Vec<u64>>,
    pub(crate) reads: Vec<ReadRow>,
    least: u32,
}

/// So many sessions without a post.
fn no_posts(alloc: Global, sessions: usize) -> Result<Vec<Vec<u64>>, Memory>
    ensures { IfOk result (λ posts. map (λ own. own.items) posts.items ≡ replicate sessions []) }
{
    let mut posts = Vec::new(alloc);
    for _ in 0..sessions {
        let Ok(()) = posts.push(Vec::new(alloc)) else {
            return Err(Memory);
        };
    }
    Ok(posts)
}

/// So many trees, in which so many sessions did nothing.
fn empty_trees(alloc: Global, trees: usize, sessions: usize) -> Result<Vec<TreeActs>, Memory>
    ensures { IfOk result (λ all. map tree_value all.items ≡ replicate trees (empty_tree sessions)) }
{
    let mut all = Vec::new(alloc);
    for _ in 0..trees {
        let own = TreeActs {
            posts: no_posts(alloc, sessions)?,
            reads: Vec::new(alloc),
            least: 0,
        };
        let Ok(()) = all.push(own) else {
            return Err(Memory);
        };
    }
    Ok(all)
}

/// The next session is told: it has read nothing yet.
fn begin_session(trees: &mut [TreeActs])
    ensures { map tree_value trees.new ≡ map begun (map tree_value trees.old) }
{
    for tree in 0..trees.len() {
        trees[tree].least = 0;
    }
}

/// How many posts a session has made.
fn made_by(posts: &[Vec<u64>], session: u32) -> usize
    ensures { result ≡ length (slice_index_or (items_of posts.now) session []) }
{
    match posts.get(session as usize) {
        Some(own) => own.len(),
        None => 0,
    }
}

/// Adds a post of a session to its tree.
fn add_post(own: &mut TreeActs, session: u32, value: u64) -> Result<(), Memory>
    ensures { OnOk result (tree_value own.new ≡ with_post session value (tree_value own.old)) }
{
    let session = session as usize;
    if session < own.posts.len() {
        let posts = &mut own.posts[session];
        let Ok(()) = posts.push(value) else {
            return Err(Memory);
        };
    }
    Ok(())
}

/// Adds a read to its tree. What its session did there before it is filled in here.
fn add_read(own: &mut TreeActs, read: ReadRow) -> Result<(), Memory>
    ensures { OnOk result (tree_value own.new ≡ with_read read (tree_value own.old)) }
{
    let made = made_by(&own.posts, read.session);
    let least = own.least;
    let Ok(()) = own.reads.push(ReadRow {
        made,
        least,
        ..read
    })
    else {
        return Err(Memory);
    };
    own.least = read.stamp;
    Ok(())
}

/// Adds a post to the tree with this number, if there is one.
fn add_post_in(trees: &mut [TreeActs], tree: u32, session: u32, value: u64) -> Result<(), Memory>
    ensures { OnOk result (map tree_value trees.new
        ≡ changed_at tree (with_post session value) (map tree_value trees.old)) }
{
    let tree = tree as usize;
    if tree < trees.len() {
        add_post(&mut trees[tree], session, value)?;
    }
    Ok(())
}

/// Adds a read to the tree with this number, if there is one.
fn add_read_in(trees: &mut [TreeActs], tree: u32, read: ReadRow) -> Result<(), Memory>
    ensures { OnOk result (map tree_value trees.new
        ≡ changed_at tree (with_read read) (map tree_value trees.old)) }
{
    let tree = tree as usize;
    if tree < trees.len() {
        add_read(&mut trees[tree], read)?;
    }
    Ok(())
}

/// Adds an act of a session, which stands in this row.
fn add_act(trees: &mut [TreeActs], session: u32, row: u32, act: &Act) -> Result<(), Memory>
    ensures { OnOk result (map tree_value trees.new
        ≡ with_act session row (map tree_value trees.old) act.now) }
{
    match *act {
        Act::Post { tree, value, .. } => add_post_in(trees, tree, session, value),
        Act::Read {
            tree,
            stamp,
            place,
            value,
        } => {
            let read = ReadRow {
                row,
                session,
                made: 0,
                least: 0,
                stamp,
                place,
                value,
            };
            add_read_in(trees, tree, read)
        }
        Act::Sent { .. } | Act::Refused { .. } | Act::Noted { .. } | Act::Ended { .. } => Ok(()),
    }
}

/// Adds the acts of a session, of which the first stands in this row.
fn add_acts(trees: &mut [TreeActs], session: u32, first: u32, acts: &[Act]) -> Result<(), Memory>
    requires { first + length acts.now < 2 ^ 32 }
    ensures { OnOk result (map tree_value trees.new
        ≡ with_acts session first (map tree_value trees.old) acts.now) }
{
    let mut row = first;
    for act in acts {
        add_act(trees, session, row, act)?;
        row += 1;
    }
    Ok(())
}

/// Adds the acts of all sessions to trees in which nothing was done, the first in row 2.
fn add_sessions(trees: &mut [TreeActs], acts: &[Vec<Act>]) -> Result<(), Memory>
    requires sessions { length acts.now ≤ SESSIONS }
    requires rows { 2 + count_all (items_of acts.now) < 2 ^ 32 }
    ensures { OnOk result (map tree_value trees.new
        ≡ with_sessions 0 2 (map tree_value trees.old) (items_of acts.now)) }
{
    let mut session = 0;
    let mut row = 2;
    for own in acts {
        begin_session(trees);
        add_acts(trees, session, row, own)?;
        session += 1;
        row += own.len() as u32;
    }
    Ok(())
}

/// What the sessions did in each of so many trees, by the acts of all sessions.
pub(crate) fn acts_by_tree(
    alloc: Global,
    trees: usize,
    acts: &[Vec<Act>],
) -> Result<Vec<TreeActs>, Memory>
    requires sessions { length acts.now ≤ SESSIONS }
    requires rows { 2 + count_all (items_of acts.now) < 2 ^ 32 }
    ensures count { IfOk result (λ all. length all.items ≡ trees) }
    ensures each { IfOk result (λ all. AreByTree trees (items_of acts.now)
        (map tree_value all.items)) }
{
    let mut all = empty_trees(alloc, trees, acts.len())?;
    add_sessions(&mut all, acts)?;
    Ok(all)
}
