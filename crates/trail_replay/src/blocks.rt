//! The history of a tree, block after block, from what was prepared of its record.
ghost use Rattle.std.specs.Prelude.{◌≡◌, ◌+◌, ◌<◌, ◌≤◌, ◌++◌, IfOk, OnOk};
ghost use Rattle.trail_replay.specs.Blocks.{block_from, places_to};
ghost use Rattle.trail_replay.specs.Fronts.{front_of, last_stamp, IsStampedRecord};
ghost use Rattle.trail_replay.specs.Histories.{posts_of_tree, lines_of_tree};

use crate::descent::{Span, Under, add_grown};
use crate::history::History;
use crate::prepared::Prepared;
use fold_law::Memory;
use risk_board::Line;
use std::alloc::Global;

/// The history up to the block of this stamp.
pub(crate) fn history_to(
    alloc: Global,
    prepared: &Prepared,
    tree: u32,
    last: u32,
) -> Result<History, Memory>
    requires stamped { IsStampedRecord prepared.now }
    requires tree { tree < prepared.now.shape.trees }
    requires last { last ≤ last_stamp prepared.now tree }
    ensures lines { IfOk result (λ h. h.lines.items ≡ lines_of_tree prepared.now tree last) }
    ensures places { IfOk result (λ h. h.places.items
        ≡ places_to (front_of prepared.now.shape.levels prepared.now.passes.items tree)
        (posts_of_tree tree prepared.now.passes.items) last) }
{
    let mut lines = Vec::new(alloc);
    let mut places = Vec::new(alloc);
    let Ok(()) = places.push(0) else {
        return Err(Memory);
    };
    for stamp in 0..last {
        add_block(&mut lines, prepared, tree, stamp)?;
        let Ok(()) = places.push(lines.len() as u32) else {
            return Err(Memory);
        };
    }
    Ok(History { lines, places })
}

/// Adds the block of the stamp after this one.
fn add_block(
    lines: &mut Vec<Line>,
    prepared: &Prepared,
    tree: u32,
    stamp: u32,
) -> Result<(), Memory>
    requires stamped { IsStampedRecord prepared.now }
    requires tree { tree < prepared.now.shape.trees }
    requires reached { stamp + 1 ≤ last_stamp prepared.now tree }
    ensures { let front = front_of prepared.now.shape.levels prepared.now.passes.items tree in
        OnOk result (lines.new.items ≡ lines.old.items
        ++ block_from (front stamp) (front (stamp + 1)) 0
        (posts_of_tree tree prepared.now.passes.items)) }
{
    let root = Under {
        node: 1,
        height: prepared.taken.shape.levels,
        first: 0,
    };
    let span = Span {
        before: stamp,
        upto: stamp + 1,
    };
    add_grown(lines, prepared, tree, root, span)
}
