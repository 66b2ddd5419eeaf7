//! The way down a tree from a stamp of its root to the posts that are new in it. It goes down to a
//! child only where the child's stamp grew.
ghost use Rattle.std.specs.Prelude.{◌≡◌, [], ◌*◌, ◌+◌, ◌^◌, ◌<◌, ◌≤◌, ◌++◌, slice_index_or, OnOk};
ghost use Rattle.stamp_word.specs.Places.{leaf_of};
ghost use Rattle.trail_replay.specs.Blocks.{lines_between};
ghost use Rattle.trail_replay.specs.Descent.{grown_lines, IsSpan, IsSpanBelow, IsUnder};
ghost use Rattle.trail_replay.specs.Fronts.{IsStampedRecord};
ghost use Rattle.trail_replay.specs.Histories.{posts_of_tree};
ghost use Rattle.trail_replay.specs.Sums.{read_in_all};

use crate::posts::add_between;
use crate::prepared::Prepared;
use crate::reads::stamps_at;
use fold_law::Memory;
use risk_board::Line;

/// A node on the way down: how high it stands above the leaves, and the session of its first leaf.
#[derive(Clone, Copy)]
pub(crate) struct Under {
    pub(crate) node: u32,
    pub(crate) height: u32,
    pub(crate) first: u32,
}

/// Two stamps of a node, of which the second isn't the earlier.
#[derive(Clone, Copy)]
pub(crate) struct Span {
    pub(crate) before: u32,
    pub(crate) upto: u32,
}

/// The stamps of the left and of the right child that the installs of a node with two stamps read.
fn spans_below(prepared: &Prepared, tree: u32, node: u32, span: Span) -> (Span, Span)
    requires stamped { IsStampedRecord prepared.now }
    requires tree { tree < prepared.now.shape.trees }
    requires inner { (1 ≤ node) × (node < 2 ^ prepared.now.shape.levels) }
    requires span { IsSpan prepared.now tree node span }
    ensures left { IsSpanBelow prepared.now tree (2 * node) span result.0 }
    ensures right { IsSpanBelow prepared.now tree (2 * node + 1) span result.1 }
{
    let before = stamps_at(&prepared.rows, tree, node, span.before);
    let upto = stamps_at(&prepared.rows, tree, node, span.upto);
    (
        Span {
            before: before.left,
            upto: upto.left,
        },
        Span {
            before: before.right,
            upto: upto.right,
        },
    )
}

/// Adds the lines of a session's posts that the later of two stamps of its leaf has and the earlier
/// one hasn't. A leaf of no session has no posts.
fn add_own(
    lines: &mut Vec<Line>,
    prepared: &Prepared,
    tree: u32,
    session: u32,
    span: Span,
) -> Result<(), Memory>
    requires stamped { IsStampedRecord prepared.now }
    requires tree { tree < prepared.now.shape.trees }
    requires leaf { session < 2 ^ prepared.now.shape.levels }
    requires span { IsSpan prepared.now tree (leaf_of prepared.now.shape.levels session) span }
    ensures { let values = slice_index_or (posts_of_tree tree prepared.now.passes.items) session [] in
        OnOk result (lines.new.items
        ≡ lines.old.items ++ lines_between session span.before span.upto values) }
{
    if session as usize >= prepared.posts.len() {
        return Ok(());
    }
    let lists = &prepared.posts[session as usize];
    let values = &lists[tree as usize];
    add_between(lines, session, span.before, span.upto, values)
}

/// Adds the lines of the posts below a node that the later of two of its stamps covers and the
/// earlier one doesn't, by session.
pub(crate) fn add_grown(
    lines: &mut Vec<Line>,
    prepared: &Prepared,
    tree: u32,
    under: Under,
    span: Span,
) -> Result<(), Memory>
    requires stamped { IsStampedRecord prepared.now }
    requires tree { tree < prepared.now.shape.trees }
    requires under { IsUnder prepared.now.shape.levels under.node under.height under.first }
    requires span { IsSpan prepared.now tree under.node span }
    ensures { OnOk result (lines.new.items ≡ lines.old.items
        ++ grown_lines (λ child stamp. read_in_all tree child stamp prepared.now.passes.items)
        (posts_of_tree tree prepared.now.passes.items)
        under.height under.node under.first span.before span.upto) }
{
    if span.before == span.upto {
        return Ok(());
    }
    if under.height == 0 {
        return add_own(lines, prepared, tree, under.first, span);
    }
    let height = under.height - 1;
    let (left, right) = spans_below(prepared, tree, under.node, span);
    let node = 2 * under.node;
    let first = under.first;
    add_grown(
        lines,
        prepared,
        tree,
        Under {
            node,
            height,
            first,
        },
        left,
    )?;
    let node = node + 1;
    let first = first + (1 << height);
    add_grown(
        lines,
        prepared,
        tree,
        Under {
            node,
            height,
            first,
        },
        right,
    )
}
