//! What is told of sessions that have ended.

use make_load::{Asked, Counts};

/// What is told of sessions that have ended.
#[derive(Clone, Copy, Debug)]
pub(crate) enum Told {
    /// The totals of the sessions and the trees.
    Totals,
    /// The summary of the load that they ran, with these counts of what it has, where all was done. Its
    /// reads are counted then. Where something failed, the totals.
    Summary(Asked, Counts),
}
