//! The reads of one tree, in order of row.

/// A read of a session, its row in the journal, from 1 with the header. The session had made so many
/// posts in the tree before it, and its read there before this one had the least stamp, 0 where there
/// is none.
#[derive(Clone, Copy, Debug, PartialEq, Eq)]
pub(crate) struct ReadRow {
    pub(crate) row: u32,
    pub(crate) session: u32,
    pub(crate) made: usize,
    pub(crate) least: u32,
    pub(crate) stamp: u32,
    pub(crate) place: u32,
    pub(crate) value: u64,
}
