//! The rows of a journal behind its header, and their columns.

use crate::acts::Act;
use risk_board::Line;

/// What a row's first column says.
#[derive(Clone, Copy, Debug, PartialEq, Eq)]
pub(crate) enum Kind {
    Post,
    Read,
    Sent,
    Refused,
    Noted,
    Ended,
    Line,
}

/// The columns of a row. The last four are empty or a number.
#[derive(Clone, Copy, Debug)]
pub(crate) struct Columns {
    pub(crate) kind: Kind,
    pub(crate) session: u64,
    pub(crate) a: Option<u64>,
    pub(crate) b: Option<u64>,
    pub(crate) c: Option<u64>,
    pub(crate) d: Option<u64>,
}

/// A row that is read.
#[derive(Clone, Copy, Debug)]
pub(crate) enum Row {
    /// An act of a session, by the session's number from 0.
    OfSession { session: u32, act: Act },
    /// A line of a tree, by the tree's number from 0 and the line's place from 1.
    OfTree { tree: u32, place: u32, line: Line },
}
