//! What became of a report.

/// What became of a report or of a cancel reject.
#[derive(Clone, Copy, Debug, PartialEq, Eq)]
pub enum Effect {
    /// It was applied, and each value that fell was posted.
    Applied,
    /// It was applied, and a value fell in a tree in which no post is left.
    NotLowered,
    /// It has no id, or an id of no order. Nothing changed.
    Stray,
    /// It trades more than is left, or above the reserve price. Nothing changed.
    Over,
}
