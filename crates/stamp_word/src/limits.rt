//! How large trees are, and how many there are.
use fold_law::SESSIONS;

/// The most levels above the leaves of a tree: as many as give each session of a run a leaf.
pub const LEVELS: u32 = 6;

/// The most trees.
pub const TREES: u32 = 600;

const _: () = prove!(SESSIONS == 1 << LEVELS);
