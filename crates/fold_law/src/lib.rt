//! Lawful folds: a way to join the leaves of an f-array in any grouping, with room for as many of them
//! as a run has sessions, and the numbers that words and trees are built for.
//!
//! A fold has a unit, a largest leaf value, a join and an order. `under m x` says that `x` can be the
//! join of at most `m` leaf values; the laws hold of such values. Nothing here knows of words or trees.
#![tactic(auto)]

mod fold;
mod limits;
mod max;
mod sum;

pub use fold::{Fold, Memory, whole};
pub use limits::{LEAF, QUOTA, SESSIONS, STAMPS, VALUES};
pub use max::Max;
pub use sum::Sum;
