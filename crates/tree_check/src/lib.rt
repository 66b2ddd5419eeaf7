//! Whether a run's trees agree with what their journal says: each read with a walk along the tree's
//! history, and what is admitted with the tree's limit.
//!
//! Both are looked at afresh, from the lines and the reads alone, in time that grows with their number.
//! Of a legal history both are so: that is a law here, and what a run owes is told where it runs.
#![tactic(auto)]

mod agreeing;
mod buckets;
mod laws;
mod read_at;
mod standing;
mod staying;
mod walking;

pub use agreeing::{ToldTree, trees_agree};
pub use laws::{legal_reads_are_walked, staying_is_within};
pub use read_at::{ReadAt, reads_by_tree};
pub use staying::stays_within;
pub use walking::are_walked;

#[cfg(test)]
mod tests;
