//! The admission of an order: post what it could cost in each of its trees, read the roots, decide.
//!
//! An order counts in three **trees**: the firm's, its account's and its symbol's. A session has one
//! **hand** on the trees of sums and one on the halt tree. It posts the new values first and reads the
//! roots after them, so that its own reads see its own posts; where a root is above its limit, it posts
//! the old values back. What falls is posted without a read, and any session may **trip** the halt tree,
//! after which orders are refused.
//!
//! The two hands are one value, `Hands`, which makes each call on the hand of its tree and tells it as
//! the next **act** of the journal: so the acts say in which order the calls of both hands were made.
//!
//! This crate knows nothing of messages, of books, or of whose roots they are: any hands will do.
#![tactic(auto)]

mod admission;
mod ask;
mod asking;
mod hands;
mod laws;
mod lowering;
mod rows;
mod verdict;

pub use admission::admit;
pub use ask::{Ask, MOST_CALLS, Outcome, Verdict};
pub use asking::{ask_all, is_above_last};
pub use hands::{Ended, Hands, trip};
pub use laws::{
    a_history_admits_what_sessions_do, admitted_stays_within, asking_admits, lowering_admits,
    slices_keep_the_limit, tripping_admits,
};
pub use lowering::{lower, lower_all};
pub use rows::OrderRows;

#[cfg(test)]
mod tests;
