//! Hands on an f-array, and a plain board of arrays that keeps their calls and its own history.
//!
//! A hand is what one session may do: post a value to its own component of a tree, and read a tree's
//! root. Its meaning is the list of its own calls so far. A board is a plain array for each tree, with
//! the lines of its history; it serves sessions that run in turn, and no thread.
#![tactic(auto)]

mod board;
mod hand;
mod kept;
mod plain_hand;
mod tree;

pub use board::{PlainBoard, components};
pub use hand::{Call, Hand, Line, Seen};
pub use plain_hand::PlainHand;
