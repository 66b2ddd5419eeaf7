//! Words that carry a stamp beside a value, the places of the words of trees, and single counted
//! steps on one word.
//!
//! A word is `{ stamp, value }`: the 26 high bits of a u64 are the stamp, the 38 low bits the value.
//! A tree is a row of words: its root is node 1, the children of node k are the nodes 2k and 2k + 1,
//! and the leaves are the last nodes. A step is one atomic load, store or exchange of one word.
//! Each is counted by the seat that makes it, and no other crate reaches a word but by such a step.
//! Nothing here says what a stamp or a value means, and no step takes memory or waits.
#![tactic(auto)]

mod counted;
mod limits;
mod shape;
mod step;
mod steps;
mod word;

pub use counted::{CountedSeat, CountedTable};
pub use limits::{LEVELS, TREES};
pub use shape::Shape;
pub use step::{exchange_if, load, store};
pub use steps::{Steps, count_steps};
pub use word::{each_word_is_one_pair, pack, stamp_of, value_of};
