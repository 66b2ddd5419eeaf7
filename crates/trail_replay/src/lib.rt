//! From the trails of a closed forest to one history of each tree.
//!
//! A *record* is what a closed forest gives: its words, and of each session the calls and the
//! *trail*, the list of its installs. The *front* of a stamp of a tree's root is how many posts of
//! each session that stamp covers. A *block* has the posts that one front covers and the front
//! before it doesn't. The *history* of a tree is its blocks, and the *place* of a stamp is the
//! number of lines up to its block. With each read at the place of its stamp the history is legal:
//! that of a plain array.
//!
//! It is *not* the order in which posts were stored: two posts that one exchange took up stand by
//! session, and sessions that never met stand in some order.
#![tactic(auto)]

mod array;
mod blocks;
mod descent;
mod histories;
mod history;
mod laws;
mod posts;
mod prepared;
mod reads;
mod tree_posts;
mod walk;

pub use histories::{Histories, add_histories, numbers};
pub use history::{History, at, place};
pub use laws::{
    closed_records_are_lawful, components_are_leaves, histories_are_legal,
    histories_are_legal_by_places, histories_have_totals,
};
pub use prepared::{Prepared, replay, replay_of};
pub use walk::Walk;
