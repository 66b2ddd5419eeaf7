//! What a session decides on its orders and requests, and what reports make of them: the book is
//! asked, then the screens, then the trees, and what is sent is committed.
//!
//! An order counts in three trees: the firm's, its account's and its symbol's. What the book's
//! orders are worth in a tree is at most what the session last posted there. This crate reads and
//! writes no message.
#![tactic(auto)]

mod complete_laws;
mod decide;
mod desk;
mod dropping;
mod effect;
mod halt_laws;
mod judge;
mod laws;
mod offer;
mod refusal;
mod rows;
mod settling;
mod values;

pub use complete_laws::{an_order_is_sent_exactly_within_limits, what_raises_no_value_is_sent};
pub use decide::{decide_cancel, decide_new, decide_replace};
pub use desk::Desk;
pub use dropping::only_its_own_rows_drop_screens;
pub use effect::Effect;
pub use halt_laws::{decisions_keep_halt, reports_keep_halt, tripping_keeps_cover};
pub use laws::{
    a_first_book_is_covered, a_screens_refusal_changes_nothing, decisions_keep_cover,
    reports_keep_cover,
};
pub use offer::Offer;
pub use refusal::Refusal;
pub use settling::{Reply, settle};

#[cfg(test)]
mod screened;
#[cfg(test)]
mod sequences;
#[cfg(test)]
mod tests;
