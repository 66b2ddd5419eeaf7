//! The exposure book: the orders of one session, and what they may still cost.
//!
//! A book is a list of orders, and the list of the ids that they ever had. An order counts with
//! what was filled and with what is left at its reserve price, the dearest price at which it may
//! trade. An account in a symbol is a pair. Where the account is gross, a pair counts for all that
//! its orders do; where it is net, what it bought and what it sold there offset each other. The
//! value of a tree is the sum over the pairs in it, in whole currency units, rounded up once. A
//! proposal says what the values would be with one more order or with a replaced one; a commit
//! makes it so. Reports of the venue fill, close, replace or refuse, and never raise a value.
//!
//! Whether a value is within a limit is not told here, nor who posts it.
#![tactic(auto)]

mod answer;
mod book;
mod committing;
mod id_key;
mod laws;
mod order;
mod pair_sums;
mod pair_table;
mod pending;
mod price;
mod proposing;
mod reporting;

pub use answer::{Applied, BookFault, Proposal, Terms3};
pub use book::Book;
pub use laws::no_report_raises_a_value;
pub use order::Order;
pub use pending::Pending;

#[cfg(test)]
mod net_sequences;
#[cfg(test)]
mod plain_book;
#[cfg(test)]
mod sequences;
#[cfg(test)]
mod tests;
