//! Limit files: the rows that they hold, the limits that they give, the first fault of a file that
//! isn't one, and the file that is written for limits.
//!
//! A limit file is read as comma-separated values. Each row sets one limit: of the firm, of an
//! account or of a symbol, or one of the settings of a run. A file is refused for the first fault
//! of its first row with one. A file of version 2 says so in its first row, and tells of each account
//! whether it is net.
#![tactic(auto)]

mod columns;
mod counted;
mod entry;
mod fault;
mod kind;
mod limit_law;
mod limits;
mod listing;
mod lists;
mod making;
mod places;
mod price;
mod printing;
mod reading;
mod so_far;
mod version;

pub use counted::{FEW_SESSIONS, QUOTA_OF_MANY};
pub use fault::LimitFault;
pub use kind::{AccountRow, OffRow, SymbolRow};
pub use limit_law::{held_limits_stand, one_answer_stands};
pub use limits::Limits;
pub use lists::{Accounts, OffRows, Symbols};
pub use printing::print_limits;
pub use reading::read_limits;

#[cfg(test)]
mod print_tests;
#[cfg(test)]
mod tests;
#[cfg(test)]
mod version_tests;
