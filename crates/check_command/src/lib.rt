//! The command that judges a journal by files: the limit file, the journal and the sessions are
//! read, the journal is judged, and each file that was opened is given back.
//!
//! What is judged, and how, is `journal_check`'s. What is answered is told by whoever calls.
#![tactic(auto)]

mod command;
mod files;
mod inputs;
mod laws;
mod telling;
#[cfg(test)]
mod tests;

pub use command::check_words;
pub use laws::one_verdict_stands;
