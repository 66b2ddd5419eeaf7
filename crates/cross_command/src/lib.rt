//! The filter against a firm's own crossing orders, as a command: session files in, and out of each
//! what may go on to the venue and what answers the client.
//!
//! Each session is a task that `cross_guard` filters over a hand on one forest, with a tree for
//! each symbol. When all have ended the forest is closed, its trees are replayed, and the acts of
//! all sessions with the lines of all trees are the command's journal.
#![tactic(auto)]

mod answer;
mod command;
mod forest;
mod replay;
mod tasks;

pub use command::cross_words;

#[cfg(test)]
mod rows;
#[cfg(test)]
mod tests;
