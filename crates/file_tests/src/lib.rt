//! The tests of the crates that read and write a session's and a run's files: what no clause of
//! theirs says.
//!
//! A crate with tests is proved twice, with them and without, so these stand in a crate above.
#![tactic(auto)]

#[cfg(test)]
mod fetch_tests;
#[cfg(test)]
mod found_tests;
#[cfg(test)]
mod frame_buffer_tests;
#[cfg(test)]
mod frame_tests;
#[cfg(test)]
mod journal_tests;
#[cfg(test)]
mod message_tests;
#[cfg(test)]
mod number_tests;
#[cfg(test)]
mod order_tests;
#[cfg(test)]
mod port_tests;
#[cfg(test)]
mod reading_tests;
#[cfg(test)]
mod totals_tests;
#[cfg(test)]
mod writer_tests;
