//! The tests of the crates of trees that need no private name: what no clause of theirs says.
//!
//! A crate with tests is proved twice, with them and without, so these stand in a crate above.
#![tactic(auto)]

#[cfg(test)]
mod board_tests;
#[cfg(test)]
mod fold_tests;
#[cfg(test)]
mod forest_fold_tests;
#[cfg(test)]
mod forest_tests;
#[cfg(test)]
mod fork_tests;
#[cfg(test)]
mod replay_tests;
#[cfg(test)]
mod word_tests;
