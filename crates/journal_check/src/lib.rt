//! A judge of journals from anyone.
#![tactic(auto)]

mod act_rows;
mod agreement;
mod far_rows;
mod judging;
mod laws;
mod read_rows;
mod replay;
mod right_lines;
mod right_reads;
mod rows_first;
mod same_acts;
mod screen_sets;
mod script;
mod session_acts;
mod tables;
mod tree_acts;
mod tree_faults;
mod tree_lines;
mod tree_reads;

pub use judging::{CheckDone, CheckFault, Checked, JOURNAL_MOST, check};
pub use laws::one_judgement_stands;
pub use script::ScriptHand;

#[cfg(test)]
mod tests;
