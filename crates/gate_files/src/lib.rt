//! What every command of the gate has to do with words and files: the words of the command line, the
//! names of outputs, the limit file, inputs that are opened and given back, outputs that are made and
//! closed, statuses, and what standard output is given.
//!
//! Nothing here runs a session. A command that runs some stands above, and so does one that reads a
//! journal.
#![tactic(auto)]

mod close;
mod inputs;
#[cfg(test)]
mod leaf_tests;
mod limits;
mod names;
mod open;
mod status;
mod telling;
mod words;
mod writing;

pub use close::{close_session, close_sessions};
pub use inputs::{Inputs, Named, Sure};
pub use limits::limits_from;
pub use names::{Names, OutputFiles, OutputFolder, Outputs, names_in};
pub use open::{
    Opened, Sinks, create_outputs, fetch_name, open_session, open_sessions, read_limits,
};
pub use status::{Answer, Status, standing};
pub use telling::{tell, tell_answer};
pub use words::{Check, Command, Run, command_from};
pub use writing::write_file;
