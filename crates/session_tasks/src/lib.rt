//! Sessions of a command as tasks, and what is left of them: what every command has in common that
//! runs sessions over forests, whatever its sessions do.
//!
//! A *job* is a run that may begin: its words, the limits that count for so many sessions, and the
//! names of its outputs. A *task* is a session with what it takes along, as its passes on the
//! forests. What a session is held to are two relations, the *rules* of its command: one over the
//! bytes of a whole input, and one over what was fetched where a fault ended the session. Here no
//! session is run, and no forest is known.
#![tactic(auto)]

mod ended;
mod job;
mod keeping;
mod pieces;
mod placed;
mod task;

pub use ended::{Ended, Tasks, room_for, run_all, tasks_of};
pub use job::{Job, Ready};
pub use keeping::{Finished, Kept, keep};
pub use placed::all_placed;
pub use task::{Task, TaskDone};
